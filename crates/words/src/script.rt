// Scripts: turns in words, one to a line.
ghost use Rattle.std.specs.Prelude.{◌≡◌, ◌<◌, [], ◌∷◌, length, IfOk, string_bytes, MatchOption, Some};
ghost use Rattle.words.specs.Lines.{understood};
ghost use Rattle.words.specs.Script.{lines_of, LineTakes, Plays};
ghost use Rattle.words.specs.declared.script.Trouble.TheVariants.{Fault as OfFault};
ghost use Rattle.words.specs.declared.taking.Fault.TheVariants.{NoMemory};

use crate::lines::{Line, read_line};
use crate::taking::{Fault, Takes};
use std::alloc::{AllocError, Global};
use std::fmt;

// The first line and what follows it, if there is one.
pub fn next_line(text: &[u8]) -> Option<(&[u8], &[u8])>
    ensures { MatchOption result (lines_of text.now ≡ []) (λ p. (lines_of text.now ≡ p.0.now ∷ lines_of p.1.now) × (length p.1.now < length text.now)) }
{
    if text.is_empty() {
        return None;
    }
    match text.iter().position(|b| *b == b'\n') {
        Some(end) => Some((&text[..end], &text[end + 1..])),
        None => Some((text, &[])),
    }
}

// Why a line is not played.
#[derive(Clone, Copy, Debug, PartialEq, Eq)]
enum Trouble {
    NotUnderstood,
    Fault(Fault),
}

impl fmt::Display for Trouble {
    ghost use Rattle.words.specs.Script.{trouble_text};

    ghost output = { λ trouble. Some (trouble_text trouble) };

    fn fmt<W: fmt::Write>(&self, f: &mut fmt::Formatter<W>) -> fmt::Result {
        match self {
            Trouble::NotUnderstood => write!(f, "not understood"),
            Trouble::Fault(fault) => write!(f, "{fault}"),
        }
    }
}

impl From<Fault> for Trouble {
    ghost from_gives = { λ fault trouble. trouble ≡ OfFault fault };

    fn from(fault: Fault) -> Trouble {
        Trouble::Fault(fault)
    }
}

impl From<AllocError> for Trouble {
    ghost from_gives = { λ _ trouble. trouble ≡ OfFault NoMemory };

    fn from(_failed: AllocError) -> Trouble {
        Trouble::Fault(Fault::NoMemory)
    }
}

// Does what a line says.
fn take_line<P: Takes>(heap: Global, page: &mut P, line: &[u8]) -> Result<(), Trouble>
    ensures { LineTakes P.steps result (understood line.now) page.old page.new }
{
    let mut turn = Vec::new(heap);
    match read_line(line, &mut turn)? {
        Line::Blank => Ok(()),
        Line::Unknown => Err(Trouble::NotUnderstood),
        Line::Turn => Ok(page.take(turn.as_slice())?),
    }
}

// Takes the turns of all lines; false where one was not taken. `messages` says which, and why.
// A flag beside the text, since later lines are taken all the same, and a caller need not look at the text.
pub fn play<P: Takes>(
    heap: Global,
    page: &mut P,
    script: &[u8],
    messages: &mut String,
) -> Result<bool, AllocError>
    ensures { IfOk result (λ ok. Plays P.steps 1 (lines_of script.now) page.old page.new (string_bytes messages.old) (string_bytes messages.new) ok) }
{
    let mut all = true;
    // the library's `split` gives one more, empty line behind a last line feed, which the definition of lines does not have
    let mut number: usize = 0;
    let mut rest = script;
    while let Some((line, after)) = next_line(rest) {
        number += 1;
        match take_line(heap, page, line) {
            Ok(()) => {}
            Err(Trouble::Fault(Fault::NoMemory)) => return Err(AllocError),
            Err(why) => {
                messages.push_str(format!(in heap; "line {number}: {why}\n")?.as_str())?;
                all = false;
            }
        }
        rest = after;
    }
    Ok(all)
}
