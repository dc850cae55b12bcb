// What a line says: the words of a command, read into the bytes of a turn.
ghost use Rattle.std.specs.Prelude.{◌≡◌, IfOk, codes, find, ◌==◌, slice_index};
ghost use Rattle.std.specs.Str.{bytes_eq};
ghost use Rattle.words.specs.declared.lines.Unread.TheVariants.{NoMemory};
ghost use Rattle.words.specs.Digits.{hex_bytes};
ghost use Rattle.words.specs.Table.{table, field_bytes, fields_bytes};
ghost use Rattle.words.specs.Split.{words_of};
ghost use Rattle.words.specs.Lines.{ReadsOn, hex_words, raw_bytes, row_bytes, named, LineSays, understood};

use crate::digits::{hex_pair, read_number};
use crate::forms::Field;
use crate::split::{at_end, next_word};
use crate::table::{find_named, forms};
use std::alloc::{AllocError, AllocFailed};

#[derive(Clone, Copy, Debug, PartialEq, Eq)]
pub enum Line {
    // no word, or a comment
    Blank,
    // a turn, whose bytes stand beside it
    Turn,
    // what is not understood
    Unknown,
}

// Why words are not read.
#[derive(Clone, Copy, Debug, PartialEq, Eq)]
enum Unread {
    NotUnderstood,
    NoMemory,
}

impl From<AllocError> for Unread {
    ghost from_gives = { λ _ why. why ≡ NoMemory };

    fn from(_failed: AllocError) -> Unread {
        Unread::NoMemory
    }
}

impl<T: Drop> From<AllocFailed<T>> for Unread {
    ghost from_gives = { λ _ why. why ≡ NoMemory };

    fn from(_failed: AllocFailed<T>) -> Unread {
        Unread::NoMemory
    }
}

// Adds the bytes of a word of hex digits.
fn read_hex(word: &[u8], turn: &mut Vec<u8>) -> Result<(), Unread>
    ensures { ReadsOn result turn.old.items turn.new.items (hex_bytes word.now) }
{
    let mut rest = word;
    while let [high, low, after @ ..] = rest {
        turn.push(hex_pair(*high, *low).ok_or(Unread::NotUnderstood)?)?;
        rest = after;
    }
    if rest.is_empty() {
        Ok(())
    } else {
        Err(Unread::NotUnderstood)
    }
}

// Adds the bytes of a field's word.
fn read_field(field: Field, word: &[u8], turn: &mut Vec<u8>) -> Result<(), Unread>
    ensures { ReadsOn result turn.old.items turn.new.items (field_bytes field word.now) }
{
    match field {
        Field::Byte => {
            let n = read_number(word, 255).ok_or(Unread::NotUnderstood)?;
            turn.push(n as u8)?;
            Ok(())
        }
        Field::Short => {
            let n = read_number(word, 65535).ok_or(Unread::NotUnderstood)?;
            turn.extend_from_slice(&n.to_le_bytes())?;
            Ok(())
        }
        Field::Colour => {
            if word.len() != 8 {
                return Err(Unread::NotUnderstood);
            }
            read_hex(word, turn)
        }
    }
}

// Adds the bytes of the words of fields, which are all that the line has.
fn read_fields(fields: &[Field], line: &[u8], turn: &mut Vec<u8>) -> Result<(), Unread>
    ensures { ReadsOn result turn.old.items turn.new.items (fields_bytes fields.now (words_of line.now)) }
{
    let mut rest = line;
    for field in fields {
        // with `ok_or` and `?` in place of `else`, the proof did not close
        let Some((word, after)) = next_word(rest) else {
            return Err(Unread::NotUnderstood);
        };
        read_field(*field, word, turn)?;
        rest = after;
    }
    if at_end(rest) {
        Ok(())
    } else {
        Err(Unread::NotUnderstood)
    }
}

// Adds the bytes of words of hex digits.
fn read_hex_words(line: &[u8], turn: &mut Vec<u8>) -> Result<(), Unread>
    ensures { ReadsOn result turn.old.items turn.new.items (hex_words (words_of line.now)) }
{
    let mut rest = line;
    while let Some((word, after)) = next_word(rest) {
        read_hex(word, turn)?;
        rest = after;
    }
    Ok(())
}

// Adds the bytes of the words behind `bytes`, of which there is one at least.
fn read_raw(line: &[u8], turn: &mut Vec<u8>) -> Result<(), Unread>
    ensures { ReadsOn result turn.old.items turn.new.items (raw_bytes (words_of line.now)) }
{
    if at_end(line) {
        return Err(Unread::NotUnderstood);
    }
    read_hex_words(line, turn)
}

fn is_bytes(name: &[u8]) -> bool
    ensures { result ≡ bytes_eq name.now (codes "bytes") }
{
    name == b"bytes".as_slice()
}

// Adds the bytes of the command of a name, from the line behind it.
fn read_command(name: &[u8], line: &[u8], turn: &mut Vec<u8>) -> Result<(), Unread>
    ensures { ReadsOn result turn.old.items turn.new.items (row_bytes (find (named name.now) table) name.now (words_of line.now)) }
{
    match find_named(forms(), name) {
        Some(form) => {
            turn.extend_from_slice(form.head)?;
            read_fields(form.fields, line, turn)
        }
        None if is_bytes(name) => read_raw(line, turn),
        None => Err(Unread::NotUnderstood),
    }
}

fn is_comment(line: &[u8]) -> bool
    ensures { result ≡ (slice_index line.now 0 == 35) }
{
    line.first() == Some(&b'#')
}

// What a line says; where that is a turn, `turn` then holds its bytes, and else nothing.
// The bytes go into a list of the caller's, which can serve for all lines.
pub fn read_line(line: &[u8], turn: &mut Vec<u8>) -> Result<Line, AllocError>
    ensures { IfOk result (λ l. LineSays l turn.new.items (understood line.now)) }
{
    turn.clear();
    if is_comment(line) {
        return Ok(Line::Blank);
    }
    let Some((name, rest)) = next_word(line) else {
        return Ok(Line::Blank);
    };
    match read_command(name, rest, turn) {
        Ok(()) => Ok(Line::Turn),
        Err(Unread::NotUnderstood) => {
            turn.clear();
            Ok(Line::Unknown)
        }
        Err(Unread::NoMemory) => Err(AllocError),
    }
}
