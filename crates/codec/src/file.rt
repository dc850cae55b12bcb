// Reading a file: a pass that validates it and changes nothing. Its edits start at byte 16.
ghost use Rattle.std.specs.Prelude.{◌≡◌, ℕ, ◌+◌, ◌*◌, ◌<◌, ◌≤◌, length, IfOk, MatchResult, Ok, Some, None};
ghost use Rattle.codec.specs.Files.{Checks, letters, side_refusal, size_refusal, sized, against_edit, edits_end, head_end, four_at, read_file};
ghost use Rattle.codec.specs.Meaning.{two_at};
ghost use Rattle.codec.specs.Read.{unless};
ghost use Rattle.codec.specs.FileLaws.{FileRead};

use crate::edits::{Lent, Refusal};
use crate::read::{need, taken_end, two};
use pixel::sizes::{MOST, Size};

#[derive(Clone, Copy, Debug, PartialEq, Eq)]
pub struct File {
    pub width: u16,
    pub height: u16,
    pub done: u32,
    pub undone: u32,
}

// How long the lent slices are; `work` in words of 32 bits.
#[derive(Clone, Copy, Debug, PartialEq, Eq)]
pub struct Lengths {
    pub turns: usize,
    pub tiles: usize,
    pub work: usize,
}

impl Lengths {
    ghost use Rattle.codec.specs.Files.{short_for};
    ghost use Rattle.codec.specs.Read.{unless};

    // Whether as much is lent as a page of that many pixels wants. Divided, since 544 times any area might not fit.
    pub fn enough(self, area: usize) -> Result<(), Refusal>
        ensures { result ≡ unless (short_for self area) (Ok tt) }
    {
        if self.tiles / 544 < area {
            return Err(Refusal::Short(Lent::Tiles));
        }
        if self.work < area {
            return Err(Refusal::Short(Lent::Work));
        }
        Ok(())
    }
}

// A side of a page, if a page has such a one; a file has it at byte `at`.
fn side(pixels: usize, at: usize) -> Result<usize, Refusal>
    ensures is { result ≡ unless (side_refusal pixels at) (Ok pixels) }
    ensures sized { IfOk result (λ n. (1 ≤ n) × (n ≤ 4096)) }
{
    if !(1..=MOST).contains(&pixels) {
        return Err(Refusal::NoSize(at));
    }
    Ok(pixels)
}

// The size of a page, if a page has such a one.
pub fn page_size(wide: usize, high: usize) -> Result<Size, Refusal>
    ensures { MatchResult result (λ s. (size_refusal wide high ≡ None) × (s.wide ≡ wide) × (s.high ≡ high)) (λ why. size_refusal wide high ≡ Some why) }
{
    let wide = side(wide, 4)?;
    let high = side(high, 6)?;
    Ok(Size { wide, high })
}

// What stands against the edit that comes after k others, at its first byte.
// What stands against an edit is handed on as a value and looked at behind the kind; so it is an `Option`, as in the definitions.
pub fn against_edit(turns: usize, k: usize, at: usize) -> Option<Refusal>
    ensures { result ≡ against_edit turns k at }
{
    if k >= 65536 {
        return Some(Refusal::TooMany(at));
    }
    if turns < 8192 * (k + 1) {
        return Some(Refusal::Short(Lent::Turns));
    }
    None
}

// Whether the bytes begin with the letters of a file.
fn begins(bytes: &[u8]) -> Result<(), Refusal>
    ensures { Checks (letters bytes.now) result }
{
    if bytes.starts_with(b"PAGE") {
        Ok(())
    } else if b"PAGE".starts_with(bytes) {
        Err(Refusal::Ends(bytes.len()))
    } else {
        Err(Refusal::NotPage)
    }
}

// The side of the page that stands at `at`.
fn side_at(bytes: &[u8], at: usize) -> Result<usize, Refusal>
    requires { at < 65536 }
    ensures check { Checks (sized bytes.now at) result }
    ensures is { IfOk result (λ n. (n ≡ two_at bytes.now at) × (1 ≤ n) × (n ≤ 4096)) }
{
    need(bytes, at, 2)?;
    side(usize::from(two(bytes, at)), at)
}

// Where the edits start, or what is wrong before them.
fn head_end(bytes: &[u8], lent: Lengths) -> Result<usize, Refusal>
    ensures { result ≡ head_end bytes.now lent }
{
    begins(bytes)?;
    let wide = side_at(bytes, 4)?;
    let high = side_at(bytes, 6)?;
    lent.enough(wide * high)?;
    need(bytes, 0, 16)?;
    Ok(16)
}

fn four(bytes: &[u8], at: usize) -> u32
    requires { at + 3 < length bytes.now }
    ensures { result ≡ four_at bytes.now at }
{
    u32::from_le_bytes([bytes[at], bytes[at + 1], bytes[at + 2], bytes[at + 3]])
}

// Where `count` edits end that start at `start`, after `before` others of the file.
#[tactic(auto, using(crate::proofs::Rows::edits_step))]
fn edits_end(
    bytes: &[u8],
    turns: usize,
    before: u32,
    count: u32,
    start: usize,
) -> Result<usize, Refusal>
    ensures { result ≡ edits_end bytes.now turns before count start }
{
    let before = before as usize;
    let mut at = start;
    for k in before..before + count as usize {
        at = taken_end(bytes, at, against_edit(turns, k, at))?;
    }
    Ok(at)
}

// The file that the bytes are, or why they are none; `lent` is how long the slices are that it is read for.
#[tactic(auto, using(crate::proofs::Files::read_file_means))]
pub fn read_file(bytes: &[u8], lent: Lengths) -> Result<File, Refusal>
    ensures scans { result ≡ read_file bytes.now lent }
    ensures means { FileRead bytes.now lent result }
{
    let start = head_end(bytes, lent)?;
    let file = File {
        width: two(bytes, 4),
        height: two(bytes, 6),
        done: four(bytes, 8),
        undone: four(bytes, 12),
    };
    let middle = edits_end(bytes, lent.turns, 0, file.done, start)?;
    let end = edits_end(bytes, lent.turns, file.done, file.undone, middle)?;
    if end < bytes.len() {
        return Err(Refusal::GoesOn(end));
    }
    Ok(file)
}
