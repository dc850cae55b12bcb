// Reading a turn: first where it ends, or why it is refused; then what it is.
// Bytes and a place stay two parameters: a refusal names a place, and an edit keeps one, so that a pair would be taken apart at once.
ghost use Rattle.std.specs.Prelude.{◌≡◌, ℕ, ◌+◌, ◌*◌, ◌<◌, ◌≤◌, length, slice_index};
ghost use Rattle.codec.specs.Meaning.{two_at};
ghost use Rattle.codec.specs.Scan.{Needs, end_of, stroke_end, filter_end, flag_end, filter_at, edit_at, Headed};
ghost use Rattle.codec.specs.Read.{taken_end, whole_turn, unless, read_turn, edit_and_end};
ghost use Rattle.codec.specs.Laws.{TurnRead, EditGood};

use crate::edits::{Edit, Filter, NOTHING, Rect, Refusal, Turn};
use crate::kinds::{FilterKind, Kind, REDO, UNDO, is_built};
use pixel::pixels::read_pixel;

// There are `n` bytes from `at` on, or the bytes end before that.
pub(crate) fn need(bytes: &[u8], at: usize, n: usize) -> Result<(), Refusal>
    ensures { Needs bytes.now at n result }
{
    if bytes.len() < at || bytes.len() - at < n {
        return Err(Refusal::Ends(bytes.len()));
    }
    Ok(())
}

pub(crate) fn two(bytes: &[u8], at: usize) -> u16
    requires { at + 1 < length bytes.now }
    ensures { result ≡ two_at bytes.now at }
{
    u16::from_le_bytes([bytes[at], bytes[at + 1]])
}

fn stroke_end(bytes: &[u8], at: usize) -> Result<usize, Refusal>
    requires { at + 8 ≤ length bytes.now }
    ensures { result ≡ stroke_end bytes.now at }
{
    let count = usize::from(two(bytes, at + 6));
    if count > 1024 {
        return Err(Refusal::ManyPoints(at + 6));
    }
    need(bytes, at, 8 + 4 * count)?;
    Ok(at + (8 + 4 * count))
}

fn filter_end(bytes: &[u8], at: usize) -> Result<usize, Refusal>
    requires { at + 2 ≤ length bytes.now }
    ensures { result ≡ filter_end bytes.now at }
{
    let Ok(kind) = FilterKind::try_from(bytes[at + 1]) else {
        return Err(Refusal::NoFilter(at + 1));
    };
    let size = match kind {
        FilterKind::Invert | FilterKind::Edges => 2,
        FilterKind::BoxBlur => 3,
        FilterKind::Curve => 258,
    };
    need(bytes, at, size)?;
    if kind == FilterKind::BoxBlur && bytes[at + 2] > 64 {
        return Err(Refusal::WideBlur(at + 2));
    }
    Ok(at + size)
}

fn flag_end(bytes: &[u8], at: usize) -> Result<usize, Refusal>
    requires { at + 2 ≤ length bytes.now }
    ensures { result ≡ flag_end bytes.now at }
{
    if bytes[at + 1] > 1 {
        return Err(Refusal::NoFlag(at + 1));
    }
    Ok(at + 2)
}

// Where the edit ends that starts at `at`, of any kind, or why there is none.
// In line, since files are read edit by edit: as a call of its own it took half as long again.
#[inline(always)]
pub fn edit_end(bytes: &[u8], at: usize) -> Result<usize, Refusal>
    ensures { result ≡ end_of bytes.now at }
{
    need(bytes, at, 1)?;
    let Ok(kind) = Kind::try_from(bytes[at]) else {
        return Err(Refusal::NoKind(at));
    };
    let head = kind.head();
    need(bytes, at, head)?;
    match kind {
        Kind::SetVisible => flag_end(bytes, at),
        Kind::Stroke => stroke_end(bytes, at),
        Kind::ApplyFilter => filter_end(bytes, at),
        _ => Ok(at + head),
    }
}

fn filter_in(bytes: &[u8], at: usize) -> Filter
    requires { (at + 1 < length bytes.now) × (slice_index bytes.now (at + 1) ≡ 2 → at + 3 ≤ length bytes.now) }
    ensures { result ≡ filter_at bytes.now at }
{
    match FilterKind::try_from(bytes[at + 1]) {
        Ok(FilterKind::Invert) => Filter::Invert,
        Ok(FilterKind::Curve) => Filter::Curve { start: at + 2 },
        Ok(FilterKind::BoxBlur) => Filter::BoxBlur(bytes[at + 2]),
        Ok(FilterKind::Edges) | Err(_) => Filter::Edges,
    }
}

// The edit that starts at `at`, where `edit_end` found one.
fn edit_in(bytes: &[u8], at: usize) -> Edit
    requires { Headed bytes.now at }
    ensures { result ≡ edit_at bytes.now at }
{
    let Ok(kind) = Kind::try_from(bytes[at]) else {
        unreachable!()
    };
    match kind {
        Kind::AddLayer => Edit::AddLayer,
        Kind::DropLayer => Edit::DropLayer,
        Kind::ChooseLayer => Edit::ChooseLayer(bytes[at + 1]),
        Kind::RaiseLayer => Edit::RaiseLayer,
        Kind::SetMode => Edit::SetMode(bytes[at + 1]),
        Kind::SetOpacity => Edit::SetOpacity(two(bytes, at + 1)),
        Kind::SetVisible => Edit::SetVisible(bytes[at + 1] == 1),
        Kind::MergeDown => Edit::MergeDown,
        Kind::SelectAll => Edit::SelectAll,
        Kind::SelectRect => Edit::SelectRect(Rect {
            x: two(bytes, at + 1),
            y: two(bytes, at + 3),
            width: two(bytes, at + 5),
            height: two(bytes, at + 7),
        }),
        Kind::SelectSimilar => Edit::SelectSimilar {
            near: bytes[at + 1],
            x: two(bytes, at + 2),
            y: two(bytes, at + 4),
        },
        Kind::SelectInverse => Edit::SelectInverse,
        Kind::Fill => Edit::Fill(read_pixel(bytes, at + 1)),
        Kind::Stroke => Edit::Stroke {
            pixel: read_pixel(bytes, at + 1),
            radius: bytes[at + 5],
            start: at + 8,
            count: two(bytes, at + 6),
        },
        Kind::ApplyFilter => Edit::ApplyFilter(filter_in(bytes, at)),
        Kind::Copy => Edit::Copy,
        Kind::Paste => Edit::Paste {
            x: two(bytes, at + 1),
            y: two(bytes, at + 3),
        },
    }
}

// The edit that starts at `at`, and where it ends; where none does, one that changes nothing, and `at`.
// No `Option`: callers read edits that were checked before, and could do nothing with a None.
pub fn edit_at(bytes: &[u8], at: usize) -> (Edit, usize)
    ensures is { result ≡ edit_and_end bytes.now at }
    ensures good { EditGood bytes.now result.0 }
{
    match edit_end(bytes, at) {
        Ok(end) => (edit_in(bytes, at), end),
        Err(_) => (NOTHING, at),
    }
}

// Where the edit ends that starts at `at`, of a kind that is built; `against` is what stands against any edit there.
pub(crate) fn taken_end(bytes: &[u8], at: usize, against: Option<Refusal>) -> Result<usize, Refusal>
    ensures { result ≡ taken_end bytes.now at against }
{
    need(bytes, at, 1)?;
    if !is_built(bytes[at]) {
        return Err(Refusal::NoKind(at));
    }
    if let Some(why) = against {
        return Err(why);
    }
    edit_end(bytes, at)
}

// The turn, where it ends with the bytes.
fn whole(bytes: &[u8], turn: Turn, end: usize) -> Result<Turn, Refusal>
    ensures { result ≡ whole_turn bytes.now turn end }
{
    if end < bytes.len() {
        Err(Refusal::GoesOn(end))
    } else {
        Ok(turn)
    }
}

// The turn, of one byte.
fn single(bytes: &[u8], turn: Turn, against: Option<Refusal>) -> Result<Turn, Refusal>
    ensures { result ≡ unless against (whole_turn bytes.now turn 1) }
{
    if let Some(why) = against {
        return Err(why);
    }
    whole(bytes, turn, 1)
}

// The turn that the bytes are, or why they are none; `against` is what stands against any turn at its first byte.
// What stands against an edit is handed on as a value and looked at behind the kind; so it is an `Option`, as in the definitions.
#[tactic(auto, using(crate::proofs::Means::read_turn_means))]
pub fn read_turn(bytes: &[u8], against: Option<Refusal>) -> Result<Turn, Refusal>
    ensures scans { result ≡ read_turn bytes.now against }
    ensures means { TurnRead bytes.now against result }
{
    match bytes {
        [] => Err(Refusal::Ends(0)),
        [UNDO, ..] => single(bytes, Turn::Undo, against),
        [REDO, ..] => single(bytes, Turn::Redo, against),
        _ => {
            let end = taken_end(bytes, 0, against)?;
            whole(bytes, Turn::Does(edit_in(bytes, 0)), end)
        }
    }
}
