// Writing an edit: its head from the fields, then what the bytes that it was read from have of its points or numbers.
// Writing a file: its head, then its edits. All of it goes into lent bytes, or behind those of a `Vec`.
ghost use Rattle.std.specs.Prelude.{◌≡◌, ℕ, ◌+◌, ◌-◌, ◌*◌, ◌<◌, ◌≤◌, [], ◌∷◌, ◌++◌, map, length, is_ok, if◌then◌else◌, Ok, OnOk};
ghost use Rattle.codec.specs.Written.{written, two, four};
ghost use Rattle.codec.specs.Meaning.{edit_of, Held};
ghost use Rattle.codec.specs.Put.{put_at, filter_head, head_of, tail_of, file_listed, file_put, file_answer};
ghost use Rattle.codec.specs.Scan.{end_of, edit_at};
ghost use Rattle.codec.specs.Files.{file_head, all_written};
ghost use Rattle.codec.specs.Laws.{EditGood};
ghost use Rattle.std.specs.List.{All};

use crate::edits::{Edit, Filter, Lent, Rect, Refusal};
use crate::file::File;
use crate::kinds::Kind;
use crate::listing::Listing;
use crate::sinks::{Cursor, Sink};
use pixel::Pixel;
use std::alloc::AllocError;

fn rect_bytes(kind: u8, rect: Rect) -> [u8; 9]
    ensures { result ≡ kind ∷ (two rect.x ++ (two rect.y ++ (two rect.width ++ two rect.height))) }
{
    let (x, y) = (rect.x.to_le_bytes(), rect.y.to_le_bytes());
    let (width, height) = (rect.width.to_le_bytes(), rect.height.to_le_bytes());
    [
        kind, x[0], x[1], y[0], y[1], width[0], width[1], height[0], height[1],
    ]
}

fn stroke_bytes(kind: u8, p: Pixel, radius: u8, count: u16) -> [u8; 8]
    ensures { result ≡ kind ∷ (four p ++ (radius ∷ two count)) }
{
    let count = count.to_le_bytes();
    [
        kind, p.red, p.green, p.blue, p.alpha, radius, count[0], count[1],
    ]
}

// Puts the bytes of a filter's edit, but for a curve's numbers.
fn put_filter_head<S: Sink>(sink: &mut S, filter: Filter) -> Result<(), S::Error>
    requires { S.fits sink.old (length (filter_head filter)) }
    ensures { OnOk result (S.puts sink.old (filter_head filter) sink.new) }
{
    let kind = u8::from(Kind::ApplyFilter);
    let of = u8::from(filter.kind());
    match filter {
        Filter::BoxBlur(r) => sink.put(&[kind, of, r]),
        Filter::Invert | Filter::Curve { .. } | Filter::Edges => sink.put(&[kind, of]),
    }
}

// Puts the bytes of an edit up to its points or numbers.
fn put_edit_head<S: Sink>(sink: &mut S, edit: Edit) -> Result<(), S::Error>
    requires { S.fits sink.old (length (head_of edit)) }
    ensures { OnOk result (S.puts sink.old (head_of edit) sink.new) }
{
    let kind = u8::from(edit.kind());
    match edit {
        Edit::ChooseLayer(k) => sink.put(&[kind, k]),
        Edit::SetMode(m) => sink.put(&[kind, m]),
        Edit::SetOpacity(a) => {
            let a = a.to_le_bytes();
            sink.put(&[kind, a[0], a[1]])
        }
        Edit::SetVisible(b) => sink.put(&[kind, b as u8]),
        Edit::SelectRect(rect) => sink.put(&rect_bytes(kind, rect)),
        Edit::SelectSimilar { near, x, y } => {
            let (x, y) = (x.to_le_bytes(), y.to_le_bytes());
            sink.put(&[kind, near, x[0], x[1], y[0], y[1]])
        }
        Edit::Fill(p) => sink.put(&[kind, p.red, p.green, p.blue, p.alpha]),
        Edit::Stroke {
            pixel,
            radius,
            count,
            ..
        } => sink.put(&stroke_bytes(kind, pixel, radius, count)),
        Edit::ApplyFilter(filter) => put_filter_head(sink, filter),
        Edit::Paste { x, y } => {
            let (x, y) = (x.to_le_bytes(), y.to_le_bytes());
            sink.put(&[kind, x[0], x[1], y[0], y[1]])
        }
        Edit::AddLayer | Edit::DropLayer | Edit::RaiseLayer | Edit::MergeDown => sink.put(&[kind]),
        Edit::SelectAll | Edit::SelectInverse | Edit::Copy => sink.put(&[kind]),
    }
}

// The bytes of its points or numbers, where it was read from.
// An edit and its source are two parameters: edits stand in lists and slots without their bytes; a list with its bytes is a `Listing`.
fn tail(edit: Edit, source: &[u8]) -> &[u8]
    requires { Held source.now edit }
    ensures { result.now ≡ tail_of source.now edit }
{
    match edit {
        Edit::Stroke {
            pixel: _,
            radius: _,
            start,
            count,
        } => &source[start..start + 4 * usize::from(count)],
        Edit::ApplyFilter(Filter::Curve { start }) => &source[start..start + 256],
        _ => &[],
    }
}

// Puts the edit, read from `source`.
#[tactic(auto, using(crate::proofs::Writes::head_tail, crate::proofs::Writes::length_head))]
fn put_edit<S: Sink>(sink: &mut S, edit: Edit, source: &[u8]) -> Result<(), S::Error>
    requires held { Held source.now edit }
    requires room { S.fits sink.old (length (written (edit_of source.now edit))) }
    ensures { OnOk result (S.puts sink.old (written (edit_of source.now edit)) sink.new) }
{
    put_edit_head(sink, edit)?;
    sink.put(tail(edit, source))
}

// Puts the edits one after the other.
#[tactic(auto, using(crate::proofs::Writes::rows_more))]
fn put_edits<S: Sink>(sink: &mut S, edits: &[Edit], source: &[u8]) -> Result<(), S::Error>
    requires held { All (Held source.now) edits.now }
    requires room { S.fits sink.old (length (all_written (map (edit_of source.now) edits.now))) }
    ensures { OnOk result (S.puts sink.old (all_written (map (edit_of source.now) edits.now)) sink.new) }
{
    for edit in edits {
        put_edit(sink, *edit, source)?;
    }
    Ok(())
}

// What stands in a file before its edits.
fn head_bytes(file: File) -> [u8; 16]
    ensures { result ≡ file_head file.width file.height file.done file.undone }
{
    let (width, height) = (file.width.to_le_bytes(), file.height.to_le_bytes());
    let (done, undone) = (file.done.to_le_bytes(), file.undone.to_le_bytes());
    [
        b'P', b'A', b'G', b'E', width[0], width[1], height[0], height[1], done[0], done[1],
        done[2], done[3], undone[0], undone[1], undone[2], undone[3],
    ]
}

// Copies `piece` into `out` from `at` on, and says where it ends.
fn put(out: &mut [u8], at: usize, piece: &[u8]) -> usize
    requires { at + length piece.now ≤ length out.old }
    ensures after { out.new ≡ put_at out.old at piece.now }
    ensures end { result ≡ at + length piece.now }
{
    let mut cursor = Cursor { out, at };
    let Ok(()) = cursor.put(piece);
    cursor.at
}

// Writes the edit up to its points or numbers into `out` from `at` on, and says where it ends.
fn write_edit_head(out: &mut [u8], at: usize, edit: Edit) -> usize
    requires { at + length (head_of edit) ≤ length out.old }
    ensures after { out.new ≡ put_at out.old at (head_of edit) }
    ensures end { result ≡ at + length (head_of edit) }
{
    let mut cursor = Cursor { out, at };
    let Ok(()) = put_edit_head(&mut cursor, edit);
    cursor.at
}

// Writes the edit, read from `source`, into `out` from `at` on, and says where it ends.
pub fn write_edit(out: &mut [u8], at: usize, edit: Edit, source: &[u8]) -> usize
    requires held { Held source.now edit }
    requires fits { at + length (written (edit_of source.now edit)) ≤ length out.old }
    ensures after { out.new ≡ put_at out.old at (written (edit_of source.now edit)) }
    ensures end { result ≡ at + length (written (edit_of source.now edit)) }
{
    let then = write_edit_head(out, at, edit);
    put(out, then, tail(edit, source))
}

// Copies the edit that stands in `source` from `at` to `end` into `out` from `to` on, and says where it ends there.
#[tactic(auto, using(crate::proofs::Writes::within, crate::proofs::Writes::span))]
pub fn copy_edit(out: &mut [u8], to: usize, source: &[u8], at: usize, end: usize) -> usize
    requires stands { end_of source.now at ≡ Ok end }
    requires fits { to + (end - at) ≤ length out.old }
    ensures after { out.new ≡ put_at out.old to (written (edit_of source.now (edit_at source.now at))) }
    ensures end { result ≡ to + length (written (edit_of source.now (edit_at source.now at))) }
{
    put(out, to, &source[at..end])
}

// Writes what stands in a file before its edits.
pub fn write_head(out: &mut [u8], file: File) -> usize
    requires { 16 ≤ length out.old }
    ensures after { out.new ≡ put_at out.old 0 (file_head file.width file.height file.done file.undone) }
    ensures end { result ≡ 16 }
{
    put(out, 0, &head_bytes(file))
}

// Writes the edits one after the other, read from `source`, into `out` from `at` on, and says where they end.
fn write_edits(out: &mut [u8], at: usize, edits: &[Edit], source: &[u8]) -> usize
    requires held { All (Held source.now) edits.now }
    requires fits { at + length (all_written (map (edit_of source.now) edits.now)) ≤ length out.old }
    ensures after { out.new ≡ put_at out.old at (all_written (map (edit_of source.now) edits.now)) }
    ensures end { result ≡ at + length (all_written (map (edit_of source.now) edits.now)) }
{
    let mut cursor = Cursor { out, at };
    let Ok(()) = put_edits(&mut cursor, edits, source);
    cursor.at
}

// Writes the file of what is listed, and says how long it is.
pub fn write_file(out: &mut [u8], listing: Listing) -> Result<usize, Refusal>
    requires { All (EditGood listing.source.now) listing.edits.now }
    ensures after { out.new ≡ file_put out.old (file_listed listing.entry) listing.entry.edits.now }
    ensures answer { result ≡ file_answer out.old (file_listed listing.entry) listing.entry.edits.now }
{
    if out.len() < 16 + 8192 * listing.edits.len() {
        return Err(Refusal::Short(Lent::File));
    }
    let at = write_head(out, listing.head());
    Ok(write_edits(out, at, listing.edits, listing.source))
}

// Adds the edit, read from `source`. Without memory for all of it, a part of it may have been added.
pub fn append_edit(out: &mut Vec<u8>, edit: Edit, source: &[u8]) -> Result<(), AllocError>
    requires { Held source.now edit }
    ensures { OnOk result (out.new.items ≡ out.old.items ++ written (edit_of source.now edit)) }
{
    put_edit(out, edit, source)
}

// Adds what stands in a file before its edits, or nothing without memory for it.
// It goes over no `Sink`, whose `put` may add a part on an error.
pub fn append_head(out: &mut Vec<u8>, file: File) -> Result<(), AllocError>
    ensures { out.new.items ≡ (if is_ok result then out.old.items ++ file_head file.width file.height file.done file.undone else out.old.items) }
{
    out.extend_from_slice(&head_bytes(file))
}

// Adds the file of what is listed. Without memory for all of it, a part may have been added.
pub fn append_file(out: &mut Vec<u8>, listing: Listing) -> Result<(), AllocError>
    ensures { OnOk result (out.new.items ≡ out.old.items ++ file_listed listing.entry) }
{
    append_head(out, listing.head())?;
    put_edits(out, listing.edits, listing.source)
}
