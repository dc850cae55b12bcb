// The plain engine as programs use it: it takes the turns of a script, and what it made is printed.
ghost use Rattle.std.specs.Prelude.{◌≡◌, ◌≤◌, ◌++◌, IfOk, OnOk};
ghost use Rattle.std.specs.List.{flat_map, All};
ghost use Rattle.codec.specs.Meaning.{Held};
ghost use Rattle.reference.specs.Lists.{meanings};
ghost use Rattle.reference.specs.Making.{seen_at};
ghost use Rattle.page.specs.Edits.{seen};
ghost use Rattle.words.specs.Printing.{printed};
ghost use Rattle.reference.specs.Turning.{Turns, page_of};
ghost use Rattle.reference.specs.Shown.{or_white, lent_for, edit_line, edits_text};

use crate::seeing::seen_pixel;
use crate::state::Engine;
use canvas::state::Canvas;
use codec::edits::Edit;
use codec::file::Lengths;
use codec::write::append_edit;
use pixel::{Pixel, WHITE};
use std::alloc::{AllocError, Global};
use words::printing::print;
use words::showing::{Format, Shows};
use words::taking::{Fault, Takes};
use words::turns::write_turn;

impl Takes for Engine {
    ghost steps = { λ s bs r t. Turns bs s t r };

    fn take(&mut self, bytes: &[u8]) -> Result<(), Fault> {
        self.turn(bytes)
    }
}

// A page that was made in lent bytes. It derives no more, since it holds a Canvas, which is neither compared nor printed.
#[derive(Clone, Copy)]
pub struct Made<'a> {
    pub canvas: &'a Canvas,
    pub tiles: &'a [u8],
}

impl Shows for Made<'_> {
    ghost seen = { λ m x y. or_white (seen_at m.canvas.now m.tiles.now x y) };

    fn pixel(&self, x: usize, y: usize) -> Pixel {
        seen_pixel(self.canvas, self.tiles, x, y).unwrap_or(WHITE)
    }
}

// How long the slices are that are lent for pages of up to `size` by `size`, with any number of edits that a file can have.
// It is a number and no Size, since it may be 0.
pub fn lent_for(size: usize) -> Lengths
    requires { size ≤ 4096 }
    ensures { result ≡ lent_for size }
{
    let work = size * size;
    Lengths {
        turns: 8192 * 65536,
        tiles: 544 * work,
        work,
    }
}

// Adds a line of words for each edit.
fn write_lines(
    heap: Global,
    edits: &[Edit],
    source: &[u8],
    out: &mut Vec<u8>,
) -> Result<(), AllocError>
    requires { All (Held source.now) edits.now }
    ensures { OnOk result (out.new.items ≡ out.old.items ++ flat_map edit_line (meanings source.now edits.now)) }
{
    for edit in edits {
        let mut turn = Vec::new(heap);
        append_edit(&mut turn, *edit, source)?;
        let line = write_turn(heap, turn.as_slice())?;
        out.extend_from_slice(line.as_slice())?;
        out.push(b'\n')?;
    }
    Ok(())
}

impl Engine {
    // What is printed of the page.
    pub fn print(&self, heap: Global, format: Format) -> Result<Vec<u8>, AllocError>
        ensures { IfOk result (λ out. out.items ≡ printed format self.now.size.wide self.now.size.high (seen (page_of self.now))) }
    {
        let mut tiles = vec![in heap; 0u8; 544 * self.size.area()]?;
        let Ok(canvas) = self.remake(tiles.as_mut_slice()) else {
            unreachable!()
        };
        let page = Made {
            canvas: &canvas,
            tiles: tiles.as_slice(),
        };
        print(heap, format, &page, self.size.wide, self.size.high)
    }

    // The done edits in words, one to a line, then `undone` alone on a line, and the undone ones.
    pub fn edits_text(&self, heap: Global) -> Result<Vec<u8>, AllocError>
        ensures { IfOk result (λ v. v.items ≡ edits_text self.now) }
    {
        let mut out = Vec::new(heap);
        let (done, undone) = self.edits.as_slice().split_at(self.done);
        let source = self.bytes.as_slice();
        write_lines(heap, done, source, &mut out)?;
        out.extend_from_slice(b"undone\n")?;
        write_lines(heap, undone, source, &mut out)?;
        Ok(out)
    }
}
