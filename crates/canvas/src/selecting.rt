// Selections that are known from their numbers alone: all, a rectangle, the inverse. Only the selection's bytes are written.
ghost use Rattle.std.specs.Prelude.{◌+◌, ◌-◌, ◌*◌, ◌≤◌, length, slice_index};
ghost use Rattle.pixel.specs.Bytes.{BytesTo};
ghost use Rattle.page.specs.Selection.{mask_of};
ghost use Rattle.page.specs.Edits.{select_all, select_rect, select_inverse};
ghost use Rattle.canvas.specs.View.{Room, Reselected};
ghost use Rattle.canvas.specs.Rows.{in_span, in_rect, RowSpan, RowsTo};

use crate::state::Canvas;
use codec::edits::Rect;
use pixel::runs::set_bytes;
use pixel::sizes::Size;
use std::ops::Range;

// The columns of row j, of a page `wide` across, that lie in the rectangle.
fn columns_of(rect: Rect, wide: usize, j: usize) -> Range<usize>
    ensures { RowSpan rect wide j result.start result.end }
{
    let left = usize::from(rect.x);
    let top = usize::from(rect.y);
    if !(top..top + usize::from(rect.height)).contains(&j) {
        return 0..0;
    }
    left.min(wide)..wide.min(left + usize::from(rect.width))
}

// Selects these columns of a row and nothing else of it.
fn select_columns(tiles: &mut [u8], at: usize, wide: usize, columns: Range<usize>)
    requires { (columns.start ≤ columns.end) × ((columns.end ≤ wide) × (at + wide ≤ length tiles.old)) }
    ensures { BytesTo (λ c. mask_of (in_span columns.start columns.end c)) at wide tiles.old tiles.new }
{
    set_bytes(tiles, at, wide, 0);
    set_bytes(tiles, at + columns.start, columns.len(), 255);
}

// Selects the rectangle in the rows of a page of this size, from `at` on.
fn select_rows(tiles: &mut [u8], at: usize, size: Size, rect: Rect)
    requires { at + size.wide * size.high ≤ length tiles.old }
    ensures { RowsTo (λ i j. mask_of (in_rect rect i j)) at size.wide size.high tiles.old tiles.new }
{
    // Rows by their numbers: the library's chunks_exact_mut says nothing of what the whole slice ends as.
    for j in 0..size.high {
        let columns = columns_of(rect, size.wide, j);
        select_columns(tiles, at + j * size.wide, size.wide, columns);
    }
}

// What was selected no more, and all else.
fn invert_bytes(tiles: &mut [u8], at: usize, n: usize)
    requires { at + n ≤ length tiles.old }
    ensures { BytesTo (λ k. 255 - slice_index tiles.old (at + k)) at n tiles.old tiles.new }
{
    for byte in &mut tiles[at..at + n] {
        *byte = 255 - *byte;
    }
}

impl Canvas {
    pub fn select_all(&self, tiles: &mut [u8])
        requires { Room self.now.size tiles.old }
        ensures { Reselected self.now select_all tiles.old tiles.new }
    {
        let n = self.size.area();
        set_bytes(tiles, 516 * n, n, 255);
    }

    pub fn select_rect(&self, tiles: &mut [u8], rect: Rect)
        requires { Room self.now.size tiles.old }
        ensures { Reselected self.now (select_rect rect.x rect.y rect.width rect.height) tiles.old tiles.new }
    {
        let n = self.size.area();
        select_rows(tiles, 516 * n, self.size, rect);
    }

    pub fn select_inverse(&self, tiles: &mut [u8])
        requires { Room self.now.size tiles.old }
        ensures { Reselected self.now select_inverse tiles.old tiles.new }
    {
        let n = self.size.area();
        invert_bytes(tiles, 516 * n, n);
    }
}
