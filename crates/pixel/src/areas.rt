// Parts of a page, and the smallest one around the pixels in which two pictures differ.
// Rows are taken by their numbers: the rows of a part do not lie side by side in its picture.
ghost use Rattle.std.specs.Prelude.{◌≡◌, ℕ, ◌+◌, ◌*◌, ◌<◌, ◌≤◌, ◌⊎◌, ◌↔◌, IsTrue, MatchOption, length};
ghost use Rattle.pixel.specs.Areas.{join, Around, AreaIn};
ghost use Rattle.pixel.specs.Bytes.{pixel_at};
ghost use Rattle.pixel.specs.Pictures.{picture_in, RegionTo, Differs, FirstUnlike, LastUnlike, RowDiffers};

use crate::pixels::read_pixel;
use crate::runs::copy_pixels;

// The columns from `left` on and the rows from `top` on; none where it has no width.
#[derive(Clone, Copy, Debug, PartialEq, Eq)]
pub struct Area {
    pub left: usize,
    pub top: usize,
    pub wide: usize,
    pub high: usize,
}

pub const NOWHERE: Area = Area {
    left: 0,
    top: 0,
    wide: 0,
    high: 0,
};

// A part of one picture, copied into the same place of another. Two numbers and no Size, since a picture may be 0 across or down.
pub fn copy_region(bytes: &mut [u8], from: usize, to: usize, wide: usize, high: usize, area: Area)
    requires sized { (wide ≤ 4096) × ((high ≤ 4096) × (AreaIn wide high area)) }
    requires lies { (from + 4 * (wide * high) ≤ length bytes.old) × ((to + 4 * (wide * high) ≤ length bytes.old) × ((from + 4 * (wide * high) ≤ to) ⊎ (to + 4 * (wide * high) ≤ from))) }
    ensures { RegionTo (picture_in bytes.old from wide) to wide high area bytes.old bytes.new }
{
    for r in 0..area.high {
        let row = (area.top + r) * wide + area.left;
        copy_pixels(bytes, from + 4 * row, to + 4 * row, area.wide);
    }
}

// Whether the pixels at two places are the same. Pixels are told by their places, as wherever bytes are written.
fn is_same(bytes: &[u8], p: usize, q: usize) -> bool
    requires { (p + 4 ≤ length bytes.now) × (q + 4 ≤ length bytes.now) }
    ensures { IsTrue result ↔ (pixel_at bytes.now p ≡ pixel_at bytes.now q) }
{
    read_pixel(bytes, p) == read_pixel(bytes, q)
}

// The first of n places in which two rows of pixels differ, if there is one.
fn first_unlike(bytes: &[u8], at: usize, by: usize, n: usize) -> Option<usize>
    requires { (at + 4 * n ≤ length bytes.now) × (by + 4 * n ≤ length bytes.now) }
    ensures { MatchOption result (FirstUnlike bytes.now at by n n) (λ r. FirstUnlike bytes.now at by n r × (r < n)) }
{
    (0..n).find(|k| !is_same(bytes, at + 4 * *k, by + 4 * *k))
}

// One past the last, or 0.
fn last_unlike(bytes: &[u8], at: usize, by: usize, n: usize) -> usize
    requires { (at + 4 * n ≤ length bytes.now) × (by + 4 * n ≤ length bytes.now) }
    ensures { LastUnlike bytes.now at by n result }
{
    // A loop: `(0..n).rev().find(..)` was tried, and the library has no lemma for a range from its end.
    for k in (0..n).rev() {
        if !is_same(bytes, at + 4 * k, by + 4 * k) {
            return k + 1;
        }
    }
    0
}

// The smallest part around two.
pub fn joined(a: Area, b: Area) -> Area
    requires fits { (a.left + a.wide ≤ 4096) × ((a.top + a.high ≤ 4096) × ((b.left + b.wide ≤ 4096) × (b.top + b.high ≤ 4096))) }
    ensures { result ≡ join a b }
{
    if a.wide == 0 {
        return b;
    }
    if b.wide == 0 {
        return a;
    }
    let left = a.left.min(b.left);
    let top = a.top.min(b.top);
    Area {
        left,
        top,
        wide: (a.left + a.wide).max(b.left + b.wide) - left,
        high: (a.top + a.high).max(b.top + b.high) - top,
    }
}

// The places of row j, of the n from column `left` on, from the first in which two rows of pixels differ to the last; nowhere where they do not.
fn unlike_in_row(bytes: &[u8], at: usize, by: usize, left: usize, n: usize, j: usize) -> Area
    requires { (at + 4 * n ≤ length bytes.now) × ((by + 4 * n ≤ length bytes.now) × ((left + n ≤ 4096) × (j < 4096))) }
    ensures { RowDiffers bytes.now at by left n j result }
{
    let Some(first) = first_unlike(bytes, at, by, n) else {
        return NOWHERE;
    };
    let end = last_unlike(bytes, at, by, n);
    Area {
        left: left + first,
        top: j,
        wide: end - first,
        high: 1,
    }
}

// The smallest part around the pixels of an area in which two pictures differ. Two numbers and no Size, likewise.
pub fn differing(bytes: &[u8], at: usize, by: usize, wide: usize, high: usize, area: Area) -> Area
    requires sized { (wide ≤ 4096) × ((high ≤ 4096) × (AreaIn wide high area)) }
    requires lies { (at + 4 * (wide * high) ≤ length bytes.now) × (by + 4 * (wide * high) ≤ length bytes.now) }
    ensures around { Around (Differs bytes.now at by wide area) result }
    ensures within { AreaIn wide high result }
{
    let mut found = NOWHERE;
    for r in 0..area.high {
        let j = area.top + r;
        let row = j * wide + area.left;
        let here = unlike_in_row(bytes, at + 4 * row, by + 4 * row, area.left, area.wide, j);
        found = joined(found, here);
    }
    found
}
