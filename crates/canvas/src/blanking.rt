// The blank page: one clear layer, everything selected, a clear clipboard.
ghost use Rattle.canvas.specs.View.{Room, FreshCanvas, BlankMade};

use crate::state::{Canvas, Layer};
use pixel::CLEAR;
use pixel::runs::{set_bytes, set_pixels};
use pixel::sizes::Size;
use std::array;

// A canvas of one layer; entry k has plane k.
fn new_canvas(size: Size) -> Canvas
    ensures { FreshCanvas size result }
{
    Canvas {
        size,
        layers: array::from_fn(|k| Layer::fresh(k as u8)),
        count: 1,
        active: 0,
    }
}

// The blank page, whatever the memory held.
pub fn make_blank(size: Size, tiles: &mut [u8]) -> Canvas
    requires { Room size tiles.old }
    ensures { BlankMade size tiles.old tiles.new result }
{
    let n = size.area();
    set_pixels(tiles, 0, n, CLEAR);
    set_bytes(tiles, 516 * n, n, 255);
    set_pixels(tiles, 517 * n, n, CLEAR);
    new_canvas(size)
}
