// What is seen, read from the tiles.
ghost use Rattle.std.specs.Prelude.{◌≡◌};
ghost use Rattle.tiles.specs.Places.{shown_at};

use crate::layout::{SIDE, Tile};
use canvas::state::Canvas;
use pixel::Pixel;
use pixel::pixels::read_pixel;

// The pixel kept for column x and row y; none beyond the page, or where the bytes are too few for it.
pub fn show(canvas: &Canvas, tiles: &[u8], x: usize, y: usize) -> Option<Pixel>
    ensures { result ≡ shown_at canvas.now tiles.now x y }
{
    if !canvas.shows(tiles.len(), x, y) {
        return None;
    }
    let tile = Tile::new(canvas, x / SIDE, y / SIDE);
    let at = tile.at + 4 * (y % SIDE * tile.area.wide + x % SIDE);
    Some(read_pixel(tiles, at))
}
