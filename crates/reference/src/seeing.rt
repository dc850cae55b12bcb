// What is seen at a pixel, worked out when it is asked for: the visible layers on white, from below.
ghost use Rattle.std.specs.Prelude.{◌≡◌};
ghost use Rattle.reference.specs.Making.{seen_at};

use canvas::state::Canvas;
use pixel::pixels::{lay_pixel, read_pixel};
use pixel::{Pixel, WHITE};

// What is seen at column x and row y; none beyond the page, or where the bytes are too few for it.
pub fn seen_pixel(canvas: &Canvas, tiles: &[u8], x: usize, y: usize) -> Option<Pixel>
    ensures { result ≡ seen_at canvas.now tiles.now x y }
{
    if !canvas.shows(tiles.len(), x, y) {
        return None;
    }
    let mut seen = WHITE;
    for layer in &canvas.layers[..canvas.count] {
        if layer.visible {
            let at = canvas.start_of(*layer) + 4 * (y * canvas.size.wide + x);
            seen = lay_pixel(layer.mode, layer.opacity, read_pixel(tiles, at), seen);
        }
    }
    Some(seen)
}
