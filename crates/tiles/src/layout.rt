// Where the tiles of a page lie.
ghost use Rattle.std.specs.Prelude.{◌≡◌, ◌+◌, ◌*◌, ◌<◌, ◌≤◌};
ghost use Rattle.pixel.specs.Areas.{AreaIn};
ghost use Rattle.tiles.specs.Places.{tile_of, begins};

use canvas::state::Canvas;
use pixel::areas::Area;

// How many pixels a tile has across and down, but at the right and lower edge of the page, where it may have fewer.
pub const SIDE: usize = 32;

// A tile: the part of a canvas' page that it shows, and where its pixels begin in the lent memory.
// The bytes are lent to each call, as beside Canvas; so each call says that the tile lies in them.
// A tile is only copied: it holds a Canvas, which is neither compared nor printed.
#[derive(Clone, Copy)]
pub(crate) struct Tile<'a> {
    pub canvas: &'a Canvas,
    pub area: Area,
    pub at: usize,
    ghost inside: { AreaIn canvas.now.size.wide canvas.now.size.high area },
    ghost placed: { at ≡ begins canvas.now.size.wide canvas.now.size.high area },
}

impl<'a> Tile<'a> {
    // Tile (tx, ty) of a page. What is seen begins behind the planes, at 512 n in a page of n pixels.
    pub fn new(canvas: &'a Canvas, tx: usize, ty: usize) -> Tile<'a>
        requires { (32 * tx < canvas.now.size.wide) × (32 * ty < canvas.now.size.high) }
        ensures canvas { result.canvas.now ≡ canvas.now }
        ensures area { result.area ≡ tile_of canvas.now.size.wide canvas.now.size.high tx ty }
    {
        let size = canvas.size;
        let left = SIDE * tx;
        let top = SIDE * ty;
        let wide = SIDE.min(size.wide - left);
        let high = SIDE.min(size.high - top);
        Tile {
            canvas,
            area: Area {
                left,
                top,
                wide,
                high,
            },
            at: 512 * size.area() + 4 * (top * size.wide + left * high),
        }
    }
}
