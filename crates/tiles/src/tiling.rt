// One tile, built in place.
ghost use Rattle.std.specs.Prelude.{◌*◌, ◌<◌};
ghost use Rattle.canvas.specs.View.{Room};
ghost use Rattle.tiles.specs.Places.{tile_of, TileBuilt};

use crate::layout::Tile;
use canvas::state::Canvas;

// Tile (tx, ty): what is seen of that part of the page. Every other byte stays.
pub fn build_tile(canvas: &Canvas, tiles: &mut [u8], tx: usize, ty: usize)
    requires { (Room canvas.now.size tiles.old) × ((32 * tx < canvas.now.size.wide) × (32 * ty < canvas.now.size.high)) }
    ensures { TileBuilt canvas.now (tile_of canvas.now.size.wide canvas.now.size.high tx ty) tiles.old tiles.new }
{
    Tile::new(canvas, tx, ty).build(tiles);
}
