// The tiles that a part of the page meets, built anew.
ghost use Rattle.pixel.specs.Areas.{AreaIn};
ghost use Rattle.page.specs.Edits.{Page};
ghost use Rattle.canvas.specs.View.{Room, view};
ghost use Rattle.tiles.specs.Places.{BuiltWhere, Meets, Shown, OnlyIn, AllBuilt};

use crate::layout::SIDE;
use crate::tiling::build_tile;
use canvas::state::Canvas;
use pixel::areas::Area;

// The tiles that the area meets, and no others: if the tiles showed the page as it was before an edit that changed what is seen in the area only, they now show the page as it is.
pub fn rebuild(canvas: &Canvas, tiles: &mut [u8], area: Area)
    requires { (Room canvas.now.size tiles.old) × (AreaIn canvas.now.size.wide canvas.now.size.high area) }
    ensures built { BuiltWhere (Meets area) canvas.now tiles.old tiles.new }
    ensures shown { (before : Page) → Shown canvas.now before tiles.old → OnlyIn area before (view canvas.now tiles.old) → Shown canvas.now (view canvas.now tiles.new) tiles.new }
{
    // Tiles by their columns and rows, which say where they lie; they are items of no slice.
    for ty in area.top / SIDE..(area.top + area.high).div_ceil(SIDE) {
        for tx in area.left / SIDE..(area.left + area.wide).div_ceil(SIDE) {
            build_tile(canvas, tiles, tx, ty);
        }
    }
}

// Every tile: they show the page, whatever they held before.
pub fn rebuild_all(canvas: &Canvas, tiles: &mut [u8])
    requires { Room canvas.now.size tiles.old }
    ensures { AllBuilt canvas.now tiles.old tiles.new }
{
    let whole = Area {
        left: 0,
        top: 0,
        wide: canvas.size.wide,
        high: canvas.size.high,
    };
    rebuild(canvas, tiles, whole);
}
