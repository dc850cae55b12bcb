// A list of edits applied from the blank page on.
ghost use Rattle.std.specs.Prelude.{◌≤◌, ◌*◌, length};
ghost use Rattle.std.specs.List.{All};
ghost use Rattle.canvas.specs.Applying.{Built};
ghost use Rattle.canvas.specs.View.{Room};
ghost use Rattle.reference.specs.Lists.{meanings};
ghost use Rattle.reference.specs.Making.{Replayed};

use canvas::applying::apply;
use canvas::blanking::make_blank;
use canvas::state::Canvas;
use codec::edits::Edit;
use pixel::sizes::Size;

// The page that a list of edits makes of the blank one.
pub fn replay(size: Size, edits: &[Edit], source: &[u8], tiles: &mut [u8]) -> Canvas
    requires { Room size tiles.old × (All (Built source.now) edits.now) }
    ensures { Replayed size (meanings source.now edits.now) tiles.old tiles.new result }
{
    let mut canvas = make_blank(size, tiles);
    for edit in edits {
        apply(&mut canvas, tiles, *edit, source);
    }
    canvas
}
