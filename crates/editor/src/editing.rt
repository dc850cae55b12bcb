// begin, turn and show. None has a `requires`: what cannot be done is refused, and all is then left as it was.
// The lent slices are separate parameters: the editor allocates nothing, and the signatures of begin, turn, show, write and read are fixed.
ghost use Rattle.std.specs.Prelude.{◌≡◌, ℕ, length, None};
ghost use Rattle.codec.specs.Laws.{Taken};
ghost use Rattle.codec.specs.Meaning.{turn_of};
ghost use Rattle.codec.specs.Read.{read_turn};
ghost use Rattle.tiles.specs.Places.{shown_at};
ghost use Rattle.history.specs.Moves.{Moved, Lends};
ghost use Rattle.editor.specs.Promises.{begin_refusal, BeginEnds, lengths, against, TurnEnds};

use crate::state::Editor;
use codec::edits::{Refusal, Turn};
use codec::file::{Lengths, against_edit, page_size};
use codec::read::read_turn;
use history::moves::Timeline;
use history::slots::remake;
use pixel::Pixel;

// How long the lent slices are.
pub(crate) fn lengths(turns: &[u8], tiles: &[u8], work: &[u32]) -> Lengths
    ensures { result ≡ lengths turns.now tiles.now work.now }
{
    Lengths {
        turns: turns.len(),
        tiles: tiles.len(),
        work: work.len(),
    }
}

// What is against any turn at its first byte, if anything.
// What stands against a turn is handed to the reader as a value, and looked at behind the kind; so it is an `Option`, as in the definitions.
fn against_turn(editor: &Editor, lent: Lengths) -> Option<Refusal>
    ensures { result ≡ against editor.now lent.turns lent.tiles lent.work }
{
    let enough = lent.enough(editor.timeline.canvas.size.area());
    against_edit(lent.turns, editor.taken, 0).or(enough.err())
}

// A blank page. Two numbers and no Size: this is the test of them.
pub fn begin(
    width: usize,
    height: usize,
    turns: &mut [u8],
    tiles: &mut [u8],
    work: &mut [u32],
) -> Result<Editor, Refusal>
    ensures { BeginEnds (begin_refusal width height (length tiles.old) (length work.old)) width height turns.old tiles.old work.old turns.new tiles.new work.new result }
{
    let size = page_size(width, height)?;
    lengths(turns, tiles, work).enough(size.area())?;
    let canvas = remake(size, turns, 0, tiles);
    let timeline = Timeline {
        canvas,
        done: 0,
        undone: 0,
    };
    Ok(Editor { timeline, taken: 0 })
}

// What a turn that is taken does.
fn step(timeline: &mut Timeline, turn: Turn, turns: &mut [u8], tiles: &mut [u8], bytes: &[u8])
    requires { (Lends timeline.old turns.old tiles.old) × (Taken bytes.now None turn) }
    ensures { Moved (turn_of bytes.now turn) timeline.old turns.old tiles.old timeline.new turns.new tiles.new }
{
    match turn {
        Turn::Undo => timeline.undo(turns, tiles),
        Turn::Redo => timeline.redo(turns, tiles),
        Turn::Does(_) => timeline.do_edit(turns, tiles, bytes),
    }
}

// One turn: an edit, undo or redo, by its bytes.
pub fn turn(
    editor: &mut Editor,
    turns: &mut [u8],
    tiles: &mut [u8],
    work: &mut [u32],
    bytes: &[u8],
) -> Result<(), Refusal>
    ensures { TurnEnds bytes.now (read_turn bytes.now (against editor.old (length turns.old) (length tiles.old) (length work.old))) editor.old turns.old tiles.old work.old editor.new turns.new tiles.new work.new result }
{
    let against = against_turn(editor, lengths(turns, tiles, work));
    let turn = read_turn(bytes, against)?;
    step(&mut editor.timeline, turn, turns, tiles, bytes);
    editor.taken += 1;
    Ok(())
}

// What is seen at a pixel.
pub fn show(editor: &Editor, tiles: &[u8], x: usize, y: usize) -> Option<Pixel>
    ensures { result ≡ shown_at editor.now.timeline.canvas tiles.now x y }
{
    tiles::showing::show(&editor.timeline.canvas, tiles, x, y)
}
