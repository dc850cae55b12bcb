// Slots of 8,192 bytes, each with an edit: read, written, and the page made anew from them.
// Slots are read by number: an edit's `start` is a place in the whole slice.
ghost use Rattle.std.specs.Prelude.{◌≡◌, ◌+◌, ◌*◌, ◌≤◌, length};
ghost use Rattle.codec.specs.Laws.{EditGood};
ghost use Rattle.codec.specs.Meaning.{edit_of};
ghost use Rattle.canvas.specs.View.{Room};
ghost use Rattle.history.specs.Slots.{Slots, slot_edit, latest_in, Replayed, Remade, SlotPut};

use canvas::applying::apply;
use canvas::blanking::make_blank;
use canvas::state::Canvas;
use codec::edits::{Edit, NOTHING};
use codec::read::edit_at;
use pixel::runs::copy_bytes;
use pixel::sizes::Size;
use tiles::rebuilding::rebuild_all;

// The page that the edits in the first `done` slots make of the blank one.
// Not one function with reference's `replay`: the plain engine's is its own, so that the two engines can be held against one another.
fn replay(size: Size, turns: &[u8], done: usize, tiles: &mut [u8]) -> Canvas
    requires { (Room size tiles.old) × (Slots done turns.now) }
    ensures { Replayed size (latest_in turns.now done) tiles.old tiles.new result }
{
    let mut canvas = make_blank(size, tiles);
    for k in 0..done {
        let (edit, _) = edit_at(turns, 8192 * k);
        apply(&mut canvas, tiles, edit, turns);
    }
    canvas
}

// The same, and what is seen of it in the tiles, whatever they held.
pub fn remake(size: Size, turns: &[u8], done: usize, tiles: &mut [u8]) -> Canvas
    requires { (Room size tiles.old) × (Slots done turns.now) }
    ensures { Remade size (latest_in turns.now done) tiles.old tiles.new result }
{
    let canvas = replay(size, turns, done, tiles);
    rebuild_all(&canvas, tiles);
    canvas
}

// The edit in slot k; where none of a kind that there is stands there, one that changes nothing.
// No `Option`, since it cannot fail: a file is written with as many edits as there are slots.
pub fn slot_edit(turns: &[u8], k: usize) -> Edit
    requires { Slots k turns.now }
    ensures means { edit_of turns.now result ≡ slot_edit turns.now k }
    ensures good { EditGood turns.now result }
{
    let (edit, _) = edit_at(turns, 8192 * k);
    if edit.is_built() { edit } else { NOTHING }
}

// Puts an edit's bytes into slot k.
pub fn put_slot(turns: &mut [u8], k: usize, bytes: &[u8])
    requires { (8192 * k + length bytes.now ≤ length turns.old) × (length bytes.now ≤ 8192) }
    ensures { SlotPut bytes.now k turns.old turns.new }
{
    copy_bytes(turns, 8192 * k, bytes);
}
