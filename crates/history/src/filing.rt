// The edits of the slots in a file, one after the other, and back.
ghost use Rattle.std.specs.Prelude.{◌≡◌, ℕ, ◌+◌, ◌*◌, ◌≤◌, List, length};
ghost use Rattle.page.specs.Edits.{Edit as Model};
ghost use Rattle.codec.specs.Files.{all_written};
ghost use Rattle.codec.specs.Put.{put_at};
ghost use Rattle.history.specs.Slots.{Slots, edits_in, RowStands};

use crate::slots::{put_slot, slot_edit};
use codec::read::edit_at;
use codec::write::write_edit;

// Writes the edits of the first `count` slots from `start` on, and says where they end.
// Slots by number, as everywhere: an edit's `start` is a place in the whole slice.
pub fn write_slots(out: &mut [u8], start: usize, turns: &[u8], count: usize) -> usize
    requires { (Slots count turns.now) × (start + 8192 * count ≤ length out.old) }
    ensures after { out.new ≡ put_at out.old start (all_written (edits_in turns.now 0 count)) }
    ensures end { result ≡ start + length (all_written (edits_in turns.now 0 count)) }
{
    let mut at = start;
    for k in 0..count {
        at = write_edit(out, at, slot_edit(turns, k), turns);
    }
    at
}

// Puts the edits that stand in a file from byte 16 on, `count` of them, into as many slots.
// No `chunks_exact_mut`: the library says nothing of what the whole slice then ends as.
pub fn read_slots(turns: &mut [u8], file: &[u8], count: usize)
    requires { (Slots count turns.old) × (((es : List Model) × (RowStands file.now 16 es × (length es ≡ count)))) }
    ensures long { length turns.new ≡ length turns.old }
    ensures row { (es : List Model) → RowStands file.now 16 es → length es ≡ count → edits_in turns.new 0 count ≡ es }
{
    let mut at = 16;
    for k in 0..count {
        let (_, end) = edit_at(file, at);
        put_slot(turns, k, &file[at..end]);
        at = end;
    }
}
