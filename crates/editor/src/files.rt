// write and read: the editor's page and history in a file, and back.
ghost use Rattle.std.specs.Prelude.{◌≡◌, ℕ, length};
ghost use Rattle.codec.specs.Files.{read_file};
ghost use Rattle.editor.specs.Promises.{write_refusal, WriteEnds, lengths, ReadEnds};

use crate::editing::lengths;
use crate::state::Editor;
use codec::edits::{Lent, Refusal};
use codec::file::{File, read_file};
use codec::write::write_head;
use history::filing::{read_slots, write_slots};
use history::moves::Timeline;
use history::slots::remake;
use pixel::sizes::Size;

// Writes the file, and says how long it is; the rest of the slice stays.
pub fn write(editor: &Editor, turns: &[u8], file: &mut [u8]) -> Result<usize, Refusal>
    ensures { WriteEnds (write_refusal editor.now (length turns.now) (length file.old)) editor.now turns.now file.old file.new result }
{
    let count = editor.timeline.done + editor.timeline.undone;
    if turns.len() < 8192 * count {
        return Err(Refusal::Short(Lent::Turns));
    }
    if file.len() < 16 + 8192 * count {
        return Err(Refusal::Short(Lent::File));
    }
    let head = File {
        width: editor.timeline.canvas.size.wide as u16,
        height: editor.timeline.canvas.size.high as u16,
        done: editor.timeline.done as u32,
        undone: editor.timeline.undone as u32,
    };
    let start = write_head(file, head);
    Ok(write_slots(file, start, turns, count))
}

// Reads a file, whatever the lent memory held; a refused one leaves it as it was.
pub fn read(
    file: &[u8],
    turns: &mut [u8],
    tiles: &mut [u8],
    work: &mut [u32],
) -> Result<Editor, Refusal>
    ensures { ReadEnds file.now (read_file file.now (lengths turns.old tiles.old work.old)) turns.old tiles.old work.old turns.new tiles.new work.new result }
{
    let head = read_file(file, lengths(turns, tiles, work))?;
    let done = head.done as usize;
    let undone = head.undone as usize;
    read_slots(turns, file, done + undone);
    let size = Size {
        wide: usize::from(head.width),
        high: usize::from(head.height),
    };
    let canvas = remake(size, turns, done, tiles);
    let timeline = Timeline {
        canvas,
        done,
        undone,
    };
    Ok(Editor {
        timeline,
        taken: done + undone,
    })
}
