// A whole run in one call: the theorem about runs as the contract of running code.
ghost use Rattle.std.specs.Prelude.{ℕ, ◌<◌, length};
ghost use Rattle.editor.specs.Script.{Cut, PlayEnds};

use crate::editing::{begin, show, turn};
use codec::edits::Refusal;
use codec::kinds::{REDO, UNDO};
use codec::read::edit_end;
use pixel::Pixel;

// Where the turn ends that starts at `at`, or the script where none does.
fn turn_end(script: &[u8], at: usize) -> usize
    requires { at < length script.now }
    ensures { Cut script.now at result }
{
    if script[at] == UNDO || script[at] == REDO {
        return at + 1;
    }
    edit_end(script, at).unwrap_or(script.len())
}

// Begins, takes the turns that stand one after the other in the script, and says what is seen at a pixel.
// Counted by a place, and not by what is left of the script: the contract says at which place a turn was refused.
pub fn play(
    width: usize,
    height: usize,
    turns: &mut [u8],
    tiles: &mut [u8],
    work: &mut [u32],
    script: &[u8],
    x: usize,
    y: usize,
) -> Result<Option<Pixel>, Refusal>
    ensures { PlayEnds width height x y script.now turns.old tiles.old work.old turns.new tiles.new work.new result }
{
    let mut editor = begin(width, height, turns, tiles, work)?;
    let mut at = 0;
    while at < script.len() {
        let end = turn_end(script, at);
        turn(&mut editor, turns, tiles, work, &script[at..end])?;
        at = end;
    }
    Ok(show(&editor, tiles, x, y))
}
