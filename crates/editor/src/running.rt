// A whole row of turns, as the lines of a script say them.
ghost use Rattle.std.specs.Prelude.{IfOk, string_bytes, OnOk};
ghost use Rattle.words.specs.Script.{lines_of, Plays};
ghost use Rattle.editor.specs.Desks.{desk_of, DeskSteps};
ghost use Rattle.editor.specs.Row.{RunsRow};

use crate::desk::Desk;
use std::alloc::{AllocError, Global};
use words::script::play;

// Takes the turns of all lines; false where one was not taken, and `messages` then says which, and why.
// Where the desk came about by some turns, it then shows the page of those and of the row's turns that were taken.
pub fn run(
    heap: Global,
    desk: &mut Desk,
    script: &[u8],
    messages: &mut String,
) -> Result<bool, AllocError>
    ensures played { IfOk result (λ ok. Plays DeskSteps 1 (lines_of script.now) desk.old desk.new (string_bytes messages.old) (string_bytes messages.new) ok) }
    ensures shown { OnOk result (RunsRow script.now (desk_of desk.old) (desk_of desk.new)) }
{
    let all = play(heap, desk, script, messages)?;
    Ok(all)
}
