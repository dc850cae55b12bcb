// Turns: an edit, undo or redo, over a plain list of edits; and the page made anew.
ghost use Rattle.std.specs.Prelude.{◌≡◌, ◌+◌, ◌<◌, ◌≤◌, None, Ok, [], ◌∷◌, ◌++◌, take, is_ok, if◌then◌else◌, IfOk, vec_len};
ghost use Rattle.page.specs.Edits.{Edit as Model};
ghost use Rattle.codec.specs.Files.{size_refusal};
ghost use Rattle.codec.specs.Laws.{EditBytes, Taken};
ghost use Rattle.codec.specs.Meaning.{edit_of};
ghost use Rattle.reference.specs.Lists.{Good};
ghost use Rattle.reference.specs.Turning.{against, Begins, TurnedBy, Turns, Remade};

use crate::applying::replay;
use crate::state::Engine;
use canvas::state::Canvas;
use codec::edits::{Edit, Lent, Refusal, Turn};
use codec::file::page_size;
use codec::read::{edit_at, read_turn};
use std::alloc::{AllocError, Global};
use words::taking::Fault;

// What is against any turn: there are at most 65,536.
// What stands against a turn is handed to the reader as a value, and looked at behind the kind; so it is an `Option`, as in the definitions.
fn against_turn(taken: usize) -> Option<Refusal>
    ensures { result ≡ against taken }
{
    (taken >= 65536).then_some(Refusal::TooMany(0))
}

// Puts an edit behind the first `done`, and forgets those that were undone; those go only when the new one is in, so that none is lost for want of memory.
fn put_behind(edits: &mut Vec<Edit>, done: usize, edit: Edit) -> Result<(), AllocError>
    requires { done ≤ vec_len edits.old }
    ensures items { edits.new.items ≡ (if is_ok result then take done edits.old.items ++ edit ∷ [] else edits.old.items) }
    ensures len { vec_len edits.new ≡ (if is_ok result then done + 1 else vec_len edits.old) }
{
    edits.insert(done, edit)?;
    edits.truncate(done + 1);
    Ok(())
}

// Puts the bytes of a turn behind the others, and gives the edit that they are.
fn append_turn(bytes: &mut Vec<u8>, turn: &[u8]) -> Result<Edit, AllocError>
    ensures items { bytes.new.items ≡ (if is_ok result then bytes.old.items ++ turn.now else bytes.old.items) }
    ensures reads { IfOk result (λ e. (m : Model) → EditBytes turn.now m → Good bytes.new.items e × (edit_of bytes.new.items e ≡ m)) }
{
    let at = bytes.len();
    bytes.extend_from_slice(turn)?;
    let (edit, _) = edit_at(bytes.as_slice(), at);
    Ok(edit)
}

impl Engine {
    // A blank page, with no turns yet. Two numbers and no Size: this is the test of them.
    pub fn begin(heap: Global, wide: usize, high: usize) -> Result<Engine, Refusal>
        ensures { Begins (size_refusal wide high) wide high result }
    {
        let size = page_size(wide, high)?;
        Ok(Engine {
            size,
            bytes: Vec::new(heap),
            edits: Vec::new(heap),
            done: 0,
            taken: 0,
        })
    }

    // What a turn that is taken does. Undo and redo change nothing where there is no edit for them.
    fn step(&mut self, turn: Turn, bytes: &[u8]) -> Result<(), Fault>
        requires is { Taken bytes.now None turn }
        requires few { self.old.taken < 65536 }
        ensures { TurnedBy bytes.now (Ok turn) self.old self.new result }
    {
        match turn {
            Turn::Undo => self.done = self.done.saturating_sub(1),
            Turn::Redo => self.done = self.edits.len().min(self.done + 1),
            Turn::Does(_) => {
                let edit = append_turn(&mut self.bytes, bytes)?;
                put_behind(&mut self.edits, self.done, edit)?;
                self.done += 1;
            }
        }
        self.taken += 1;
        Ok(())
    }

    // One turn, by its bytes.
    pub fn turn(&mut self, bytes: &[u8]) -> Result<(), Fault>
        ensures { Turns bytes.now self.old self.new result }
    {
        let turn = read_turn(bytes, against_turn(self.taken))?;
        self.step(turn, bytes)
    }

    // The page of the done edits, made anew in the lent bytes.
    pub fn remake(&self, tiles: &mut [u8]) -> Result<Canvas, Refusal>
        ensures { Remade self.now tiles.old tiles.new result }
    {
        // not `Lengths::enough`, which asks for work too
        if tiles.len() < 544 * self.size.area() {
            return Err(Refusal::Short(Lent::Tiles));
        }
        let edits = self.edits.as_slice();
        Ok(replay(self.size, &edits[..self.done], self.bytes.as_slice(), tiles))
    }
}
