// What a turn that is taken does: undo and redo make the page anew; a new edit is kept in its slot and applied.
ghost use Rattle.std.specs.Prelude.{◌≡◌, ℕ, ◌+◌, ◌*◌, ◌≤◌, length};
ghost use Rattle.page.specs.Edits.{Edit as Model};
ghost use Rattle.page.specs.History.{undo as model_undo, redo as model_redo, does};
ghost use Rattle.codec.specs.Laws.{EditBytes};
ghost use Rattle.history.specs.Moves.{Moved, Lends};

use crate::slots::{put_slot, remake};
use canvas::applying::apply;
use canvas::state::Canvas;
use codec::read::edit_at;
use tiles::rebuilding::rebuild_all;

// A page in its row of edits: what the done ones make of the blank page, and how many are done and undone.
#[derive(Drop)]
pub struct Timeline {
    pub canvas: Canvas,
    pub done: usize,
    pub undone: usize,
}

// undo and redo are not one function: with the numbers as parameters it would be as long, and say less of which turn it is.
// `Lends` stays a clause of each: the slices are lent to each call, and no value keeps them.
impl Timeline {
    // Takes back the last edit that is done, if there is one.
    pub fn undo(&mut self, turns: &[u8], tiles: &mut [u8])
        requires { Lends self.old turns.now tiles.old }
        ensures { Moved model_undo self.old turns.now tiles.old self.new turns.now tiles.new }
    {
        if self.done > 0 {
            self.done -= 1;
            self.undone += 1;
            self.canvas = remake(self.canvas.size, turns, self.done, tiles);
        }
    }

    // Does again the last edit that was undone, if there is one.
    pub fn redo(&mut self, turns: &[u8], tiles: &mut [u8])
        requires { Lends self.old turns.now tiles.old }
        ensures { Moved model_redo self.old turns.now tiles.old self.new turns.now tiles.new }
    {
        if self.undone > 0 {
            self.done += 1;
            self.undone -= 1;
            self.canvas = remake(self.canvas.size, turns, self.done, tiles);
        }
    }

    // Does a new edit, by its bytes, and forgets what was undone.
    pub fn do_edit(&mut self, turns: &mut [u8], tiles: &mut [u8], bytes: &[u8])
        requires { (Lends self.old turns.old tiles.old) × (((e : Model) × EditBytes bytes.now e)) }
        ensures { (e : Model) → EditBytes bytes.now e → Moved (does e) self.old turns.old tiles.old self.new turns.new tiles.new }
    {
        put_slot(turns, self.done, bytes);
        let (edit, _) = edit_at(turns, 8192 * self.done);
        apply(&mut self.canvas, tiles, edit, turns);
        rebuild_all(&self.canvas, tiles);
        self.done += 1;
        self.undone = 0;
    }
}
