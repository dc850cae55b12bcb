// A desk: the editor with memory of its own, as programs use it.
ghost use Rattle.std.specs.Prelude.{◌≡◌, ℕ, vec_items};
ghost use Rattle.editor.specs.Desks.{desk_of, DeskSteps, seen_of};

use crate::editing::{show, turn};
use crate::state::Editor;
use pixel::{Pixel, WHITE};
use words::showing::Shows;
use words::taking::{Fault, Takes};

// Memory that is lent to the editor.
#[derive(Debug, Drop)]
pub struct Memory {
    pub turns: Vec<u8>,
    pub tiles: Vec<u8>,
    pub work: Vec<u32>,
}

#[derive(Drop)]
pub struct Desk {
    pub editor: Editor,
    pub memory: Memory,
}

impl Takes for Desk {
    ghost steps = { DeskSteps };

    fn take(&mut self, bytes: &[u8]) -> Result<(), Fault> {
        turn(
            &mut self.editor,
            self.memory.turns.as_mut_slice(),
            self.memory.tiles.as_mut_slice(),
            self.memory.work.as_mut_slice(),
            bytes,
        )?;
        Ok(())
    }
}

impl Shows for Desk {
    ghost seen = { seen_of };

    fn pixel(&self, x: usize, y: usize) -> Pixel {
        show(&self.editor, self.memory.tiles.as_slice(), x, y).unwrap_or(WHITE)
    }
}
