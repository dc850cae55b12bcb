// A page's size and its edits, as a file lists them.
ghost use Rattle.std.specs.Prelude.{◌≡◌, ◌≤◌, length};
ghost use Rattle.std.specs.List.{All};
ghost use Rattle.std.proofs.Props.{props};
ghost use Rattle.codec.specs.Meaning.{Held, held_prop};

use crate::edits::Edit;
use crate::file::File;

// The first `done` edits are done, the others undone; the points and numbers of all of them stand in `source`.
// No more is derived, since nothing compares or prints a listing.
#[derive(Clone, Copy)]
pub struct Listing<'a> {
    pub width: u16,
    pub height: u16,
    pub edits: &'a [Edit],
    pub done: usize,
    pub source: &'a [u8],
    ghost few: { (length edits.now ≤ 65536) × (done ≤ length edits.now) },
    ghost held: { All (Held source.now) edits.now } by { Prim.hlevel (props, held_prop) },
}

impl Listing<'_> {
    ghost use Rattle.codec.specs.Put.{listed_head};

    // What stands in its file before the edits.
    pub(crate) fn head(self) -> File
        ensures { result ≡ listed_head self.entry }
    {
        File {
            width: self.width,
            height: self.height,
            done: self.done as u32,
            undone: (self.edits.len() - self.done) as u32,
        }
    }
}
