// The plain engine's state: a size, and a plain list of edits, of which some are done and the rest undone.
ghost use Rattle.std.specs.Prelude.{◌≡◌, ◌≤◌, vec_len};
ghost use Rattle.std.specs.List.{All};
ghost use Rattle.reference.specs.Lists.{Good};

use codec::edits::Edit;
use pixel::sizes::Size;

// `edits` has the done ones from the first, and then the undone ones in the order in which redo would do them.
// Their points and numbers lie in `bytes`, the bytes of all turns so far that were edits.
#[derive(Debug, Drop)]
pub struct Engine {
    pub size: Size,
    pub bytes: Vec<u8>,
    pub edits: Vec<Edit>,
    pub done: usize,
    pub taken: usize,
    ghost counted: { (done ≤ vec_len edits) × (vec_len edits ≤ taken) × (taken ≤ 65536) },
    ghost good: { All (Good bytes.items) edits.items },
}
