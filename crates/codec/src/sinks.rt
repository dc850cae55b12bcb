// Where what is written goes, piece after piece: into lent bytes, which cannot fail, or behind those of a `Vec`, which wants memory.
ghost use Rattle.std.specs.Prelude.{◌≡◌, ℕ, ◌+◌, ◌≤◌, List, [], ◌++◌, length, OnOk, ⊤};
ghost use Rattle.codec.specs.Sinks.{CursorFits, CursorPuts, cursor_none, cursor_both, cursor_rest, cursor_fewer};
ghost use Rattle.std.proofs.Common.{rules};
ghost use Rattle.std.proofs.lemmas.Grind.{common_steps};

use std::alloc::AllocError;
use std::convert::Infallible;

pub(crate) trait Sink {
    type Error;

    // So many bytes more can be put.
    ghost fits: { Self → ℕ → Type 0 };

    // What it is before and after these bytes are put.
    ghost puts: { Self → List ℕ → Self → Type 0 };

    // On an error a part of the piece may have been put.
    fn put(&mut self, piece: &[u8]) -> Result<(), Self::Error>
        requires { fits self.old (length piece.now) }
        ensures { OnOk result (puts self.old piece.now self.new) };

    ghost puts_none: { (s : Self) → fits s 0 → puts s [] s };

    ghost puts_both: { (s t u : Self) (xs ys : List ℕ) → puts s xs t → puts t ys u → puts s (xs ++ ys) u };

    ghost fits_rest: { (s t : Self) (xs : List ℕ) (n : ℕ) → fits s (length xs + n) → puts s xs t → fits t n };

    ghost fits_fewer: { (s : Self) (m n : ℕ) → m ≤ n → fits s n → fits s m };
}

// Lent bytes, and the place among them that the next piece goes to.
#[derive(Drop)]
pub(crate) struct Cursor<'a> {
    pub out: &'a mut [u8],
    pub at: usize,
}

impl Sink for Cursor<'_> {
    type Error = Infallible;

    ghost fits = { CursorFits };

    ghost puts = { CursorPuts };

    fn put(&mut self, piece: &[u8]) -> Result<(), Infallible> {
        let end = self.at + piece.len();
        self.out[self.at..end].copy_from_slice(piece);
        self.at = end;
        Ok(())
    }

    ghost puts_none = { cursor_none };

    ghost puts_both = { cursor_both };

    ghost fits_rest = { cursor_rest };

    ghost fits_fewer = { cursor_fewer };
}

impl Sink for Vec<u8> {
    type Error = AllocError;

    ghost fits = { λ _ _. ⊤ };

    ghost puts = { λ v xs w. w.items ≡ v.items ++ xs };

    fn put(&mut self, piece: &[u8]) -> Result<(), AllocError> {
        self.extend_from_slice(piece)
    }

    ghost puts_none = { Prim.search rules };

    ghost puts_both = { Prim.search (rules, common_steps) };

    ghost fits_rest = { λ _ _ _ _ _ _. tt };

    ghost fits_fewer = { λ _ _ _ _ _. tt };
}
