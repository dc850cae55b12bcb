// What takes turns, and why one is not taken.
ghost use Rattle.std.specs.Prelude.{◌≡◌, ℕ, List, Some, Result};
ghost use Rattle.words.specs.declared.taking.Fault.{Fault};
ghost use Rattle.words.specs.declared.taking.Fault.TheVariants.{Refused, NoMemory};

use codec::edits::Refusal;
use std::alloc::{AllocError, AllocFailed};
use std::error::Error;
use std::fmt;

#[derive(Clone, Copy, Debug, PartialEq, Eq)]
pub enum Fault {
    Refused(Refusal),
    NoMemory,
}

impl fmt::Display for Fault {
    ghost use Rattle.words.specs.Script.{fault_text};

    ghost output = { λ fault. Some (fault_text fault) };

    fn fmt<W: fmt::Write>(&self, f: &mut fmt::Formatter<W>) -> fmt::Result {
        match self {
            Fault::Refused(why) => write!(f, "{why}"),
            Fault::NoMemory => write!(f, "out of memory"),
        }
    }
}

impl Error for Fault {}

impl From<Refusal> for Fault {
    ghost from_gives = { λ why fault. fault ≡ Refused why };

    fn from(refusal: Refusal) -> Fault {
        Fault::Refused(refusal)
    }
}

impl From<AllocError> for Fault {
    ghost from_gives = { λ _ fault. fault ≡ NoMemory };

    fn from(_failed: AllocError) -> Fault {
        Fault::NoMemory
    }
}

impl<T: Drop> From<AllocFailed<T>> for Fault {
    ghost from_gives = { λ _ fault. fault ≡ NoMemory };

    fn from(_failed: AllocFailed<T>) -> Fault {
        Fault::NoMemory
    }
}

// A page that takes turns by their bytes. `steps` says what page a turn makes of another, or with which fault.
pub trait Takes {
    ghost steps: { Self → List ℕ → Result (Unit {0}) Fault → Self → Type 0 };

    fn take(&mut self, bytes: &[u8]) -> Result<(), Fault>
        ensures { steps self.old bytes.now result self.new };
}
