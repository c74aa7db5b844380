//! Why a case has no answer.
ghost use Rattle.std.specs.Prelude.{◌≡◌};
ghost use Rattle.conformance.specs.declared.fault.Fault.TheVariants.{Memory, Failed};

use std::alloc::{AllocError, AllocFailed};
use std::io;

/// Why a case has no answer.
#[derive(Drop)]
pub enum Fault {
    /// The line has another form.
    Unread,
    /// Memory ran out.
    Memory,
    /// Something could not be read or printed.
    Failed(io::Error),
}

impl From<AllocError> for Fault {
    ghost from_gives = { λ _ r. r ≡ Memory };

    fn from(_e: AllocError) -> Fault {
        Fault::Memory
    }
}

impl<T: Drop> From<AllocFailed<T>> for Fault {
    ghost from_gives = { λ _ r. r ≡ Memory };

    fn from(_e: AllocFailed<T>) -> Fault {
        Fault::Memory
    }
}

impl From<io::Error> for Fault {
    ghost from_gives = { λ e r. r ≡ Failed e };

    fn from(e: io::Error) -> Fault {
        Fault::Failed(e)
    }
}
