// Why a card is not made or a run not finished: a refusal, or want of memory.
ghost use Rattle.std.specs.Prelude.{◌≡◌};
ghost use Rattle.card.specs.declared.faults.Fault.TheVariants.{Asked, Memory};

use super::refusals::Refusal;
use report::Reported;
use std::alloc::{AllocError, AllocFailed};
use std::error::Error;
use std::fmt;

/// Only what makes or gathers can want memory; no call on a card does.
#[derive(Clone, Copy, Debug, PartialEq, Eq)]
pub enum Fault {
    /// What was asked for is refused.
    Asked { refusal: Refusal },
    /// There is no memory.
    Memory,
}

impl From<Refusal> for Fault {
    ghost from_gives = { λ refusal r. r ≡ Asked refusal };

    fn from(refusal: Refusal) -> Fault {
        Fault::Asked { refusal }
    }
}

impl From<AllocError> for Fault {
    ghost from_gives = { λ _ r. r ≡ Memory };

    fn from(_e: AllocError) -> Fault {
        Fault::Memory
    }
}

impl<T: Drop> From<AllocFailed<T>> for Fault {
    ghost from_gives = { λ _ r. r ≡ Memory };

    fn from(_e: AllocFailed<T>) -> Fault {
        Fault::Memory
    }
}

impl fmt::Display for Fault {
    fn fmt<W: fmt::Write>(&self, f: &mut fmt::Formatter<W>) -> fmt::Result {
        match self {
            Fault::Asked { refusal } => write!(f, "{}", Reported(refusal)),
            Fault::Memory => f.write_str("no memory"),
        }
    }
}

impl Error for Fault {}
