// Why a message is not written or not read.
ghost use Rattle.std.specs.Prelude.{◌≡◌};
ghost use Rattle.masking.specs.Refusals as shown;
ghost use Rattle.masking.specs.declared.refusals.Refusal.TheVariants.{Coding};

use report::Report;
use std::error::Error;
use std::fmt;

/// Why a page is not written or not read.
#[derive(Clone, Copy, Debug, PartialEq, Eq)]
pub enum Refusal {
    /// The code refuses a word.
    Coding { refusal: alphabet::Refusal },
    /// More cells might be forced than the code corrects.
    Allowance { allowance: usize },
    /// The first floor that is no level.
    Floor { floor: usize },
    /// The message, or the buffer for it, has another length than the code's messages.
    MessageLength { length: usize },
    /// The first number of the message that is no symbol.
    MessageSymbol { index: usize },
    /// Every mask leaves more cells unmet than may be forced.
    NoMask { fewest: usize },
}

impl From<alphabet::Refusal> for Refusal {
    ghost from_gives = { λ refusal r. r ≡ Coding refusal };

    fn from(refusal: alphabet::Refusal) -> Refusal {
        Refusal::Coding { refusal }
    }
}

impl Report for Refusal {
    ghost number = { shown.number };

    ghost layer = { shown.layer };

    ghost place = { shown.place };

    fn number(&self) -> usize {
        match self {
            Refusal::Coding { refusal } => refusal.number(),
            Refusal::Allowance { .. } => 2,
            Refusal::Floor { .. } => 6,
            Refusal::MessageLength { .. } => 7,
            Refusal::MessageSymbol { .. } => 8,
            Refusal::NoMask { .. } => 9,
        }
    }

    fn layer(&self) -> usize {
        match self {
            Refusal::Coding { refusal } => refusal.layer(),
            _ => 2,
        }
    }

    fn place(&self) -> usize {
        match self {
            Refusal::Coding { refusal } => refusal.place(),
            Refusal::Allowance { allowance } => *allowance,
            Refusal::Floor { floor } => *floor,
            Refusal::MessageLength { length } => *length,
            Refusal::MessageSymbol { index } => *index,
            Refusal::NoMask { fewest } => *fewest,
        }
    }
}

impl fmt::Display for Refusal {
    fn fmt<W: fmt::Write>(&self, f: &mut fmt::Formatter<W>) -> fmt::Result {
        match self {
            Refusal::Coding { refusal } => write!(f, "{refusal}"),
            Refusal::Allowance { .. } => f.write_str("the allowance is above the radius"),
            Refusal::Floor { .. } => f.write_str("a floor is no symbol"),
            Refusal::MessageLength { .. } => f.write_str("not the length of a message"),
            Refusal::MessageSymbol { .. } => f.write_str("a number of the message is no symbol"),
            Refusal::NoMask { .. } => {
                f.write_str("every mask leaves too many cells below their floors")
            }
        }
    }
}

impl Error for Refusal {}
