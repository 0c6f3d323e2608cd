// Why a card refuses a call.
ghost use Rattle.std.specs.Prelude.{◌≡◌};
ghost use Rattle.card.specs.Refusals as shown;
ghost use Rattle.card.specs.declared.refusals.Refusal.TheVariants.{Masking};

use report::Report;
use std::error::Error;
use std::fmt;

/// Why a card is not made, or refuses a call.
#[derive(Clone, Copy, Debug, PartialEq, Eq)]
pub enum Refusal {
    /// A page is not written or not read.
    Masking { refusal: masking::Refusal },
    /// No card has so many pages.
    PageCount { pages: usize },
    /// There is no such page.
    NoPage { page: usize },
    /// There is no such cell.
    NoCell { cell: usize },
    /// There is no such floor or level.
    NoLevel { level: usize },
    /// The page has taken no message.
    Blank { page: usize },
    /// A level cannot drift below its floor.
    BelowFloor { cell: usize },
}

impl From<masking::Refusal> for Refusal {
    ghost from_gives = { λ refusal r. r ≡ Masking refusal };

    fn from(refusal: masking::Refusal) -> Refusal {
        Refusal::Masking { refusal }
    }
}

impl Report for Refusal {
    ghost number = { shown.number };

    ghost layer = { shown.layer };

    ghost place = { shown.place };

    fn number(&self) -> usize {
        match self {
            Refusal::Masking { refusal } => refusal.number(),
            Refusal::PageCount { .. } => 1,
            Refusal::NoPage { .. } => 4,
            Refusal::NoCell { .. } => 5,
            Refusal::NoLevel { .. } => 6,
            Refusal::Blank { .. } => 10,
            Refusal::BelowFloor { .. } => 12,
        }
    }

    fn layer(&self) -> usize {
        match self {
            Refusal::Masking { refusal } => refusal.layer(),
            _ => 2,
        }
    }

    fn place(&self) -> usize {
        match self {
            Refusal::Masking { refusal } => refusal.place(),
            Refusal::PageCount { pages } => *pages,
            Refusal::NoPage { page } => *page,
            Refusal::NoCell { cell } => *cell,
            Refusal::NoLevel { level } => *level,
            Refusal::Blank { page } => *page,
            Refusal::BelowFloor { cell } => *cell,
        }
    }
}

impl fmt::Display for Refusal {
    fn fmt<W: fmt::Write>(&self, f: &mut fmt::Formatter<W>) -> fmt::Result {
        match self {
            Refusal::Masking { refusal } => write!(f, "{refusal}"),
            Refusal::PageCount { .. } => f.write_str("a card has 1 to 16 pages"),
            Refusal::NoPage { .. } => f.write_str("there is no such page"),
            Refusal::NoCell { .. } => f.write_str("there is no such cell"),
            Refusal::NoLevel { .. } => f.write_str("there is no such level"),
            Refusal::Blank { .. } => f.write_str("the page is blank"),
            Refusal::BelowFloor { .. } => f.write_str("the cell's floor is higher"),
        }
    }
}

impl Error for Refusal {}
