// What a line of a sheet is told, and why it is refused.
ghost use Rattle.std.specs.Prelude.{◌≡◌};
ghost use Rattle.masking.specs.declared.refusals.Refusal.TheVariants as masking;
ghost use Rattle.card.specs.declared.refusals.Refusal.TheVariants.{Masking};
ghost use Rattle.listing.specs.Refusals as shown;
ghost use Rattle.listing.specs.declared.refusals.Refusal.TheVariants.{Sheet, Card};

use report::Report;
use runs::Reply;

/// Why a line is refused.
#[derive(Clone, Copy, Debug, PartialEq, Eq)]
pub(crate) enum Refusal {
    /// For its form or its turn, as a sheet is for its length.
    Sheet(sheet::Refusal),
    /// By the card that it asks for or calls.
    Card(card::Refusal),
}

/// What a line is told: what it is granted, or why it is refused.
pub(crate) type Told = Result<Reply, Refusal>;

impl From<sheet::Refusal> for Refusal {
    ghost from_gives = { λ refusal r. r ≡ Sheet refusal };

    fn from(refusal: sheet::Refusal) -> Refusal {
        Refusal::Sheet(refusal)
    }
}

impl From<card::Refusal> for Refusal {
    ghost from_gives = { λ refusal r. r ≡ Card refusal };

    fn from(refusal: card::Refusal) -> Refusal {
        Refusal::Card(refusal)
    }
}

impl From<alphabet::Refusal> for Refusal {
    ghost from_gives = { λ refusal r. r ≡ Card (Masking (masking.Coding refusal)) };

    fn from(refusal: alphabet::Refusal) -> Refusal {
        Refusal::Card(card::Refusal::from(masking::Refusal::from(refusal)))
    }
}

impl Report for Refusal {
    ghost number = { shown.number };

    ghost layer = { shown.layer };

    ghost place = { shown.place };

    fn number(&self) -> usize {
        match self {
            Refusal::Sheet(refusal) => refusal.number(),
            Refusal::Card(refusal) => refusal.number(),
        }
    }

    fn layer(&self) -> usize {
        match self {
            Refusal::Sheet(refusal) => refusal.layer(),
            Refusal::Card(refusal) => refusal.layer(),
        }
    }

    fn place(&self) -> usize {
        match self {
            Refusal::Sheet(refusal) => refusal.place(),
            Refusal::Card(refusal) => refusal.place(),
        }
    }
}
