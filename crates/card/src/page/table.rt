// A page out of a table of pages. `lend` takes the Vec, since what a slice lends is not said of a Result, and `find` the same.
ghost use Rattle.std.specs.Borrow.{sem};
ghost use Rattle.std.specs.Prelude.{MatchResult};
ghost use Rattle.card.specs.Lending.{IsPage, IsNoPage, LendsPage};

use super::Page;
use crate::refusals::Refusal;

/// The page of this number, if it is there.
pub(crate) fn find(pages: &Vec<Page>, page: usize) -> Result<&Page, Refusal>
    ensures { MatchResult result (λ p. IsPage pages.now.items page p.now) (IsNoPage pages.now.items page) }
{
    pages.get(page).ok_or(Refusal::NoPage { page })
}

/// Lends that page for a change.
pub(crate) fn lend(pages: &mut Vec<Page>, page: usize) -> Result<&mut Page, Refusal>
    ensures* writes_back { sem 𝓛 (LendsPage pages.entry page result) }
    ensures found { MatchResult result (λ p. IsPage pages.old.items page p.now) (IsNoPage pages.old.items page) }
{
    // Without `Ok(..?)` around it the first clause gets no proof.
    Ok(pages.get_mut(page).ok_or(Refusal::NoPage { page })?)
}
