// Making a card, and opening it.
ghost use Rattle.std.specs.Prelude.{◌≡◌, ◌≤◌, List, [], MatchResult};
ghost use Rattle.ledger.specs.Ledger as ledger;
ghost use Rattle.ledger.specs.Ledger.{Made, BenchCall, Answer, AtBench, InService};
ghost use Rattle.card.specs.History.{CardShows};
ghost use Rattle.card.specs.Making.{New, NotMade, Pages, RefusedCard};

use super::{Bench, Card, Service};
use crate::faults::Fault;
use crate::page::Page;
use crate::refusals::Refusal;
use code::Code;
use std::alloc::Global;
use std::marker::PhantomData;

/// A card has at least so many pages.
const FEWEST_PAGES: usize = 1;
/// A card has at most so many pages.
const MOST_PAGES: usize = 16;

/// Refuses what no card is made of.
fn check<C: Code>(code: &C, allowance: usize, pages: usize) -> Result<(), Refusal>
    ensures { MatchResult result (λ _. Pages pages × (allowance ≤ (C.Code.meaning code.now).radius)) (RefusedCard (C.Code.meaning code.now) allowance pages) }
{
    if !(FEWEST_PAGES..=MOST_PAGES).contains(&pages) {
        return Err(Refusal::PageCount { pages });
    }
    if allowance > code.radius() {
        return Err(masking::Refusal::Allowance { allowance }.into());
    }
    Ok(())
}

impl<C: Code + Drop> Bench<C> {
    // The allowance and the page count stay apart, since each is refused as itself.
    /// A card of blank pages. Everything is allocated here: no later call wants memory.
    pub fn new(heap: Global, code: C, allowance: usize, pages: usize) -> Result<Bench<C>, Fault>
        ensures { MatchResult result (New C.Code.meaning code allowance pages) (NotMade (C.Code.meaning code) allowance pages) }
    {
        check(&code, allowance, pages)?;
        let cells = code.length();
        // A chain into `try_collect` leaves open that it gives so many pages and that each is blank.
        let mut table = Vec::new(heap);
        for _ in 0..pages {
            let page = Page::blank(heap, cells)?;
            table.push(page)?;
        }
        Ok(Card {
            code,
            allowance,
            pages: table,
            stage: PhantomData,
        })
    }
}

impl<C: Code> Bench<C> {
    /// Puts the card into service. It takes no more bench floors.
    pub fn open(self) -> Service<C>
        ensures pages { result.pages ≡ self.pages }
        ensures opens { (made : Made) (past : List (BenchCall × Answer)) (l : List ledger.Page) → AtBench made past l → CardShows C.Code.meaning self made l → InService made past [] l × CardShows C.Code.meaning result made l }
    {
        let Card {
            code,
            allowance,
            pages,
            stage: PhantomData,
        } = self;
        Card {
            code,
            allowance,
            pages,
            stage: PhantomData,
        }
    }
}
