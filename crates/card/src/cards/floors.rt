// Floors at the bench.
ghost use Rattle.ledger.specs.Ledger.{floor};
ghost use Rattle.card.specs.History.{BenchContinues, note_answer, RefusedAltersNothing};

use super::Bench;
use crate::page::table::lend;
use crate::refusals::Refusal;
use alphabet::Alphabet;
use code::Code;

impl<C: Code> Bench<C> {
    // `refused` stands at each call that changes pages: it is a promise of the call, and no field of a card could hold it.
    /// Sets a cell's floor, and its level to that.
    pub fn set_floor(&mut self, page: usize, cell: usize, level: usize) -> Result<(), Refusal>
        ensures continues { BenchContinues C.Code.meaning self.old (floor page cell level) (note_answer result) self.new }
        ensures refused { RefusedAltersNothing result self.old.pages.items self.new.pages.items }
    {
        let size = self.code.alphabet().size();
        lend(&mut self.pages, page)?.floor(cell, level, size)
    }
}
