// Wear and drift notes in service.
ghost use Rattle.ledger.specs.Ledger.{wear, drift};
ghost use Rattle.card.specs.History.{Continues, note_answer, RefusedAltersNothing};

use super::Service;
use crate::page::table::lend;
use crate::refusals::Refusal;
use alphabet::Alphabet;
use code::Code;

impl<C: Code> Service<C> {
    /// Raises a cell's floor to the higher of the old and the given one, and its level to that.
    pub fn note_wear(&mut self, page: usize, cell: usize, floor: usize) -> Result<(), Refusal>
        ensures continues { Continues C.Code.meaning self.old (wear page cell floor) (note_answer result) self.new }
        ensures refused { RefusedAltersNothing result self.old.pages.items self.new.pages.items }
    {
        let size = self.code.alphabet().size();
        lend(&mut self.pages, page)?.wear(cell, floor, size)
    }

    /// Sets a cell's level, at its floor or above.
    pub fn note_drift(&mut self, page: usize, cell: usize, level: usize) -> Result<(), Refusal>
        ensures continues { Continues C.Code.meaning self.old (drift page cell level) (note_answer result) self.new }
        ensures refused { RefusedAltersNothing result self.old.pages.items self.new.pages.items }
    {
        let size = self.code.alphabet().size();
        lend(&mut self.pages, page)?.drift(cell, level, size)
    }
}
