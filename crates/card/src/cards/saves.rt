// Saves in service.
ghost use Rattle.ledger.specs.Ledger as ledger;
ghost use Rattle.card.specs.History.{Continues, save_answer, RefusedAltersNothing};

use super::Service;
use crate::page::table::lend;
use crate::refusals::Refusal;
use code::Code;

impl<C: Code> Service<C> {
    /// Writes a message into a page, and answers the mask and how many cells were forced.
    pub fn save(&mut self, page: usize, message: &[u8]) -> Result<(u8, usize), Refusal>
        ensures continues { Continues C.Code.meaning self.old (ledger.save page message.now) (save_answer result) self.new }
        ensures refused { RefusedAltersNothing result self.old.pages.items self.new.pages.items }
    {
        Ok(lend(&mut self.pages, page)?.save(&self.code, self.allowance, message)?)
    }
}
