// Reads in service.
ghost use Rattle.std.specs.Prelude.{◌≡◌, length};
ghost use Rattle.code.specs.Words.{rest};
ghost use Rattle.ledger.specs.Ledger as ledger;
ghost use Rattle.card.specs.History.{Continues, Fetches, read_answer, Untouched};

use super::Service;
use crate::page::table::find;
use crate::refusals::Refusal;
use code::Code;
use masking::message_length;

impl<C: Code> Service<C> {
    /// Reads a page's message into the buffer, and answers how many cells were corrected.
    pub fn read(&self, page: usize, message: &mut [u8]) -> Result<usize, Refusal>
        ensures continues { Continues C.Code.meaning self.now (ledger.read page (length message.old)) (read_answer result message.new) self.now }
        ensures untouched { Untouched result message.old message.new }
    {
        find(&self.pages, page)?;
        let room = message.len();
        if room != message_length(&self.code) {
            return Err(masking::Refusal::MessageLength { length: room }.into());
        }
        // through the card's `fetch`, whose clause on its history would otherwise be proved here again
        self.fetch(page, message)
    }

    /// What a page that has taken a message reads as.
    pub(crate) fn fetch(&self, page: usize, message: &mut [u8]) -> Result<usize, Refusal>
        requires { length message.old ≡ length (rest (C.Code.meaning self.now.code).information) }
        ensures fetches { Fetches C.Code.meaning self.now page result message.new }
        ensures untouched { Untouched result message.old message.new }
    {
        find(&self.pages, page)?.fetch(&self.code, page, message)
    }
}
