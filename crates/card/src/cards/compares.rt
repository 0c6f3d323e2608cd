// Comparisons in service.
ghost use Rattle.ledger.specs.Ledger as ledger;
ghost use Rattle.card.specs.History.{Continues, compare_answer};

use super::Service;
use crate::refusals::Refusal;
use code::{Code, MOST_CELLS};
use masking::message_length;

impl<C: Code> Service<C> {
    /// Whether two pages read to the same message.
    pub fn compare(&self, one: usize, other: usize) -> Result<bool, Refusal>
        ensures { Continues C.Code.meaning self.now (ledger.compare one other) (compare_answer result) self.now }
    {
        // No call on a card allocates: the two messages lie in arrays of the longest length.
        let symbols = message_length(&self.code);
        let mut first = [0u8; MOST_CELLS];
        let message = &mut first[..symbols];
        self.fetch(one, message)?;
        let mut second = [0u8; MOST_CELLS];
        let other_message = &mut second[..symbols];
        self.fetch(other, other_message)?;
        Ok(*message == *other_message)
    }
}
