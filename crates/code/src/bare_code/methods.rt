// Making a Bare code, and what it answers.
ghost use Rattle.std.specs.Prelude.{◌≡◌, ◌≤◌, MatchResult};
ghost use Rattle.alphabet.specs.declared.refusals.Refusal.TheVariants.{BareLength};
ghost use Rattle.code.specs.Bare.{bare};
ghost use Rattle.code.specs.BareLaws.{bare_laws};

use super::Bare;
use crate::checks::check_word;
use crate::traits::{Code, FEWEST_CELLS, MOST_CELLS};
use alphabet::{Alphabet, Refusal};

impl<A: Drop> Bare<A> {
    /// The code of all words of so many cells.
    pub fn new(alphabet: A, cells: usize) -> Result<Bare<A>, Refusal>
        ensures { MatchResult result (λ b. (b.alphabet ≡ alphabet) × (b.cells ≡ cells)) (λ e. (e ≡ BareLength cells) × ((2 ≤ cells) × (cells ≤ 256) → ⊥)) }
    {
        if !(FEWEST_CELLS..=MOST_CELLS).contains(&cells) {
            return Err(Refusal::BareLength { length: cells });
        }
        Ok(Bare { alphabet, cells })
    }
}

impl<A: Alphabet> Code for Bare<A> {
    type Symbols = A;

    ghost meaning = { λ s. bare (A.Alphabet.meaning s.alphabet) s.cells };

    ghost lawful = { λ c. bare_laws (A.Alphabet.meaning c.alphabet) (A.Alphabet.lawful c.alphabet) c.cells c.long c.short };

    fn alphabet(&self) -> &A {
        &self.alphabet
    }

    fn length(&self) -> usize {
        self.cells
    }

    fn radius(&self) -> usize {
        0
    }

    fn dimension(&self) -> usize {
        self.cells
    }

    fn information_cell(&self, index: usize) -> Option<usize> {
        (index < self.cells).then_some(index)
    }

    fn complete(&self, word: &mut [u8]) -> Result<(), Refusal> {
        check_word(self.cells, self.alphabet.size(), word)
    }

    fn correct(&self, word: &mut [u8]) -> Result<usize, Refusal> {
        check_word(self.cells, self.alphabet.size(), word)?;
        Ok(0)
    }
}
