// The Repetition code: two symbols in three cells each, so that one wrong cell is outvoted. docs/ADDING.md walks through it.
#![tactic(auto)]

ghost use Rattle.std.specs.Prelude.{◌≡◌};
ghost use Rattle.repetition.specs.Repetition.{repetition};
ghost use Rattle.repetition.specs.RepetitionLaws.{repetition_laws};

#[cfg(test)]
mod tests;
mod triples;
mod uses;

use alphabet::{Alphabet, Refusal};
use code::{Code, check_word};
use triples::{put, vote};
pub use uses::{live_repeated, read_repeated, write_repeated};

/// How many symbols a word repeats.
const SYMBOLS: usize = 2;
/// In how many cells each of them stands.
const COPIES: usize = 3;
/// The first cell of each.
const INFORMATION: [usize; SYMBOLS] = [0, COPIES];
/// How many cells a word has.
const CELLS: usize = SYMBOLS * COPIES;
/// How many cells of a word can be wrong and are still corrected.
const RADIUS: usize = 1;

/// The Repetition code over an alphabet.
#[derive(Drop)]
pub struct Repetition<A> {
    alphabet: A,
}

impl<A: Alphabet> Repetition<A> {
    /// The Repetition code over this alphabet.
    pub fn new(alphabet: A) -> Repetition<A>
        ensures { result.alphabet ≡ alphabet }
    {
        Repetition { alphabet }
    }
}

impl<A: Alphabet> Code for Repetition<A> {
    type Symbols = A;

    ghost meaning = { λ s. repetition (A.Alphabet.meaning s.alphabet) };

    ghost lawful = { λ c. repetition_laws (A.Alphabet.meaning c.alphabet) (A.Alphabet.lawful c.alphabet) };

    fn alphabet(&self) -> &A {
        &self.alphabet
    }

    fn length(&self) -> usize {
        CELLS
    }

    fn radius(&self) -> usize {
        RADIUS
    }

    fn dimension(&self) -> usize {
        SYMBOLS
    }

    fn information_cell(&self, index: usize) -> Option<usize> {
        INFORMATION.get(index).copied()
    }

    fn complete(&self, word: &mut [u8]) -> Result<(), Refusal> {
        check_word(CELLS, self.alphabet.size(), word)?;
        let first = word[0];
        let second = word[COPIES];
        put(word, first, second);
        Ok(())
    }

    fn correct(&self, word: &mut [u8]) -> Result<usize, Refusal> {
        check_word(CELLS, self.alphabet.size(), word)?;
        let (first, second) = word.split_at(COPIES);
        let first = vote(first);
        let second = vote(second);
        let wrong = first.wrong + second.wrong;
        if wrong > RADIUS {
            return Err(Refusal::TooFar);
        }
        put(word, first.symbol, second.symbol);
        Ok(wrong)
    }
}
