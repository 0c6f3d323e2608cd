// The Plane code: a word is q rows of q symbols, q the size of a field, and one wrong cell is corrected.
#![tactic(auto)]

ghost use Rattle.std.specs.Prelude.{◌≡◌};
ghost use Rattle.plane.specs.Plane.{plane};
ghost use Rattle.plane.specs.PlaneLaws.{plane_laws};

mod repairs;
mod three_sums;

use alphabet::{Alphabet, Field, Refusal};
use code::{Code, check_word};
use repairs::{fill_checks, mend};
use three_sums::Rows;

/// How many cells of a word can be wrong and are still corrected.
const RADIUS: usize = 1;
/// How many check cells a word has.
const CHECK_CELLS: usize = 3;
/// How many check cells begin the first row; the last begins the second.
const FIRST_CHECKS: usize = 2;

/// The Plane code over a field.
#[derive(Drop)]
pub struct Plane<F> {
    field: F,
}

impl<F: Field> Plane<F> {
    /// The Plane code over this field.
    pub fn new(field: F) -> Plane<F>
        ensures { result.field ≡ field }
    {
        Plane { field }
    }
}

impl<F: Field> Code for Plane<F> {
    type Symbols = F;

    ghost meaning = { λ s. plane (F.Field.meaning s.field) };

    ghost lawful = { λ c. plane_laws (F.Field.meaning c.field) (F.Field.lawful c.field) };

    fn alphabet(&self) -> &F {
        &self.field
    }

    fn length(&self) -> usize {
        let q = usize::from(self.field.size());
        q * q
    }

    fn radius(&self) -> usize {
        RADIUS
    }

    fn dimension(&self) -> usize {
        self.length() - CHECK_CELLS
    }

    fn information_cell(&self, index: usize) -> Option<usize> {
        let q = usize::from(self.field.size());
        if index >= self.dimension() {
            None
        } else if index < q - FIRST_CHECKS {
            Some(index + FIRST_CHECKS)
        } else {
            Some(index + CHECK_CELLS)
        }
    }

    fn complete(&self, word: &mut [u8]) -> Result<(), Refusal> {
        check_word(self.length(), self.field.size(), word)?;
        fill_checks(&self.field, word);
        Ok(())
    }

    fn correct(&self, word: &mut [u8]) -> Result<usize, Refusal> {
        check_word(self.length(), self.field.size(), word)?;
        let alphabet = &self.field;
        let sums = Rows { alphabet, word }.sums();
        if sums.levels == 0 {
            return if sums.rows == 0 && sums.columns == 0 {
                Ok(0)
            } else {
                Err(Refusal::TooFar)
            };
        }
        let Some(inverse) = self.field.inverse(sums.levels) else {
            unreachable!()
        };
        mend(alphabet, word, sums, inverse);
        Ok(1)
    }
}
