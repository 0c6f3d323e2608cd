// The remainders by a prime, which are a field.
ghost use Rattle.std.specs.Prelude.{refl};
ghost use Rattle.alphabet.specs.Offers.{PrimeSize, Offered};
ghost use Rattle.alphabet.specs.Residue.{modulo};
ghost use Rattle.alphabet.specs.Remainders.{modulo_lawful};
ghost use Rattle.alphabet.specs.Inverses.{with_inverses};
ghost use Rattle.alphabet.specs.Fields.{prime_field};

use crate::modular::Residues;
use crate::refusals::{Choice, Refusal};
use crate::traits::{Alphabet, Field};

/// The remainders by q, for q of 3, 5, 7, 11 and 13.
#[derive(Debug, Clone, Copy, PartialEq, Eq)]
pub struct PrimeResidues {
    residues: Residues,
    ghost prime: { PrimeSize residues.q },
}

impl PrimeResidues {
    /// The field of so many symbols, if it is on offer.
    pub fn new(size: usize) -> Result<PrimeResidues, Refusal>
        ensures { Offered (λ f. f.residues.q) PrimeSize size result }
    {
        match size {
            3 | 5 | 7 | 11 | 13 => Ok(PrimeResidues {
                residues: Residues::new(size)?,
            }),
            _ => Err(Refusal::NotOffered {
                choice: Choice::AlphabetSize,
            }),
        }
    }
}

// Each call is the residues' own: no derive hands a trait on.
impl Alphabet for PrimeResidues {
    ghost meaning = { λ s. modulo s.residues.q };

    ghost lawful = { λ a. modulo_lawful a.residues.q a.residues.ok };

    fn size(&self) -> u8 {
        self.residues.size()
    }

    fn sum(&self, a: u8, b: u8) -> u8 {
        self.residues.sum(a, b)
    }

    fn negative(&self, a: u8) -> u8 {
        self.residues.negative(a)
    }

    fn product(&self, a: u8, b: u8) -> u8 {
        self.residues.product(a, b)
    }
}

impl Field for PrimeResidues {
    ghost meaning = { λ s. with_inverses (Self.Alphabet.meaning s) };

    ghost lawful = { λ a. prime_field a.residues.q a.residues.ok a.prime };

    ghost agrees = { λ _. refl };
}
