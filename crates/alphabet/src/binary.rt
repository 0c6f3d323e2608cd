// The fields of 4, 8 and 16 symbols, whose symbols are polynomials over two elements.
ghost use Rattle.std.specs.Prelude.{◌≡◌, ◌%◌, refl};
ghost use Rattle.alphabet.specs.Offers.{BinarySize, Offered};
ghost use Rattle.alphabet.specs.Binary.{binary, polynomial_product, times, Remainder};
ghost use Rattle.alphabet.specs.Times.{binary_lawful};
ghost use Rattle.alphabet.specs.Inverses.{with_inverses};
ghost use Rattle.alphabet.specs.Fields.{binary_field};

use crate::polynomials::{polynomial_product, reduced};
use crate::refusals::{Choice, Refusal};
use crate::traits::{Alphabet, Field};

/// The field of q symbols, for q of 4, 8 and 16. Bit i of a symbol is the coefficient of x^i.
#[derive(Debug, Clone, Copy, PartialEq, Eq)]
pub struct BinaryField {
    q: u8,
    ghost ok: { BinarySize q },
}

impl BinaryField {
    /// The field of so many symbols, if it is on offer.
    pub fn new(size: usize) -> Result<BinaryField, Refusal>
        ensures { Offered (λ f. f.q) BinarySize size result }
    {
        match u8::try_from(size) {
            Ok(q @ (4 | 8 | 16)) => Ok(BinaryField { q }),
            _ => Err(Refusal::NotOffered {
                choice: Choice::AlphabetSize,
            }),
        }
    }

    /// The symbol that a number counts as: the low bits, since q is a power of two.
    fn symbol(&self, a: u8) -> u8
        ensures { result ≡ a % self.now.q }
    {
        a & (self.q - 1)
    }
}

impl Alphabet for BinaryField {
    ghost meaning = { λ s. binary s.q };

    ghost lawful = { λ a. binary_lawful a.q a.ok };

    fn size(&self) -> u8 {
        self.q
    }

    fn sum(&self, a: u8, b: u8) -> u8 {
        self.symbol(a) ^ self.symbol(b)
    }

    fn negative(&self, a: u8) -> u8 {
        self.symbol(a)
    }

    /// The remainder of the product of the two polynomials.
    fn product(&self, a: u8, b: u8) -> u8
        ensures value { result ≡ times self.now.q (a % self.now.q) (b % self.now.q) }
        ensures remainder { Remainder self.now.q (polynomial_product (a % self.now.q) (b % self.now.q)) result }
    {
        reduced(self.q, polynomial_product(self.symbol(a), self.symbol(b)))
    }
}

impl Field for BinaryField {
    ghost meaning = { λ s. with_inverses (Self.Alphabet.meaning s) };

    ghost lawful = { λ a. binary_field a.q a.ok };

    ghost agrees = { λ _. refl };
}
