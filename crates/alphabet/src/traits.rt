// What an alphabet and a field answer, and the laws that they show.
ghost use Rattle.std.specs.Prelude.{◌≡◌, ◌%◌};
ghost use Rattle.alphabet.specs.Arithmetic.{Arithmetic, Lawful};
ghost use Rattle.alphabet.specs.Field.{FieldArithmetic, FieldLaws};

const ONE: u8 = 1;

/// The symbols 0 to q - 1 with sums, negatives and products. A number of q or more counts as its remainder by q.
pub trait Alphabet {
    ghost meaning: { Self → Arithmetic };

    /// How many symbols there are.
    fn size(&self) -> u8
        ensures { result ≡ (meaning self.now).size };

    fn sum(&self, a: u8, b: u8) -> u8
        ensures { result ≡ (meaning self.now).sum (a % (meaning self.now).size) (b % (meaning self.now).size) };

    fn negative(&self, a: u8) -> u8
        ensures { result ≡ (meaning self.now).negative (a % (meaning self.now).size) };

    fn product(&self, a: u8, b: u8) -> u8
        ensures { result ≡ (meaning self.now).product (a % (meaning self.now).size) (b % (meaning self.now).size) };

    ghost lawful: { (a : Self) → Lawful (meaning a) };
}

/// An alphabet of three or more symbols in which each symbol but 0 has an inverse.
pub trait Field: Alphabet {
    // No default, though `with_inverses` of the alphabet serves the fields here: a default sees no member.
    ghost meaning: { Self → FieldArithmetic };

    /// The symbol whose product with `a` is 1; none at 0. The field's sums and products are the alphabet's.
    fn inverse(&self, a: u8) -> Option<u8>
        ensures value { result ≡ (meaning self.now).inverse (a % (meaning self.now).arithmetic.size) }
        ensures agrees { (meaning self.now).arithmetic ≡ Self.Alphabet.meaning self.now }
    {
        (0..self.size()).find(|x| self.product(a, *x) == ONE)
    }

    ghost lawful: { (a : Self) → FieldLaws (meaning a) };

    ghost agrees: { (a : Self) → (meaning a).arithmetic ≡ Self.Alphabet.meaning a };
}
