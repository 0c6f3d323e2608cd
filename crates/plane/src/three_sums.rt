// The three sums of a word, in one pass over its cells.
ghost use Rattle.std.specs.Prelude.{◌≡◌, ◌+◌, ◌<◌, ◌%◌, slice_index};
ghost use Rattle.code.specs.Words.{Word};
ghost use Rattle.sums.specs.Sums.{sum_of};
ghost use Rattle.plane.specs.Plane.{plane_over};
ghost use Rattle.plane.specs.Lines.{row_part, ColumnsSummed, SumsOf};

use alphabet::Alphabet;

/// An alphabet has at most so many symbols.
// No call on a word allocates, so the columns' sums lie in an array for the most symbols.
const MOST_SYMBOLS: usize = 16;

/// What a word's levels, its levels times their rows and its levels times their columns sum to.
#[derive(Debug, Clone, Copy, PartialEq, Eq)]
pub struct Sums {
    pub levels: u8,
    pub rows: u8,
    pub columns: u8,
}

/// A word of the plane over an alphabet: q rows of q symbols.
#[derive(Drop)]
pub(crate) struct Rows<'a, A: Alphabet> {
    pub(crate) alphabet: &'a A,
    pub(crate) word: &'a [u8],
    ghost fit: { Word (plane_over (A.Alphabet.meaning alphabet.now)) word.now },
}

impl<'a, A: Alphabet> Rows<'a, A> {
    /// Adds row `a` to the sums of the columns, and answers the row's own sum.
    fn add(&self, a: u8, columns: &mut [u8; MOST_SYMBOLS]) -> u8
        requires below { a < (A.Alphabet.meaning self.now.alphabet.now).size }
        requires summed { ColumnsSummed (A.Alphabet.meaning self.now.alphabet.now) self.now.word.now a columns.old }
        ensures row { let m = A.Alphabet.meaning self.now.alphabet.now in result ≡ row_part m self.now.word.now a m.size }
        ensures summed { ColumnsSummed (A.Alphabet.meaning self.now.alphabet.now) self.now.word.now (a + 1) columns.new }
    {
        let q = usize::from(self.alphabet.size());
        let start = q * usize::from(a);
        let row = &self.word[start..start + q];
        let mut sum = 0;
        // through a `zip` of `columns.iter_mut()` the loop's invariant has no name for the columns
        for (b, level) in row.iter().enumerate() {
            sum = self.alphabet.sum(sum, *level);
            columns[b] = self.alphabet.sum(columns[b], *level);
        }
        sum
    }

    /// The three sums of the word.
    pub(crate) fn sums(&self) -> Sums
        ensures { SumsOf (A.Alphabet.meaning self.now.alphabet.now) self.now.word.now result }
    {
        let mut levels = 0;
        let mut rows = 0;
        let mut columns = [0; MOST_SYMBOLS];
        // `a` is the row's number and the symbol that its sum is multiplied by
        for a in 0..self.alphabet.size() {
            let row = self.add(a, &mut columns);
            levels = self.alphabet.sum(levels, row);
            rows = self.alphabet.sum(rows, self.alphabet.product(a, row));
        }
        Sums {
            levels,
            rows,
            columns: by_place(self.alphabet, &columns),
        }
    }
}

/// The sum of the first symbols, as many as there are in the alphabet, each times its place.
fn by_place<A: Alphabet>(alphabet: &A, symbols: &[u8; MOST_SYMBOLS]) -> u8
    ensures { let m = A.Alphabet.meaning alphabet.now in result ≡ sum_of m m.size (λ i. m.product i (slice_index symbols.now i % m.size)) }
{
    (0..alphabet.size()).zip(symbols).fold(
        0,
        |all, (i, symbol)| alphabet.sum(all, alphabet.product(i, *symbol)),
    )
}
