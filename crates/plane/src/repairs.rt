// Writing the check cells of a word, and mending its one wrong cell.
ghost use Rattle.std.specs.Prelude.{◌≡◌, ◌<◌, length, slice_set};
ghost use Rattle.code.specs.Words.{Word};
ghost use Rattle.code.specs.Calls.{Completes, Corrects};
ghost use Rattle.plane.specs.Plane.{plane_over};
ghost use Rattle.plane.specs.Lines.{SumsOf, Inverts};

use crate::three_sums::{Rows, Sums};
use alphabet::Alphabet;

/// Writes the three check cells: 0, 1 and the first of the second row.
fn put_checks(word: &mut [u8], q: usize, at_q: u8, at_1: u8, at_0: u8)
    requires inside { q < length word.old }
    requires apart { 1 < q }
    ensures { word.new ≡ slice_set (slice_set (slice_set word.old q at_q) 1 at_1) 0 at_0 }
{
    word[q] = at_q;
    word[1] = at_1;
    word[0] = at_0;
}

/// Sets the check cells to what makes the word a code word: the cell q is alone in the rows' sum, then 1 in the columns'.
pub(crate) fn fill_checks<A: Alphabet>(alphabet: &A, word: &mut [u8])
    requires { Word (plane_over (A.Alphabet.meaning alphabet.now)) word.old }
    ensures { Completes (plane_over (A.Alphabet.meaning alphabet.now)) word.old word.new }
{
    let q = usize::from(alphabet.size());
    put_checks(word, q, 0, 0, 0);
    let sums = Rows { alphabet, word }.sums();
    let at_q = alphabet.negative(sums.rows);
    let at_1 = alphabet.negative(sums.columns);
    let checks = alphabet.sum(at_q, at_1);
    let all = alphabet.sum(sums.levels, checks);
    let at_0 = alphabet.negative(all);
    put_checks(word, q, at_q, at_1, at_0);
}

/// Lowers the one wrong cell: the other sums divided by the levels' are its row and column, and it is too high by the levels' sum.
pub(crate) fn mend<A: Alphabet>(alphabet: &A, word: &mut [u8], sums: Sums, inverse: u8)
    requires fit { Word (plane_over (A.Alphabet.meaning alphabet.now)) word.old }
    requires summed { SumsOf (A.Alphabet.meaning alphabet.now) word.old sums }
    requires inverts { Inverts (A.Alphabet.meaning alphabet.now) sums.levels inverse }
    ensures { Corrects (plane_over (A.Alphabet.meaning alphabet.now)) word.old 1 word.new }
{
    let row = alphabet.product(sums.rows, inverse);
    let column = alphabet.product(sums.columns, inverse);
    let cell = usize::from(alphabet.size()) * usize::from(row) + usize::from(column);
    let down = alphabet.negative(sums.levels);
    let wrong = &mut word[cell];
    *wrong = alphabet.sum(*wrong, down);
}
