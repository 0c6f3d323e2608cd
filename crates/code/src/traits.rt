// What a code answers, and the laws that it shows.
ghost use Rattle.std.specs.Prelude.{◌≡◌, length};
ghost use Rattle.code.specs.Words.{BlockCode};
ghost use Rattle.code.specs.Laws.{CodeLaws};
ghost use Rattle.code.specs.Calls.{item, Completed, Corrected};

use alphabet::{Alphabet, Refusal};

/// A word has at least so many cells.
pub const FEWEST_CELLS: usize = 2;
/// A word has at most so many cells.
pub const MOST_CELLS: usize = 256;

/// A block code over an alphabet of its own.
pub trait Code {
    type Symbols: Alphabet;

    ghost meaning: { Self → BlockCode };

    /// The alphabet, whose sums and products are the code's.
    fn alphabet(&self) -> &Self::Symbols
        ensures { Self.Symbols.Alphabet.meaning result.now ≡ (meaning self.now).arithmetic };

    /// How many cells a word has.
    fn length(&self) -> usize
        ensures { result ≡ (meaning self.now).cells };

    /// In how many cells a word may be wrong and still be corrected.
    fn radius(&self) -> usize
        ensures { result ≡ (meaning self.now).radius };

    /// How many information cells there are.
    fn dimension(&self) -> usize
        ensures { result ≡ length (meaning self.now).information };

    /// The information cell of this index, in ascending order, if there are so many.
    fn information_cell(&self, index: usize) -> Option<usize>
        ensures { result ≡ item (meaning self.now).information index };

    /// Sets the check cells so that the word becomes a code word.
    fn complete(&self, word: &mut [u8]) -> Result<(), Refusal>
        ensures { Completed (meaning self.now) word.old result word.new };

    /// Replaces the word by the code word within the radius, and answers in how many cells they differ.
    fn correct(&self, word: &mut [u8]) -> Result<usize, Refusal>
        ensures { Corrected (meaning self.now) word.old result word.new };

    ghost lawful: { (c : Self) → CodeLaws (meaning c) };
}
