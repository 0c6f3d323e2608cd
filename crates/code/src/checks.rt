// What every code tests of a word before it judges it.
ghost use Rattle.code.specs.Calls.{Checked};

use alphabet::Refusal;

/// Refuses a word that has another length, then the first cell that holds no symbol.
pub fn check_word(cells: usize, size: u8, word: &[u8]) -> Result<(), Refusal>
    ensures { Checked cells size word.now result }
{
    if word.len() != cells {
        return Err(Refusal::WordLength { length: word.len() });
    }
    match word.iter().position(|symbol| *symbol >= size) {
        Some(index) => Err(Refusal::NotASymbol { index }),
        None => Ok(()),
    }
}
