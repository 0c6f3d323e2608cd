// One call that reads a page: the handset knows the code and the levels, and no floor. `handset_c` exports it to C.
#![tactic(auto)]

ghost use Rattle.handset.specs.Answers.{Handset, ReadWanted};
ghost use Rattle.masking.specs.Reading.{ReadAs};

use catalog::{Wanted, with_code};
use code::Code;
use masking::{Refusal, read};
use report::Report;

/// A refusal is answered as its number above this, since C takes one number for both.
const REFUSED: u32 = 100;

/// Reads a page of this code into the message buffer.
/// Answers how many cells were corrected, or 100 plus the number of the refusal, which leaves the buffer as it was.
pub fn handset_read(alphabet: u32, code: u32, q: u32, levels: &[u8], message: &mut [u8]) -> u32
    ensures { Handset alphabet code q levels.now message.old result message.new }
{
    // each number fits a `usize`, for which Rust has no `From<u32>`
    let wanted = Wanted {
        alphabet: alphabet as usize,
        code: code as usize,
        q: q as usize,
        n: levels.len(),
    };
    match read_wanted(&wanted, levels, message) {
        Ok(corrected) => corrected,
        Err(refusal) => REFUSED + refusal.number() as u32,
    }
}

/// Reads a page of the code that is wanted.
fn read_wanted(wanted: &Wanted, levels: &[u8], message: &mut [u8]) -> Result<u32, Refusal>
    ensures { ReadWanted wanted.now levels.now message.old result message.new }
{
    let chosen = wanted.choose()?;
    with_code!(&chosen, code => read_page(code, levels, message))
}

/// Reads a page of one code. No more cells are corrected than a word has.
fn read_page<C: Code>(code: &C, levels: &[u8], message: &mut [u8]) -> Result<u32, Refusal>
    ensures { ReadAs (C.Code.meaning code.now) levels.now message.old result message.new }
{
    let corrected = read(code, levels, message)?;
    Ok(corrected as u32)
}
