// Reading a page: correcting a copy of its levels, then taking the mask off.
ghost use Rattle.std.specs.Prelude.{◌≡◌, true, length};
ghost use Rattle.code.specs.Words.{Message, Carries, rest, mask_of};
ghost use Rattle.code.specs.Calls.{Corrected};
ghost use Rattle.masking.specs.Reading.{ReadAs, ReadsOneWay};
ghost use Rattle.masking.specs.Unread.{unread_as};

use super::lengths::message_length;
use super::refusals::Refusal;
use alphabet::Alphabet;
use code::{Code, MOST_CELLS};

/// Reads a page by its levels alone: the message goes into the buffer, and the answer is how many cells were corrected.
pub fn read<C: Code>(code: &C, levels: &[u8], message: &mut [u8]) -> Result<usize, Refusal>
    ensures read { ReadAs (C.Code.meaning code.now) levels.now message.old result message.new }
    ensures one_way { ReadsOneWay (C.Code.meaning code.now) levels.now result message.new }
{
    let length = levels.len();
    if length != code.length() {
        return Err(alphabet::Refusal::WordLength { length }.into());
    }
    let room = message.len();
    let wanted = message_length(code);
    // no call on a page allocates, so the copy lies in a fixed array
    let mut scratch = [0u8; MOST_CELLS];
    let word = &mut scratch[..length];
    let answer = correct_copy(code, levels, word);
    let corrected = answer.map_err(|refusal| unread(refusal, room, wanted))?;
    if room != wanted {
        return Err(Refusal::MessageLength { length: room });
    }
    unmask(code, word, message);
    Ok(corrected)
}

/// Corrects a copy of the levels.
fn correct_copy<C: Code>(
    code: &C,
    levels: &[u8],
    copy: &mut [u8],
) -> Result<usize, alphabet::Refusal>
    requires { length copy.old ≡ length levels.now }
    ensures { Corrected (C.Code.meaning code.now) levels.now result copy.new }
{
    copy.copy_from_slice(levels);
    code.correct(copy)
}

/// A word that is too far is refused only after a buffer of another length.
fn unread(refusal: alphabet::Refusal, room: usize, wanted: usize) -> Refusal
    ensures { result ≡ unread_as refusal room wanted }
{
    match refusal {
        alphabet::Refusal::TooFar if room != wanted => Refusal::MessageLength { length: room },
        _ => refusal.into(),
    }
}

/// Takes the first information symbol of a code word off the others.
fn unmask<C: Code>(code: &C, word: &[u8], message: &mut [u8])
    requires held { (C.Code.meaning code.now).holds word.now ≡ true }
    requires room { length message.old ≡ length (rest (C.Code.meaning code.now).information) }
    ensures symbols { Message (C.Code.meaning code.now) message.new }
    ensures carries { Carries (C.Code.meaning code.now) word.now message.new }
{
    let alphabet = code.alphabet();
    let down = alphabet.negative(first_symbol(code, word));
    // a code names its information cells one by one, by index
    for (index, symbol) in message.iter_mut().enumerate() {
        if let Some(cell) = code.information_cell(index + 1) {
            *symbol = alphabet.sum(word[cell], down);
        }
    }
}

/// The symbol in the first information cell, which is the mask.
fn first_symbol<C: Code>(code: &C, word: &[u8]) -> u8
    requires { length word.now ≡ (C.Code.meaning code.now).cells }
    ensures { result ≡ mask_of (C.Code.meaning code.now) word.now }
{
    code.information_cell(0).map_or(0, |cell| word[cell])
}
