// Writing a page: the mask that leaves the fewest cells below their floors, and those cells forced.
ghost use Rattle.std.specs.Prelude.{◌≡◌, ℕ, ◌<◌, ◌≤◌, true, List, ◌∷◌, length, MatchResult};
ghost use Rattle.code.specs.Words.{Filled, Word, Message, symbols_at};
ghost use Rattle.masking.specs.Floors.{unmet, raised};
ghost use Rattle.masking.specs.MaskingCode.{WritingMasks};
ghost use Rattle.masking.specs.Shifts.{shift, FewestBelow};
ghost use Rattle.masking.specs.Unwritten.{unfit_floors, unfit_message};
ghost use Rattle.masking.specs.Writing.{Page, NoMessage, Unwritable, WrittenAs, RefusedExactly, GrantedWhileFewLost, ForcedLeast};

use super::lengths::message_length;
use super::refusals::Refusal;
use alphabet::Alphabet;
use code::{Code, MOST_CELLS, check_word};

/// Writes a message into a page's word: the mask that leaves the fewest cells below their floors, lowest first, and those
/// cells raised to their floors. Answers the mask and how many cells were forced.
pub fn write<C: Code>(
    code: &C,
    floors: &[u8],
    allowance: usize,
    message: &[u8],
    word: &mut [u8],
) -> Result<(u8, usize), Refusal>
    ensures written { WrittenAs (C.Code.meaning code.now) floors.now allowance message.now word.old result word.new }
    ensures refused_exactly { RefusedExactly (C.Code.meaning code.now) floors.now allowance message.now word.old result }
    ensures granted_while_few_lost { GrantedWhileFewLost (C.Code.meaning code.now) floors.now allowance message.now word.old result }
    ensures forced_least { ForcedLeast (C.Code.meaning code.now) floors.now message.now result word.new }
    ensures masking_code { allowance ≤ (C.Code.meaning code.now).radius → WritingMasks (C.Code.meaning code.now) allowance }
{
    write_lowest(code, floors, allowance, message, word)
}

/// What `write` does, with the one clause from which the others follow.
// Not one with `write`: its five clauses would each be proved at four returns.
fn write_lowest<C: Code>(
    code: &C,
    floors: &[u8],
    allowance: usize,
    message: &[u8],
    word: &mut [u8],
) -> Result<(u8, usize), Refusal>
    ensures { WrittenAs (C.Code.meaning code.now) floors.now allowance message.now word.old result word.new }
{
    check_page(code, floors, allowance, word.len())?;
    check_message(code, message)?;
    // no call on a page allocates, so the word lies in a fixed array
    let mut scratch = [0u8; MOST_CELLS];
    let base = &mut scratch[..code.length()];
    unmasked_word(code, message, base);
    let unmasked = Unmasked {
        alphabet: code.alphabet(),
        word: base,
        floors,
    };
    let (mask, forced) = unmasked.fewest_unmet();
    if forced > allowance {
        return Err(Refusal::NoMask { fewest: forced });
    }
    unmasked.raise(mask, word);
    Ok((mask, forced))
}

/// Refuses a page that cannot be written.
fn check_page<C: Code>(
    code: &C,
    floors: &[u8],
    allowance: usize,
    room: usize,
) -> Result<(), Refusal>
    ensures { MatchResult result (λ _. Page (C.Code.meaning code.now) floors.now allowance room) (λ e. (message : List ℕ) → Unwritable (C.Code.meaning code.now) floors.now allowance message room e) }
{
    if allowance > code.radius() {
        return Err(Refusal::Allowance { allowance });
    }
    let cells = code.length();
    check_word(cells, code.alphabet().size(), floors).map_err(|refusal| unfit_floors(
        refusal, floors,
    ))?;
    if room != cells {
        return Err(alphabet::Refusal::WordLength { length: room }.into());
    }
    Ok(())
}

/// A floor that is no symbol is refused by its number.
fn unfit_floors(refusal: alphabet::Refusal, floors: &[u8]) -> Refusal
    ensures { result ≡ unfit_floors refusal floors.now }
{
    match refusal {
        alphabet::Refusal::NotASymbol { index } if index < floors.len() => Refusal::Floor {
            floor: usize::from(floors[index]),
        },
        _ => refusal.into(),
    }
}

/// Refuses a message that the code's words do not carry.
fn check_message<C: Code>(code: &C, message: &[u8]) -> Result<(), Refusal>
    ensures { MatchResult result (λ _. Message (C.Code.meaning code.now) message.now) (NoMessage (C.Code.meaning code.now) message.now) }
{
    let size = code.alphabet().size();
    check_word(message_length(code), size, message).map_err(unfit_message)
}

/// A message that is no list of so many symbols is refused as a message.
fn unfit_message(refusal: alphabet::Refusal) -> Refusal
    ensures { result ≡ unfit_message refusal }
{
    match refusal {
        alphabet::Refusal::WordLength { length } => Refusal::MessageLength { length },
        alphabet::Refusal::NotASymbol { index } => Refusal::MessageSymbol { index },
        _ => refusal.into(),
    }
}

/// The code word of a message under mask 0, and the floors that its shifts are to meet.
#[derive(Drop)]
struct Unmasked<'a, A: Alphabet> {
    alphabet: &'a A,
    word: &'a [u8],
    floors: &'a [u8],
    ghost filled: { Filled (length floors.now) (A.Alphabet.meaning alphabet.now).size word.now },
}

impl<'a, A: Alphabet> Unmasked<'a, A> {
    /// How many cells are below their floors once the mask is added to all.
    fn count_unmet(&self, mask: u8) -> usize
        requires { mask < (A.Alphabet.meaning self.now.alphabet.now).size }
        ensures { result ≡ unmet self.now.floors.now (shift (A.Alphabet.meaning self.now.alphabet.now) mask self.now.word.now) }
    {
        // `filter` and `count` in place of the sum take up to twice as long
        self.word
            .iter()
            .zip(self.floors)
            .map(|(symbol, floor)| usize::from(self.alphabet.sum(*symbol, mask) < *floor))
            .sum()
    }

    /// The lowest of the masks that leave the fewest cells below their floors, and how many those are.
    fn fewest_unmet(&self) -> (u8, usize)
        ensures { FewestBelow (A.Alphabet.meaning self.now.alphabet.now) self.now.floors.now self.now.word.now (A.Alphabet.meaning self.now.alphabet.now).size result.0 result.1 }
    {
        let mut best = 0;
        let mut fewest = self.count_unmet(0);
        for mask in 1..self.alphabet.size() {
            // no mask leaves fewer than none, where `min_by_key` would go on
            if fewest == 0 {
                return (best, fewest);
            }
            let count = self.count_unmet(mask);
            if count < fewest {
                best = mask;
                fewest = count;
            }
        }
        (best, fewest)
    }

    /// Writes the word with the mask added to all cells, and those below their floors raised to them.
    fn raise(&self, mask: u8, page: &mut [u8])
        requires mask { mask < (A.Alphabet.meaning self.now.alphabet.now).size }
        requires room { length page.old ≡ length self.now.floors.now }
        ensures { page.new ≡ raised self.now.floors.now (shift (A.Alphabet.meaning self.now.alphabet.now) mask self.now.word.now) }
    {
        // of a page written through a `zip` of its `iter_mut()` the check learns its length alone
        for (cell, level) in page.iter_mut().enumerate() {
            *level = self.floors[cell].max(self.alphabet.sum(self.word[cell], mask));
        }
    }
}

/// The code word that carries the message under mask 0.
fn unmasked_word<C: Code>(code: &C, message: &[u8], word: &mut [u8])
    requires whole { length word.old ≡ (C.Code.meaning code.now).cells }
    requires symbols { Message (C.Code.meaning code.now) message.now }
    ensures held { (C.Code.meaning code.now).holds word.new ≡ true }
    ensures information { symbols_at word.new (C.Code.meaning code.now).information ≡ 0 ∷ message.now }
{
    place_message(code, message, word);
    let _ = code.complete(word);
}

/// Puts the message into the information cells after the first, and 0 into all other cells.
fn place_message<C: Code>(code: &C, message: &[u8], word: &mut [u8])
    requires whole { length word.old ≡ (C.Code.meaning code.now).cells }
    requires symbols { Message (C.Code.meaning code.now) message.now }
    ensures filled { Word (C.Code.meaning code.now) word.new }
    ensures information { symbols_at word.new (C.Code.meaning code.now).information ≡ 0 ∷ message.now }
{
    word.fill(0);
    // a code names its information cells one by one, by index
    for (index, symbol) in message.iter().enumerate() {
        if let Some(cell) = code.information_cell(index + 1) {
            word[cell] = *symbol;
        }
    }
}
