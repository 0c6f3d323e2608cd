// What a code has once it is lawful: pages are written and cards live on it, with nothing more to prove.
ghost use Rattle.std.specs.Prelude.{◌≤◌, MatchResult};
ghost use Rattle.masking.specs.MaskingCode.{WritingMasks};
ghost use Rattle.masking.specs.Reading.{ReadAs};
ghost use Rattle.masking.specs.Writing.{WrittenAs};
ghost use Rattle.card.specs.Making.{NotMade};
ghost use Rattle.runs.specs.Lived.{Lived};
ghost use Rattle.repetition.specs.Repetition.{repetition};

use super::Repetition;
use alphabet::Alphabet;
use card::Fault;
use masking::{Refusal, read, write};
use runs::{BenchFloor, Life, Request, live};
use std::alloc::Global;

/// Writes a message into a page's word; written and read so, the words of this code are a masking code.
pub fn write_repeated<A: Alphabet>(
    code: &Repetition<A>,
    floors: &[u8],
    allowance: usize,
    message: &[u8],
    word: &mut [u8],
) -> Result<(u8, usize), Refusal>
    ensures written { WrittenAs (repetition (A.Alphabet.meaning code.now.alphabet)) floors.now allowance message.now word.old result word.new }
    ensures masking_code { allowance ≤ 1 → WritingMasks (repetition (A.Alphabet.meaning code.now.alphabet)) allowance }
{
    write(code, floors, allowance, message, word)
}

/// Reads a page by its levels alone.
pub fn read_repeated<A: Alphabet>(
    code: &Repetition<A>,
    levels: &[u8],
    message: &mut [u8],
) -> Result<usize, Refusal>
    ensures { ReadAs (repetition (A.Alphabet.meaning code.now.alphabet)) levels.now message.old result message.new }
{
    read(code, levels, message)
}

/// The whole life of a card on this code, which keeps the promise of every card.
pub fn live_repeated<A: Alphabet + Drop>(
    heap: Global,
    code: Repetition<A>,
    allowance: usize,
    pages: usize,
    floors: &[BenchFloor],
    calls: &[Request<'_>],
) -> Result<Life<Repetition<A>>, Fault>
    ensures { MatchResult result (Lived (λ s. repetition (A.Alphabet.meaning s.alphabet)) code allowance pages floors.now calls.now) (NotMade (repetition (A.Alphabet.meaning code.alphabet)) allowance pages) }
{
    live(heap, code, allowance, pages, floors, calls)
}
