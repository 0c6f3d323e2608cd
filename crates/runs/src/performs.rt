// Calls made from values.
ghost use Rattle.std.specs.Prelude.{◌≡◌, MatchResult};
ghost use Rattle.card.specs.History.{BenchContinues, Continues, note_answer};
ghost use Rattle.runs.specs.Told.{bench_call, call_of, answer_of, WantsMemory};

use super::replies::Reply;
use super::requests::{BenchFloor, Request};
use card::{Bench, Refusal, Service};
use code::Code;
use std::alloc::{AllocError, Global};

/// Takes a bench floor.
pub fn set_floor<C: Code>(card: &mut Bench<C>, floor: BenchFloor) -> Result<(), Refusal>
    ensures { BenchContinues C.Code.meaning card.old (bench_call floor) (note_answer result) card.new }
{
    card.set_floor(floor.page, floor.cell, floor.floor)
}

/// Makes a call: the outer error is want of memory, the inner one the card's refusal. A read's buffer is got first, so that
/// want of memory leaves the card as it was.
pub fn perform<C: Code>(
    card: &mut Service<C>,
    heap: Global,
    request: Request<'_>,
) -> Result<Result<Reply, Refusal>, AllocError>
    ensures { MatchResult result (λ a. Continues C.Code.meaning card.old (call_of request.entry) (answer_of a) card.new) (λ _. WantsMemory request.entry × (card.new ≡ card.old)) }
{
    match request {
        Request::Save { page, symbols } => {
            let saved = card.save(page, symbols);
            Ok(saved.map(|(mask, forced)| Reply::Stored { mask, forced }))
        }
        Request::Read { page, room } => {
            let mut message = vec![in heap; 0u8; room]?;
            let read = card.read(page, message.as_mut_slice());
            Ok(read.map(|corrected| Reply::Found { corrected, message }))
        }
        Request::Compare { one, other } => {
            let compared = card.compare(one, other);
            Ok(compared.map(|same| Reply::Compared { same }))
        }
        Request::Wear { page, cell, floor } => {
            Ok(card.note_wear(page, cell, floor).map(|()| Reply::Done))
        }
        Request::Drift { page, cell, level } => {
            Ok(card.note_drift(page, cell, level).map(|()| Reply::Done))
        }
    }
}
