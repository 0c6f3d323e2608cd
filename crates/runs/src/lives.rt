// A card's whole life.
ghost use Rattle.std.specs.Prelude.{◌≡◌, length, vec_len, MatchResult};
ghost use Rattle.card.specs.declared.faults.Fault.TheVariants.{Memory};
ghost use Rattle.card.specs.Making.{NotMade};
ghost use Rattle.runs.specs.Lived.{BenchContinuesAll, ContinuesAll, Lived};

use super::performs::{perform, set_floor};
use super::replies::Reply;
use super::requests::{BenchFloor, Request};
use card::{Bench, Fault, Refusal, Service};
use code::Code;
use std::alloc::Global;

/// A card at the end of its calls, and what they answered.
#[derive(Drop)]
pub struct Life<C> {
    pub card: Service<C>,
    pub bench: Vec<Result<(), Refusal>>,
    pub replies: Vec<Result<Reply, Refusal>>,
}

/// Makes a card of this code, gives it these floors, opens it, and makes these calls.
pub fn live<C: Code + Drop>(
    heap: Global,
    code: C,
    allowance: usize,
    pages: usize,
    floors: &[BenchFloor],
    calls: &[Request<'_>],
) -> Result<Life<C>, Fault>
    ensures { MatchResult result (Lived C.Code.meaning code allowance pages floors.now calls.now) (NotMade (C.Code.meaning code) allowance pages) }
{
    let mut card = Bench::new(heap, code, allowance, pages)?;
    let bench = take_floors(&mut card, heap, floors)?;
    let mut card = card.open();
    let replies = serve(&mut card, heap, calls)?;
    Ok(Life {
        card,
        bench,
        replies,
    })
}

/// Takes every floor in order, and gathers the answers.
fn take_floors<C: Code>(
    card: &mut Bench<C>,
    heap: Global,
    floors: &[BenchFloor],
) -> Result<Vec<Result<(), Refusal>>, Fault>
    ensures { MatchResult result (λ v. (vec_len v ≡ length floors.now) × BenchContinuesAll C.Code.meaning card.old floors.now v.items card.new) (λ e. e ≡ Memory) }
{
    let mut answers = Vec::new(heap);
    // A loop: of what a closure borrows and changes, `map` and `collect` tell a proof nothing.
    for floor in floors {
        let answer = set_floor(card, *floor);
        answers.push(answer)?;
    }
    Ok(answers)
}

/// Makes every call in order, and gathers the answers.
fn serve<C: Code>(
    card: &mut Service<C>,
    heap: Global,
    calls: &[Request<'_>],
) -> Result<Vec<Result<Reply, Refusal>>, Fault>
    ensures { MatchResult result (λ v. (vec_len v ≡ length calls.now) × ContinuesAll C.Code.meaning card.old calls.now v.items card.new) (λ e. e ≡ Memory) }
{
    let mut replies = Vec::new(heap);
    // A loop, as for the floors.
    for request in calls {
        let answer = perform(card, heap, *request)?;
        replies.push(answer)?;
    }
    Ok(replies)
}
