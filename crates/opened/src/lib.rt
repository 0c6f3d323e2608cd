// A caller of a card: one page, a floor at the bench, then service and a save.
#![tactic(auto)]

ghost use Rattle.std.specs.Prelude.{◌≡◌, MatchResult};
ghost use Rattle.card.specs.declared.faults.Fault.TheVariants.{Memory};
ghost use Rattle.opened.specs.Opened.{OpenedAndSaved};

use card::{Bench, Fault, Refusal, Service};
use code::Code;
use std::alloc::Global;

/// A card of one page in service, and what its floor and its first save answered.
#[derive(Drop)]
pub struct Opened<C> {
    pub card: Service<C>,
    pub floored: Result<(), Refusal>,
    pub saved: Result<(u8, usize), Refusal>,
}

/// Makes a card of one page that forces no cell, gives a cell its floor, opens the card, and saves a message.
pub fn open_and_save<C: Code + Drop>(
    heap: Global,
    code: C,
    cell: usize,
    floor: usize,
    message: &[u8],
) -> Result<Opened<C>, Fault>
    ensures { MatchResult result (OpenedAndSaved C.Code.meaning code cell floor message.now) (λ e. e ≡ Memory) }
{
    let mut bench = Bench::new(heap, code, 0, 1)?;
    let floored = bench.set_floor(0, cell, floor);
    let mut card = bench.open();
    let saved = card.save(0, message);
    Ok(Opened {
        card,
        floored,
        saved,
    })
}
