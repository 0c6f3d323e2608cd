// Lives the lives of two cards, from the making to the last call, and asks for cards that are not made.
#![tactic(auto)]

mod bare_life;
mod lives;
mod plane_life;
mod refused_cards;
mod stories;

use bare_life::BARE_LIFE;
use lives::{tell, tell_all};
use plane_life::PLANE_LIFE;
use refused_cards::ASKED_CARDS;
use std::io;

/// What the call promises.
const PROMISE: &str =
    "Each life is one call, live: it promises that floors, levels and answers follow the ledger of its calls.";

fn main(rt: HostRuntime) -> io::Result<()> {
    rt.println("Lives of cards\n")?;
    rt.println(PROMISE)?;
    rt.println("")?;
    tell(&rt, &PLANE_LIFE)?;
    rt.println("")?;
    tell(&rt, &BARE_LIFE)?;
    rt.println("\nCards that are asked for\n")?;
    tell_all(&rt, &ASKED_CARDS)
}
