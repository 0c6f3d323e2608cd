// A sheet whose first line asks for a card.
ghost use Rattle.std.specs.Prelude.{◌≡◌, ◌<◌, length, OnOk};
ghost use Rattle.code.specs.Words.{rest};
ghost use Rattle.listing.specs.Serving.{AtTheBench, InUse};
ghost use Rattle.listing.specs.Sheets.{OthersListed, CardListed};

use super::bench::bench_lines;
use super::refusals::Refusal;
use super::run::Run;
use super::service::serve_lines;
use super::terms::Terms;
use card::{Bench, Fault};
use code::Code;
use masking::message_length;
use runs::Reply;
use std::alloc::{AllocError, Global};

/// Lists the first line, which asks for a card of this code, and where the card is made, the others.
pub(crate) fn list_card<C: Code + Drop>(
    heap: Global,
    code: C,
    terms: Terms,
    run: &mut Run<'_>,
) -> Result<(), AllocError>
    requires { 0 < length run.old.lines.now }
    ensures { OnOk result (CardListed (C.Code.meaning code) terms.allowance terms.pages run.old run.new) }
{
    let room = message_length(&code);
    match Bench::new(heap, code, terms.allowance, terms.pages) {
        Ok(bench) => {
            run.tell(Ok(Reply::Done))?;
            list_others(heap, bench, room, run)
        }
        // listed, where `?` would answer it
        Err(Fault::Asked { refusal }) => run.tell(Err(Refusal::Card(refusal))),
        Err(Fault::Memory) => Err(AllocError),
    }
}

/// Lists the lines after the first: those at the bench, and after the opening those in service.
fn list_others<C: Code + Drop>(
    heap: Global,
    mut bench: Bench<C>,
    room: usize,
    run: &mut Run<'_>,
) -> Result<(), AllocError>
    requires used { InUse (AtTheBench C.Code.meaning) bench }
    requires room { room ≡ length (rest (C.Code.meaning bench.code).information) }
    ensures { OnOk result (OthersListed C.Code.meaning bench run.old run.new) }
{
    if !bench_lines(&mut bench, run)? {
        return Ok(());
    }
    let mut card = bench.open();
    serve_lines(&mut card, heap, room, run)
}
