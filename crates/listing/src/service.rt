// The lines of a sheet whose card is in service.
ghost use Rattle.std.specs.Prelude.{IfOk, OnOk};
ghost use Rattle.listing.specs.Serving.{AtService, Goes, InUse, AllListed};
ghost use Rattle.listing.specs.Told.{told};

use super::refusals::{Refusal, Told};
use super::requests::{Symbols, request_of};
use super::run::Run;
use card::Service;
use code::Code;
use runs::perform;
use std::alloc::{AllocError, Global};

/// What a line is told.
fn serve_line<C: Code>(
    card: &mut Service<C>,
    heap: Global,
    room: usize,
    line: &[u8],
) -> Result<Told, AllocError>
    ensures { IfOk result (λ answer. Goes (AtService C.Code.meaning room) card.old line.now (told answer) card.new) }
{
    let mut symbols = Symbols::new();
    match request_of(line, room, &mut symbols) {
        Ok(request) => {
            let answer = perform(card, heap, request)?;
            Ok(answer.map_err(Refusal::Card))
        }
        // told to the line, where `?` would end the run
        Err(refusal) => Ok(Err(Refusal::Sheet(refusal))),
    }
}

/// Lists the lines.
pub(crate) fn serve_lines<C: Code>(
    card: &mut Service<C>,
    heap: Global,
    room: usize,
    run: &mut Run<'_>,
) -> Result<(), AllocError>
    requires { InUse (AtService C.Code.meaning room) card.old }
    ensures { OnOk result (AllListed (AtService C.Code.meaning room) card.old run.old card.new run.new) }
{
    while let Some(line) = run.line() {
        let answer = serve_line(card, heap, room, line)?;
        run.tell(answer)?;
    }
    Ok(())
}
