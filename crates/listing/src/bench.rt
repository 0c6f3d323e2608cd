// The lines of a sheet whose card is at the bench.
ghost use Rattle.std.specs.Prelude.{IfOk};
ghost use Rattle.listing.specs.Serving.{AtTheBench, InUse, FloorAsked, BenchLine, BenchLines};

use super::refusals::Refusal;
use super::run::Run;
use card::Bench;
use code::Code;
use runs::{BenchFloor, Reply, set_floor};
use sheet::{Line, parse};
use std::alloc::AllocError;

/// The floor that a line asks for, or None where it asks for the opening.
fn floor_of(line: &[u8]) -> Result<Option<BenchFloor>, sheet::Refusal>
    ensures { FloorAsked line.now result }
{
    match parse(line)? {
        Line::Floor { page, cell, floor } => Ok(Some(BenchFloor {
            page: usize::from(page),
            cell: usize::from(cell),
            floor: usize::from(floor),
        })),
        Line::Open => Ok(None),
        _ => Err(sheet::Refusal::OutOfTurn),
    }
}

/// Takes the floor that a line asks for, and answers whether it asks for the opening.
fn bench_line<C: Code>(card: &mut Bench<C>, line: &[u8]) -> Result<bool, Refusal>
    ensures { BenchLine C.Code.meaning card.old line.now result card.new }
{
    let Some(floor) = floor_of(line)? else {
        return Ok(true);
    };
    set_floor(card, floor)?;
    Ok(false)
}

/// Lists the lines up to one that opens the card, and answers whether there is one.
pub(crate) fn bench_lines<C: Code>(
    card: &mut Bench<C>,
    run: &mut Run<'_>,
) -> Result<bool, AllocError>
    requires { InUse (AtTheBench C.Code.meaning) card.old }
    ensures { IfOk result (λ opened. BenchLines C.Code.meaning card.old run.old opened card.new run.new) }
{
    while let Some(line) = run.line() {
        let told = bench_line(card, line);
        let opens = told == Ok(true);
        run.tell(told.map(|_| Reply::Done))?;
        if opens {
            return Ok(true);
        }
    }
    Ok(false)
}
