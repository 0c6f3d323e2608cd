// The calls that the lines of a sheet make of a card in service.
ghost use Rattle.std.specs.Prelude.{◌≡◌, []};
ghost use Rattle.listing.specs.Serving.{SymbolsShown, WholeFields, RequestAsked};

use arrayvec::ArrayVec;
use runs::Request;
use sheet::{Line, parse, take_field};

/// A bound on the symbols in a line: a line has fewer than so many fields.
const MOST_SYMBOLS: usize = 256;

/// The symbols of a save, each in a byte.
pub(crate) type Symbols = ArrayVec<u8, MOST_SYMBOLS>;

/// Adds the symbols that a save's columns show.
/// A number that is too high for a byte becomes the highest byte, which is no symbol either.
fn read_symbols(columns: &[u8], symbols: &mut Symbols)
    requires whole { WholeFields columns.now }
    requires none { symbols.old.items ≡ [] }
    ensures { SymbolsShown columns.now symbols.new.items }
{
    let mut rest = columns;
    while let Some((value, more)) = take_field(rest) {
        symbols.push(u8::try_from(value).unwrap_or(u8::MAX));
        rest = more;
    }
}

// A line's numbers have four columns and a call's any size, so they are of two types.
/// The call of a line in service. A save's symbols are kept beside it, and a read has room for so many.
pub(crate) fn request_of<'a>(
    line: &[u8],
    room: usize,
    kept: &'a mut Symbols,
) -> Result<Request<'a>, sheet::Refusal>
    requires { kept.old.items ≡ [] }
    ensures { RequestAsked room line.now result }
{
    match parse(line)? {
        Line::Save { page, symbols } => {
            read_symbols(symbols, kept);
            Ok(Request::Save {
                page: usize::from(page),
                symbols: kept.as_slice(),
            })
        }
        Line::Read { page } => Ok(Request::Read {
            page: usize::from(page),
            room,
        }),
        Line::Same { one, other } => Ok(Request::Compare {
            one: usize::from(one),
            other: usize::from(other),
        }),
        Line::Worn { page, cell, floor } => Ok(Request::Wear {
            page: usize::from(page),
            cell: usize::from(cell),
            floor: usize::from(floor),
        }),
        Line::Move { page, cell, level } => Ok(Request::Drift {
            page: usize::from(page),
            cell: usize::from(cell),
            level: usize::from(level),
        }),
        Line::Card { .. } | Line::Floor { .. } | Line::Open => Err(sheet::Refusal::OutOfTurn),
    }
}
