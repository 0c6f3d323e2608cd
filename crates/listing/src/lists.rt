// The listing of a sheet.
ghost use Rattle.std.specs.Prelude.{◌<◌, length, IfOk, OnOk};
ghost use Rattle.listing.specs.Listing.{Listing};
ghost use Rattle.listing.specs.Sheets.{CardAsked, SheetListed};

use super::cards::list_card;
use super::refusals::Refusal;
use super::rows::write_row;
use super::run::Run;
use super::terms::{Asked, Terms};
use catalog::{Wanted, with_code};
use sheet::{Line, all_lines, check_sheet, parse};
use std::alloc::{AllocError, Global};

/// The number under which a sheet is refused as a whole.
const NO_LINE: usize = 0;

/// The listing of a sheet: a line for each of its lines, up to a first line that is refused.
pub fn list(heap: Global, sheet: &[u8]) -> Result<Vec<u8>, AllocError>
    ensures { IfOk result (λ v. Listing sheet.now v.items) }
{
    // listed, where `?` would answer it
    if let Err(refusal) = check_sheet(sheet) {
        let mut rows = Vec::new(heap);
        write_row(&mut rows, NO_LINE, &Err(Refusal::Sheet(refusal)))?;
        return Ok(rows);
    }
    let lines = all_lines(heap, sheet)?;
    let mut run = Run::new(heap, lines.as_slice());
    list_lines(heap, &mut run)?;
    Ok(run.rows)
}

/// Lists the lines of a sheet.
fn list_lines(heap: Global, run: &mut Run<'_>) -> Result<(), AllocError>
    requires { 0 < length run.old.lines.now }
    ensures { OnOk result (SheetListed run.old run.new) }
{
    let Some(first) = run.line() else {
        return Ok(());
    };
    match card_asked(first) {
        Ok(Asked { code, terms }) => with_code!(code, code => list_card(heap, code, terms, run)),
        // listed, where `?` would answer it
        Err(refusal) => run.tell(Err(refusal)),
    }
}

/// The card that a sheet's first line asks for.
fn card_asked(first: &[u8]) -> Result<Asked, Refusal>
    ensures { CardAsked first.now result }
{
    match parse(first)? {
        Line::Card {
            alphabet,
            code,
            q,
            n,
            f,
            pages,
        } => {
            let wanted = Wanted {
                alphabet: usize::from(alphabet),
                code: usize::from(code),
                q: usize::from(q),
                n: usize::from(n),
            };
            let code = wanted.choose()?;
            let terms = Terms {
                allowance: usize::from(f),
                pages: usize::from(pages),
            };
            Ok(Asked { code, terms })
        }
        _ => Err(Refusal::Sheet(sheet::Refusal::OutOfTurn)),
    }
}
