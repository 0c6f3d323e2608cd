// The lines of a listing as bytes.
ghost use Rattle.std.specs.Prelude.{◌≡◌, ◌*◌, ◌^◌, ◌<◌, ◌≤◌, ◌++◌, length, replicate, OnOk};
ghost use Rattle.sheet.specs.Fields.{digits, pad_to};
ghost use Rattle.listing.specs.Rows.{columns as shown-columns, fields as shown_fields, row as shown-row, AllFit, Fits};
ghost use Rattle.listing.specs.Told.{granted, told};

use super::refusals::Told;
use report::Report;
use runs::Reply;
use sheet::FIELD;
use std::alloc::AllocError;

/// The columns of a line's number.
const LINE_NUMBER: usize = 6;

/// The first field of what is granted.
const GRANTED: usize = 0;

/// Puts a number at the right end of columns that hold spaces.
// No loop over `iter_mut().rev()`: its invariant has no name for the columns, and after it a proof knows only how many they are.
// No `write!` into a `String`: a field took three times as long.
fn justify(columns: &mut [u8], number: usize)
    requires spaces { columns.old ≡ replicate (length columns.old) 32 }
    requires fits { length (digits number) ≤ length columns.old }
    ensures { columns.new ≡ pad_to (length columns.old) (digits number) }
{
    if let Some((last, others)) = columns.split_last_mut() {
        // a digit fits, where `try_from` would bring an error that cannot come
        *last = b'0' + (number % 10) as u8;
        if number >= 10 {
            justify(others, number / 10);
        }
    }
}

/// Puts a number at the right end of N columns.
fn put_number<const N: usize>(out: &mut Vec<u8>, number: usize) -> Result<(), AllocError>
    requires short { N < 2 ^ 63 }
    requires fits { length (digits number) ≤ N }
    ensures { OnOk result (out.new.items ≡ out.old.items ++ pad_to N (digits number)) }
{
    let mut columns = [b' '; N];
    justify(&mut columns, number);
    out.extend_from_slice(&columns)
}

/// Puts a field for each number.
// That the numbers fit is asked for, and held by no type: the definition of listings says which answers do.
fn put_fields(out: &mut Vec<u8>, fields: &[usize]) -> Result<(), AllocError>
    requires { AllFit fields.now }
    ensures { OnOk result (out.new.items ≡ out.old.items ++ shown-columns fields.now) }
{
    for value in fields {
        put_number::<FIELD>(out, *value)?;
    }
    Ok(())
}

/// Puts each symbol at the right end of four columns that hold spaces.
fn justify_symbols(columns: &mut [u8], symbols: &[u8])
    requires { columns.old ≡ replicate (4 * length symbols.now) 32 }
    ensures { columns.new ≡ shown-columns symbols.now }
{
    // by index: of columns that are written through a `zip` a proof knows only how many they are
    for (index, symbol) in symbols.iter().enumerate() {
        let at = FIELD * index;
        justify(&mut columns[at..at + FIELD], usize::from(*symbol));
    }
}

/// Puts a field for each symbol.
// The vector grows in one step: a message has up to 255 symbols, and a field by itself at its end costs more than its digits.
fn put_symbols(out: &mut Vec<u8>, symbols: &[u8]) -> Result<(), AllocError>
    requires { length symbols.now ≤ 257 }
    ensures { OnOk result (out.new.items ≡ out.old.items ++ shown-columns symbols.now) }
{
    let start = out.len();
    out.resize(start + FIELD * symbols.len(), b' ')?;
    justify_symbols(&mut out[start..], symbols);
    Ok(())
}

/// Puts the fields of what is granted.
fn put_reply(out: &mut Vec<u8>, reply: &Reply) -> Result<(), AllocError>
    requires { Fits (granted reply.now) }
    ensures { OnOk result (out.new.items ≡ out.old.items ++ shown-columns (shown_fields (granted reply.now))) }
{
    match reply {
        Reply::Done => put_fields(out, &[GRANTED]),
        Reply::Stored { mask, forced } => {
            put_fields(out, &[GRANTED, usize::from(*mask), *forced])
        }
        Reply::Found { corrected, message } => {
            put_fields(out, &[GRANTED, *corrected])?;
            put_symbols(out, message.as_slice())
        }
        Reply::Compared { same } => put_fields(out, &[GRANTED, usize::from(*same)]),
    }
}

/// Puts the fields of what a line is told.
fn put_told(out: &mut Vec<u8>, answer: &Told) -> Result<(), AllocError>
    requires { Fits (told answer.now) }
    ensures { OnOk result (out.new.items ≡ out.old.items ++ shown-columns (shown_fields (told answer.now))) }
{
    match answer {
        Ok(reply) => put_reply(out, reply),
        Err(refusal) => put_fields(out, &[refusal.number(), refusal.layer(), refusal.place()]),
    }
}

/// Writes the listing's line of this number.
pub(crate) fn write_row(out: &mut Vec<u8>, number: usize, answer: &Told) -> Result<(), AllocError>
    requires number { number < 1000000 }
    requires fits { Fits (told answer.now) }
    ensures { OnOk result (out.new.items ≡ out.old.items ++ shown-row number (told answer.now)) }
{
    put_number::<LINE_NUMBER>(out, number)?;
    put_told(out, answer)?;
    out.push(b'\n')?;
    Ok(())
}
