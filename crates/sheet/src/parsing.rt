// What a line says: its verb, its numbers, and the symbols that it borrows from the sheet.
ghost use Rattle.std.specs.Prelude.{length};
ghost use Rattle.sheet.specs.Parsing.{Parsed};
ghost use Rattle.sheet.specs.Readings.{OneReading};
ghost use Rattle.sheet.specs.Steps.{LineRead};
ghost use Rattle.sheet.specs.Verbs.{Counted};

use crate::reading::Fields;
use crate::refusals::{LONGEST_LINE, Refusal};
use crate::verbs::{Verb, split_verb};

/// The column that a line's first field begins at, from 1.
const FIRST_FIELD: usize = 5;

/// A line of a sheet. It keeps the part of the sheet that holds its symbols.
#[derive(Clone, Copy)]
pub enum Line<'a> {
    Card {
        alphabet: u16,
        code: u16,
        q: u16,
        n: u16,
        f: u16,
        pages: u16,
    },
    Floor {
        page: u16,
        cell: u16,
        floor: u16,
    },
    Worn {
        page: u16,
        cell: u16,
        floor: u16,
    },
    Move {
        page: u16,
        cell: u16,
        level: u16,
    },
    Open,
    Read {
        page: u16,
    },
    Same {
        one: u16,
        other: u16,
    },
    Save {
        page: u16,
        symbols: &'a [u8],
    },
}

/// A line has one reading: whatever the definition of parsing grants of it says the same.
pub fn one_reading()
    ensures { OneReading }
{}

/// What a line says.
pub fn parse<'a>(line: &'a [u8]) -> Result<Line<'a>, Refusal>
    ensures { Parsed line.now result }
{
    if line.len() > LONGEST_LINE {
        return Err(Refusal::LineLength);
    }
    let (verb, columns) = split_verb(line).ok_or(Refusal::UnknownVerb)?;
    if !verb.counts(columns.len()) {
        return Err(Refusal::FieldCount { bytes: line.len() });
    }
    let fields = Fields {
        columns,
        column: FIRST_FIELD,
    };
    read_line(verb, fields)
}

/// The line of a verb and its fields.
fn read_line<'a>(verb: Verb, mut fields: Fields<'a>) -> Result<Line<'a>, Refusal>
    requires { Counted verb (length fields.columns.now) }
    ensures { LineRead verb fields.entry.columns.now fields.entry.column result }
{
    match verb {
        Verb::Card => {
            let [alphabet, code, q, n, f, pages] = fields.numbers::<6>()?;
            Ok(Line::Card {
                alphabet,
                code,
                q,
                n,
                f,
                pages,
            })
        }
        Verb::Floor => {
            let [page, cell, floor] = fields.numbers::<3>()?;
            Ok(Line::Floor { page, cell, floor })
        }
        Verb::Worn => {
            let [page, cell, floor] = fields.numbers::<3>()?;
            Ok(Line::Worn { page, cell, floor })
        }
        Verb::Move => {
            let [page, cell, level] = fields.numbers::<3>()?;
            Ok(Line::Move { page, cell, level })
        }
        Verb::Open => Ok(Line::Open),
        Verb::Read => {
            let [page] = fields.numbers::<1>()?;
            Ok(Line::Read { page })
        }
        Verb::Same => {
            let [one, other] = fields.numbers::<2>()?;
            Ok(Line::Same { one, other })
        }
        Verb::Save => {
            let [page] = fields.numbers::<1>()?;
            fields.check()?;
            Ok(Line::Save {
                page,
                symbols: fields.columns,
            })
        }
    }
}
