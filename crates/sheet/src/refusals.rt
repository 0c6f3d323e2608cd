// Why a sheet or a line of it is refused.
ghost use Rattle.sheet.specs.Refusals as shown;
ghost use Rattle.sheet.specs.Refusals.{Checked};

use report::Report;
use std::error::Error;
use std::fmt;

/// The most bytes in a sheet.
pub const LONGEST_SHEET: usize = 65_536;

/// The most bytes in a line.
pub(crate) const LONGEST_LINE: usize = 1_028;

/// Why a sheet or a line is refused.
#[derive(Clone, Copy, Debug, PartialEq, Eq)]
pub enum Refusal {
    /// The sheet is empty or too long.
    SheetLength,
    /// The line is too long.
    LineLength,
    /// The line begins with no verb.
    UnknownVerb,
    /// The last field is broken, or there are too few or too many.
    FieldCount { bytes: usize },
    /// The field that begins at this column shows no number.
    IllFormedField { column: usize },
    /// The verb comes at the wrong time.
    OutOfTurn,
}

impl Report for Refusal {
    ghost number = { shown.number };

    ghost layer = { shown.layer };

    ghost place = { shown.place };

    fn number(&self) -> usize {
        match self {
            Refusal::SheetLength => 26,
            Refusal::LineLength => 25,
            Refusal::UnknownVerb => 20,
            Refusal::FieldCount { .. } => 22,
            Refusal::IllFormedField { .. } => 21,
            Refusal::OutOfTurn => 23,
        }
    }

    fn layer(&self) -> usize {
        3
    }

    fn place(&self) -> usize {
        match self {
            Refusal::SheetLength => 0,
            Refusal::LineLength => LONGEST_LINE + 1,
            Refusal::UnknownVerb => 1,
            Refusal::FieldCount { bytes } => *bytes,
            Refusal::IllFormedField { column } => *column,
            Refusal::OutOfTurn => 1,
        }
    }
}

impl fmt::Display for Refusal {
    fn fmt<W: fmt::Write>(&self, f: &mut fmt::Formatter<W>) -> fmt::Result {
        f.write_str(match self {
            Refusal::SheetLength => "a sheet has 1 to 65536 bytes",
            Refusal::LineLength => "a line has at most 1028 bytes",
            Refusal::UnknownVerb => "the line begins with no verb",
            Refusal::FieldCount { .. } => "not as many fields as the verb takes",
            Refusal::IllFormedField { .. } => "the field shows no number",
            Refusal::OutOfTurn => "the verb comes at the wrong time",
        })
    }
}

impl Error for Refusal {}

/// Refuses a sheet that is empty or too long.
pub fn check_sheet(sheet: &[u8]) -> Result<(), Refusal>
    ensures { Checked sheet.now result }
{
    if sheet.is_empty() || sheet.len() > LONGEST_SHEET {
        return Err(Refusal::SheetLength);
    }
    Ok(())
}
