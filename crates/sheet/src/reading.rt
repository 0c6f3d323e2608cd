// Reading the fields of a line one after another.
ghost use Rattle.std.specs.Prelude.{◌+◌, ◌^◌, ◌<◌, length};
ghost use Rattle.sheet.specs.Steps.{Next, NumbersRead, SymbolsRead};

use crate::fields::{FIELD, take_field};
use crate::refusals::Refusal;

/// The fields of a line that are still to be read.
#[derive(Clone, Copy)]
pub(crate) struct Fields<'a> {
    pub(crate) columns: &'a [u8],
    /// The column of the line that they begin at, from 1.
    pub(crate) column: usize,
    ghost countable: { column + length columns.now < 2 ^ 64 },
}

impl<'a> Fields<'a> {
    /// The number of the next field.
    fn number(&mut self) -> Result<u16, Refusal>
        ensures { Next self.old.columns.now self.old.column result self.new.columns.now self.new.column }
    {
        let column = self.column;
        let (value, rest) = take_field(self.columns).ok_or(Refusal::IllFormedField { column })?;
        self.columns = rest;
        self.column += FIELD;
        Ok(value)
    }

    /// The numbers of the next N fields.
    pub(crate) fn numbers<const N: usize>(&mut self) -> Result<[u16; N], Refusal>
        ensures { NumbersRead N self.old.columns.now self.old.column result self.new.columns.now self.new.column }
    {
        let mut values = [0; N];
        for value in values.iter_mut() {
            *value = self.number()?;
        }
        Ok(values)
    }

    /// Refuses the first field that shows no number.
    pub(crate) fn check(mut self) -> Result<(), Refusal>
        ensures { SymbolsRead self.entry.columns.now self.entry.column result }
    {
        while !self.columns.is_empty() {
            self.number()?;
        }
        Ok(())
    }
}
