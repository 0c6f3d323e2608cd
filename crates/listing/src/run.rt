// A sheet on its way into its listing, line by line.
ghost use Rattle.std.specs.Prelude.{◌≡◌, ◌+◌, ◌<◌, ◌≤◌, [], length, vec_items, OnOk};

use super::refusals::Told;
use super::rows::write_row;
use std::alloc::{AllocError, Global};

/// The number of a sheet's first line.
const FIRST_LINE: usize = 1;

/// The lines of a sheet that are still to be told something, and the rows of those before them.
// A slice and no iterator: `few` bounds how many lines are left, which is a slice's length.
#[derive(Drop)]
pub(crate) struct Run<'a> {
    pub(crate) lines: &'a [&'a [u8]],
    /// The number of the first of the lines.
    pub(crate) number: usize,
    pub(crate) rows: Vec<u8>,
    ghost few: { number + length lines.now ≤ 1000000 },
}

impl<'a> Run<'a> {
    ghost use Rattle.listing.specs.Telling.{FirstLine, Tells};
    ghost use Rattle.listing.specs.Told.{told};
    ghost use Rattle.listing.specs.Rows.{Fits};

    /// The run of a sheet of these lines.
    pub(crate) fn new(heap: Global, lines: &'a [&'a [u8]]) -> Run<'a>
        requires { length lines.now ≤ 65536 }
        ensures lines { result.lines.now ≡ lines.now }
        ensures number { result.number ≡ 1 }
        ensures rows { vec_items result.rows ≡ [] }
    {
        Run {
            lines,
            number: FIRST_LINE,
            rows: Vec::new(heap),
        }
    }

    /// The line that is to be told something next.
    pub(crate) fn line(&self) -> Option<&'a [u8]>
        ensures { FirstLine self.now result }
    {
        self.lines.first().copied()
    }

    /// Tells it this, and goes to the line after it.
    // Callers that list a first line ask `some` too: a run that has told its last line is a run still, so no field holds it.
    pub(crate) fn tell(&mut self, answer: Told) -> Result<(), AllocError>
        requires some { 0 < length self.old.lines.now }
        requires fits { Fits (told answer) }
        ensures { OnOk result (Tells self.old (told answer) self.new) }
    {
        write_row(&mut self.rows, self.number, &answer)?;
        self.lines = &self.lines[1..];
        self.number += 1;
        Ok(())
    }
}
