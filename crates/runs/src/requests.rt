// The calls of a card as values.
use report::Numbers;
use std::fmt;

/// A floor for a cell at the bench.
#[derive(Clone, Copy, Debug, PartialEq, Eq)]
pub struct BenchFloor {
    pub page: usize,
    pub cell: usize,
    pub floor: usize,
}

/// A call of a card in service.
// Wear and drift spell out what a `BenchFloor` has: the last field's name says what the number is, a floor or a level.
#[derive(Clone, Copy, Debug, PartialEq, Eq)]
pub enum Request<'a> {
    /// Save these symbols.
    Save {
        page: usize,
        symbols: &'a [u8],
    },
    /// Read into a buffer of so many symbols.
    Read {
        page: usize,
        room: usize,
    },
    /// Do two pages read to the same message?
    Compare {
        one: usize,
        other: usize,
    },
    /// A cell's floor has risen.
    Wear {
        page: usize,
        cell: usize,
        floor: usize,
    },
    /// A cell's level has changed.
    Drift {
        page: usize,
        cell: usize,
        level: usize,
    },
}

impl fmt::Display for BenchFloor {
    fn fmt<W: fmt::Write>(&self, f: &mut fmt::Formatter<W>) -> fmt::Result {
        let BenchFloor { page, cell, floor } = self;
        write!(f, "floor {floor} at page {page}, cell {cell}")
    }
}

impl fmt::Display for Request<'_> {
    fn fmt<W: fmt::Write>(&self, f: &mut fmt::Formatter<W>) -> fmt::Result {
        match self {
            Request::Save { page, symbols } => {
                let message = Numbers(symbols);
                write!(f, "save {message} to page {page}")
            }
            Request::Read { page, room } => write!(f, "read page {page}, room for {room}"),
            Request::Compare { one, other } => write!(f, "compare pages {one} and {other}"),
            Request::Wear { page, cell, floor } => {
                write!(f, "wear at page {page}, cell {cell}, to floor {floor}")
            }
            Request::Drift { page, cell, level } => {
                write!(f, "drift at page {page}, cell {cell}, to level {level}")
            }
        }
    }
}
