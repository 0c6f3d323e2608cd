// What is asked for: a code by its numbers, and the steps on a page of it.
use catalog::{AlphabetKind, CodeKind, Wanted};

/// No kind of alphabet or code has this number.
pub const UNKNOWN: usize = 2;

/// Bare of five residues of 3, from which most of what is asked for differs in a number or two.
pub const BARE_OF_THREE: Wanted = Wanted {
    alphabet: AlphabetKind::RESIDUES,
    code: CodeKind::BARE,
    q: 3,
    n: 5,
};

/// The smallest Plane. `cardlife` names it too: programs share the library alone.
pub const PLANE_OF_THREE: Wanted = Wanted {
    code: CodeKind::PLANE,
    n: 9,
    ..BARE_OF_THREE
};

/// A message for a page with these floors.
#[derive(Clone, Copy)]
pub struct Writing<'a> {
    pub floors: &'a [u8],
    pub allowance: usize,
    pub message: &'a [u8],
}

/// What is done to a page.
#[derive(Clone, Copy)]
pub enum Step<'a> {
    /// A message is written.
    Write(Writing<'a>),
    /// A cell changes by itself.
    Change { cell: usize, level: u8 },
    /// The page is read into a buffer for so many symbols.
    Read { room: usize },
}

/// Steps on a page of so many cells, all at level 0 at first.
#[derive(Clone, Copy)]
pub struct Example<'a> {
    pub label: &'a str,
    pub wanted: Wanted,
    pub cells: usize,
    pub steps: &'a [Step<'a>],
}
