// What is told of a card: what it is made from, its floors at the bench, and its calls in service.
use catalog::{AlphabetKind, CodeKind, Wanted};
use runs::{BenchFloor, Request};

/// The smallest Plane. Its messages have five symbols.
pub const PLANE_OF_THREE: Wanted = Wanted {
    alphabet: AlphabetKind::RESIDUES,
    code: CodeKind::PLANE,
    q: 3,
    n: 9,
};

/// Four cells of many levels. The messages have three symbols.
pub const BARE_OF_SIXTEEN: Wanted = Wanted {
    alphabet: AlphabetKind::BINARY,
    code: CodeKind::BARE,
    q: 16,
    n: 4,
};

/// A card and its life.
#[derive(Clone, Copy)]
pub struct Story<'a> {
    pub name: &'a str,
    pub wanted: Wanted,
    pub allowance: usize,
    pub pages: usize,
    pub floors: &'a [BenchFloor],
    pub calls: &'a [Request<'a>],
}
