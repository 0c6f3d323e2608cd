// What a sheet's first line asks for beside the code.
ghost use Rattle.std.specs.Prelude.{◌<◌};

use catalog::AnyCode;

/// The allowance and the page count of a card, as fields show them.
#[derive(Clone, Copy)]
pub(crate) struct Terms {
    pub(crate) allowance: usize,
    pub(crate) pages: usize,
    ghost allowance_shown: { allowance < 10000 },
    ghost pages_shown: { pages < 10000 },
}

/// The card that a first line asks for.
#[derive(Drop)]
pub(crate) struct Asked {
    pub(crate) code: AnyCode,
    pub(crate) terms: Terms,
}
