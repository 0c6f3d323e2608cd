// The code without check cells.
ghost use Rattle.std.specs.Prelude.{◌≤◌};

/// Every word of `cells` symbols is a code word.
#[derive(Drop)]
pub struct Bare<A> {
    alphabet: A,
    cells: usize,
    ghost long: { 2 ≤ cells },
    ghost short: { cells ≤ 256 },
}

mod methods;
