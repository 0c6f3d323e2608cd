// Three cells that should hold one symbol.
ghost use Rattle.std.specs.Prelude.{◌≡◌, length};
ghost use Rattle.repetition.specs.Repetition as shown;
ghost use Rattle.repetition.specs.Repetition.{repeated, Elected};

use crate::COPIES;

/// The symbol that most of three cells hold, and how many hold another.
#[derive(Clone, Copy)]
pub struct Majority {
    pub symbol: u8,
    pub wrong: usize,
}

/// Where the last two cells agree they outvote the first; otherwise no symbol has more cells than the first.
#[tactic(auto, using(crate::proofs::Voting::elected))]
pub(crate) fn vote(cells: &[u8]) -> Majority
    requires { length cells.now ≡ 3 }
    ensures { Elected cells.now result }
{
    let symbol = if cells[1] == cells[2] {
        cells[1]
    } else {
        cells[0]
    };
    let wrong = against(cells, symbol);
    Majority { symbol, wrong }
}

/// How many cells hold another symbol.
fn against(cells: &[u8], symbol: u8) -> usize
    ensures { result ≡ shown.against cells.now symbol }
{
    cells.iter().filter(|cell| **cell != symbol).count()
}

/// Writes two symbols, each into its three cells.
pub(crate) fn put(word: &mut [u8], first: u8, second: u8)
    requires { length word.old ≡ 6 }
    ensures { word.new ≡ repeated first second }
{
    let (one, other) = word.split_at_mut(COPIES);
    one.fill(first);
    other.fill(second);
}
