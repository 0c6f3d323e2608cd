// From four numbers to a code.
ghost use Rattle.std.specs.Prelude.{◌≡◌, ◌*◌, MatchResult, ◌≢◌};
ghost use Rattle.alphabet.specs.declared.refusals.Choice.TheVariants as choice;
ghost use Rattle.alphabet.specs.declared.refusals.Refusal.TheVariants.{NotOffered};
ghost use Rattle.catalog.specs.declared.kinds.CodeKind.TheVariants as kind;
ghost use Rattle.catalog.specs.Kinds.{meaning_of};
ghost use Rattle.catalog.specs.Offers.{Offer, Chosen};

use crate::kinds::{AlphabetKind, CodeKind};
use crate::offered::AnyCode;
use alphabet::{BinaryField, Choice, Field, PrimeResidues, Refusal, Residues};
use code::Bare;
use plane::Plane;
use std::fmt;

/// The four numbers that choose a code.
#[derive(Clone, Copy, Debug, PartialEq, Eq)]
pub struct Wanted {
    /// The number of the alphabet's kind.
    pub alphabet: usize,
    /// The number of the code's kind.
    pub code: usize,
    /// How many symbols the alphabet has.
    pub q: usize,
    /// How many cells a word has.
    pub n: usize,
}

impl Wanted {
    /// The code that these numbers choose.
    pub fn choose(&self) -> Result<AnyCode, Refusal>
        ensures { Chosen self.now.alphabet self.now.code self.now.q self.now.n (meaning_of result) }
    {
        let alphabet = AlphabetKind::try_from(self.alphabet)?;
        let code = CodeKind::try_from(self.code)?;
        match code {
            CodeKind::Bare => choose_bare(alphabet, self.q, self.n),
            CodeKind::Plane => choose_plane(alphabet, self.q, self.n),
        }
    }
}

impl fmt::Display for Wanted {
    fn fmt<W: fmt::Write>(&self, f: &mut fmt::Formatter<W>) -> fmt::Result {
        let q = self.q;
        let n = self.n;
        // by number, since a number of no kind is printed too
        match self.alphabet {
            AlphabetKind::RESIDUES => write!(f, "residues of {q}, ")?,
            AlphabetKind::BINARY => write!(f, "binary field of {q}, ")?,
            kind => write!(f, "alphabet kind {kind} of {q}, ")?,
        }
        match self.code {
            CodeKind::BARE => write!(f, "Bare, n = {n}"),
            CodeKind::PLANE => write!(f, "Plane, n = {n}"),
            kind => write!(f, "code kind {kind}, n = {n}"),
        }
    }
}

// A function for each kind of code, since each has its own rule on lengths.
fn choose_bare(alphabet: AlphabetKind, q: usize, n: usize) -> Result<AnyCode, Refusal>
    ensures { Offer alphabet q n kind.Bare (meaning_of result) }
{
    match alphabet {
        AlphabetKind::Residues => Ok(AnyCode::BareResidues(Bare::new(Residues::new(q)?, n)?)),
        AlphabetKind::Binary => Ok(AnyCode::BareBinary(Bare::new(BinaryField::new(q)?, n)?)),
    }
}

fn choose_plane(alphabet: AlphabetKind, q: usize, n: usize) -> Result<AnyCode, Refusal>
    ensures { Offer alphabet q n kind.Plane (meaning_of result) }
{
    match alphabet {
        AlphabetKind::Residues => Ok(AnyCode::PlaneResidues(square(PrimeResidues::new(q)?, n)?)),
        AlphabetKind::Binary => Ok(AnyCode::PlaneBinary(square(BinaryField::new(q)?, n)?)),
    }
}

/// The Plane code over this field, if n is the square of its size.
fn square<F: Field + Drop>(field: F, n: usize) -> Result<Plane<F>, Refusal>
    ensures { MatchResult result (λ p. (p.field ≡ field) × (n ≡ (F.Alphabet.meaning field).size * (F.Alphabet.meaning field).size)) (λ e. (e ≡ NotOffered choice.CodeLength) × (n ≢ (F.Alphabet.meaning field).size * (F.Alphabet.meaning field).size)) }
{
    let q = usize::from(field.size());
    if n == q * q {
        Ok(Plane::new(field))
    } else {
        Err(Refusal::NotOffered {
            choice: Choice::CodeLength,
        })
    }
}
