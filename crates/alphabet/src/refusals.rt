// The refusals of alphabets and codes, which are one layer.
ghost use Rattle.std.specs.Prelude.{◌≡◌};
ghost use Rattle.alphabet.specs.Refusals as shown;

use report::Report;
use std::error::Error;
use std::fmt;

/// One of the four numbers that choose an alphabet and a code.
#[derive(Clone, Copy, Debug, PartialEq, Eq)]
pub enum Choice {
    AlphabetKind,
    CodeKind,
    AlphabetSize,
    CodeLength,
}

impl Choice {
    /// Its place among the four, from 1.
    pub fn ordinal(&self) -> usize
        ensures { result ≡ shown.ordinal self.now }
    {
        match self {
            Choice::AlphabetKind => 1,
            Choice::CodeKind => 2,
            Choice::AlphabetSize => 3,
            Choice::CodeLength => 4,
        }
    }
}

/// Why a call of an alphabet or a code is refused.
#[derive(Clone, Copy, Debug, PartialEq, Eq)]
pub enum Refusal {
    /// The first number that chooses nothing on offer.
    NotOffered { choice: Choice },
    /// A Bare code takes no such length.
    BareLength { length: usize },
    /// No code word is within the radius.
    TooFar,
    /// The word has another length than the code's words.
    WordLength { length: usize },
    /// The first cell that holds no symbol.
    NotASymbol { index: usize },
}

impl Report for Refusal {
    ghost number = { shown.number };

    ghost layer = { shown.layer };

    ghost place = { shown.place };

    fn number(&self) -> usize {
        match self {
            Refusal::NotOffered { .. } => 24,
            Refusal::BareLength { .. } => 3,
            Refusal::TooFar => 11,
            Refusal::WordLength { .. } => 13,
            Refusal::NotASymbol { .. } => 14,
        }
    }

    fn layer(&self) -> usize {
        1
    }

    fn place(&self) -> usize {
        match self {
            Refusal::NotOffered { choice } => choice.ordinal(),
            Refusal::BareLength { length } => *length,
            Refusal::TooFar => 0,
            Refusal::WordLength { length } => *length,
            Refusal::NotASymbol { index } => *index,
        }
    }
}

impl fmt::Display for Choice {
    fn fmt<W: fmt::Write>(&self, f: &mut fmt::Formatter<W>) -> fmt::Result {
        f.write_str(match self {
            Choice::AlphabetKind => "no such kind of alphabet",
            Choice::CodeKind => "no such kind of code",
            Choice::AlphabetSize => "no such alphabet for this code",
            Choice::CodeLength => "no such length for this code",
        })
    }
}

impl fmt::Display for Refusal {
    fn fmt<W: fmt::Write>(&self, f: &mut fmt::Formatter<W>) -> fmt::Result {
        match self {
            Refusal::NotOffered { choice } => write!(f, "{choice}"),
            Refusal::BareLength { .. } => f.write_str("a Bare word has 2 to 256 cells"),
            Refusal::TooFar => f.write_str("no code word is within the radius"),
            Refusal::WordLength { .. } => f.write_str("not as long as the code's words"),
            Refusal::NotASymbol { .. } => f.write_str("a cell holds no symbol"),
        }
    }
}

impl Error for Refusal {}
