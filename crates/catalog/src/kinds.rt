// The kinds of alphabets and codes, by their numbers.
ghost use Rattle.alphabet.specs.declared.refusals.Choice.TheVariants as choice;
ghost use Rattle.catalog.specs.Kinds.{Named, alphabet_number, code_number};

use alphabet::{Choice, Refusal};

/// A kind of alphabet.
#[derive(Clone, Copy, Debug, PartialEq, Eq)]
pub enum AlphabetKind {
    /// The remainders by q.
    Residues,
    /// The field of q symbols that are polynomials over two elements.
    Binary,
}

impl AlphabetKind {
    /// The number of the remainders.
    pub const RESIDUES: usize = 0;

    /// The number of the binary fields.
    pub const BINARY: usize = 1;
}

impl TryFrom<usize> for AlphabetKind {
    type Error = Refusal;

    ghost try_from_gives = { Named alphabet_number choice.AlphabetKind };

    fn try_from(number: usize) -> Result<AlphabetKind, Refusal> {
        match number {
            AlphabetKind::RESIDUES => Ok(AlphabetKind::Residues),
            AlphabetKind::BINARY => Ok(AlphabetKind::Binary),
            _ => Err(Refusal::NotOffered {
                choice: Choice::AlphabetKind,
            }),
        }
    }
}

/// A kind of code.
#[derive(Clone, Copy, Debug, PartialEq, Eq)]
pub enum CodeKind {
    /// All words, no check cells.
    Bare,
    /// Rows and columns over a field, which correct one cell.
    Plane,
}

impl CodeKind {
    /// The number of Bare.
    pub const BARE: usize = 0;

    /// The number of Plane.
    pub const PLANE: usize = 1;
}

// As for alphabets: a generic impl would ask a trait for all that differs, the numbers, the kinds and the refusal.
impl TryFrom<usize> for CodeKind {
    type Error = Refusal;

    ghost try_from_gives = { Named code_number choice.CodeKind };

    fn try_from(number: usize) -> Result<CodeKind, Refusal> {
        match number {
            CodeKind::BARE => Ok(CodeKind::Bare),
            CodeKind::PLANE => Ok(CodeKind::Plane),
            _ => Err(Refusal::NotOffered {
                choice: Choice::CodeKind,
            }),
        }
    }
}
