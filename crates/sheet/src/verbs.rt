// The verbs of a sheet's lines, and how many fields follow each.
ghost use Rattle.sheet.specs.Verbs.{Begins, Counted, Tells};

use crate::fields::FIELD;

/// What a line begins with.
#[derive(Clone, Copy)]
pub enum Verb {
    Card,
    Floor,
    Worn,
    Move,
    Open,
    Read,
    Same,
    Save,
}

impl Verb {
    /// Whether so many bytes after the verb are as many fields as it takes, none of them broken.
    pub(crate) fn counts(self, bytes: usize) -> bool
        ensures { Tells result (Counted self bytes) }
    {
        let fields = bytes / FIELD;
        bytes.is_multiple_of(FIELD)
            && match self {
                Verb::Card => fields == 6,
                Verb::Floor | Verb::Worn | Verb::Move => fields == 3,
                Verb::Open => fields == 0,
                Verb::Read => fields == 1,
                Verb::Same => fields == 2,
                Verb::Save => fields >= 1,
            }
    }
}

/// The verb of a line, and the columns after it: one pattern names the four bytes and what follows.
#[tactic(auto, using(crate::proofs::Shown::front_is))]
pub(crate) fn split_verb<'a>(line: &'a [u8]) -> Option<(Verb, &'a [u8])>
    ensures { Begins line.now result }
{
    match line {
        [b'C', b'A', b'R', b'D', rest @ ..] => Some((Verb::Card, rest)),
        [b'F', b'L', b'O', b'R', rest @ ..] => Some((Verb::Floor, rest)),
        [b'W', b'O', b'R', b'N', rest @ ..] => Some((Verb::Worn, rest)),
        [b'M', b'O', b'V', b'E', rest @ ..] => Some((Verb::Move, rest)),
        [b'O', b'P', b'E', b'N', rest @ ..] => Some((Verb::Open, rest)),
        [b'R', b'E', b'A', b'D', rest @ ..] => Some((Verb::Read, rest)),
        [b'S', b'A', b'M', b'E', rest @ ..] => Some((Verb::Same, rest)),
        [b'S', b'A', b'V', b'E', rest @ ..] => Some((Verb::Save, rest)),
        _ => None,
    }
}
