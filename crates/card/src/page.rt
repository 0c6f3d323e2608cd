// A page of a card: a floor and a level for each cell.
ghost use Rattle.std.specs.Prelude.{◌≡◌, vec_len};

/// The floors and the levels of a page, and whether it has taken a message.
#[derive(Drop)]
pub struct Page {
    // Two lists and not one of pairs: writing and reading take floors and levels as slices of bytes, as C hands levels over.
    floors: Vec<u8>,
    levels: Vec<u8>,
    // No option of the levels: they are there before the first message too, for floors and notes.
    taken: bool,
    ghost even: { vec_len levels ≡ vec_len floors },
}

mod notes;
pub(crate) mod table;
mod words;
