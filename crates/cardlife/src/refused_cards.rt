// Cards at the limits of what is made, and past them.
use super::stories::{BARE_OF_SIXTEEN, PLANE_OF_THREE, Story};

/// One page and the allowance at the radius are taken; the page count is judged first.
pub const ASKED_CARDS: [Story<'static>; 6] = [
    Story {
        pages: 1,
        ..PLANE_CARD
    },
    Story {
        pages: 0,
        ..PLANE_CARD
    },
    Story {
        pages: 17,
        ..PLANE_CARD
    },
    Story {
        allowance: 2,
        ..PLANE_CARD
    },
    Story {
        allowance: 2,
        pages: 17,
        ..PLANE_CARD
    },
    Story {
        name: "Bare over the binary field of 16",
        wanted: BARE_OF_SIXTEEN,
        ..PLANE_CARD
    },
];

/// A card of which nothing is asked.
const PLANE_CARD: Story<'static> = Story {
    name: "Plane over residues of 3",
    wanted: PLANE_OF_THREE,
    allowance: 1,
    pages: 16,
    floors: &[],
    calls: &[],
};
