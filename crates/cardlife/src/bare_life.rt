// The life of a card of sixteen pages that corrects no cell.
use super::stories::{BARE_OF_SIXTEEN, Story};
use runs::{BenchFloor, Request};

/// What is saved to the first page and the last.
const MESSAGE: [u8; 3] = [8, 2, 3];

const READ_LAST_PAGE: Request<'static> = Request::Read { page: 15, room: 3 };

/// The last page is worn; no cell can be forced.
pub const BARE_LIFE: Story<'static> = Story {
    name: "Bare over the binary field of 16",
    wanted: BARE_OF_SIXTEEN,
    allowance: 0,
    pages: 16,
    floors: &FLOORS,
    calls: &CALLS,
};

const FLOORS: [BenchFloor; 7] = [
    BenchFloor {
        page: 15,
        cell: 1,
        floor: 9,
    },
    BenchFloor {
        page: 15,
        cell: 2,
        floor: 6,
    },
    // a floor is replaced, here by none
    BenchFloor {
        page: 15,
        cell: 3,
        floor: 15,
    },
    BenchFloor {
        page: 15,
        cell: 3,
        floor: 0,
    },
    // there are pages 0 to 15, cells 0 to 3 and levels 0 to 15
    BenchFloor {
        page: 16,
        cell: 0,
        floor: 1,
    },
    BenchFloor {
        page: 15,
        cell: 4,
        floor: 1,
    },
    BenchFloor {
        page: 15,
        cell: 0,
        floor: 16,
    },
];

const CALLS: [Request<'static>; 18] = [
    // floors of sum 15 bear every message
    Request::Save {
        page: 15,
        symbols: &MESSAGE,
    },
    READ_LAST_PAGE,
    // a cell that drifts is not corrected, and the next save sets it right
    Request::Drift {
        page: 15,
        cell: 3,
        level: 11,
    },
    READ_LAST_PAGE,
    Request::Save {
        page: 15,
        symbols: &MESSAGE,
    },
    READ_LAST_PAGE,
    // another page with the same message, and a blank one
    Request::Save {
        page: 0,
        symbols: &MESSAGE,
    },
    Request::Compare { one: 0, other: 15 },
    Request::Compare { one: 0, other: 14 },
    // the cell moves with its floor, and the message changes
    Request::Wear {
        page: 15,
        cell: 3,
        floor: 8,
    },
    READ_LAST_PAGE,
    Request::Compare { one: 0, other: 15 },
    Request::Drift {
        page: 15,
        cell: 3,
        level: 7,
    },
    // floors of sum 23 do not bear every message
    Request::Save {
        page: 15,
        symbols: &MESSAGE,
    },
    Request::Save {
        page: 15,
        symbols: &[8, 2, 3, 0],
    },
    Request::Save {
        page: 15,
        symbols: &[8, 16, 3],
    },
    Request::Save {
        page: 15,
        symbols: &[8, 2, 9],
    },
    READ_LAST_PAGE,
];
