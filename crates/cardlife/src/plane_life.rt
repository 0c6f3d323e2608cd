// The life of a card of two pages that corrects one cell of each.
use super::stories::{PLANE_OF_THREE, Story};
use runs::{BenchFloor, Request};

/// What both pages hold in the end.
const MESSAGE: [u8; 5] = [1, 0, 0, 0, 0];

/// What page 1 holds in between.
const OTHER: [u8; 5] = [2, 1, 0, 1, 2];

const READ_PAGE_0: Request<'static> = Request::Read { page: 0, room: 5 };

const READ_PAGE_1: Request<'static> = Request::Read { page: 1, room: 5 };

/// Page 0 is worn at the bench, page 1 in service.
pub const PLANE_LIFE: Story<'static> = Story {
    name: "Plane over residues of 3",
    wanted: PLANE_OF_THREE,
    allowance: 1,
    pages: 2,
    floors: &FLOORS,
    calls: &CALLS,
};

const FLOORS: [BenchFloor; 7] = [
    BenchFloor {
        page: 0,
        cell: 1,
        floor: 1,
    },
    // a floor is replaced, here by a lower one
    BenchFloor {
        page: 0,
        cell: 4,
        floor: 2,
    },
    BenchFloor {
        page: 0,
        cell: 4,
        floor: 1,
    },
    BenchFloor {
        page: 0,
        cell: 5,
        floor: 1,
    },
    // page, cell and level are judged in this order
    BenchFloor {
        page: 2,
        cell: 9,
        floor: 3,
    },
    BenchFloor {
        page: 0,
        cell: 9,
        floor: 3,
    },
    BenchFloor {
        page: 0,
        cell: 8,
        floor: 3,
    },
];

const CALLS: [Request<'static>; 38] = [
    // cell 5 of the worn page is forced, and read back
    READ_PAGE_0,
    Request::Save {
        page: 0,
        symbols: &MESSAGE,
    },
    READ_PAGE_0,
    Request::Read { page: 0, room: 4 },
    Request::Read { page: 2, room: 4 },
    // a second wrong cell is too much, until it is back
    Request::Drift {
        page: 0,
        cell: 8,
        level: 2,
    },
    READ_PAGE_0,
    Request::Drift {
        page: 0,
        cell: 8,
        level: 0,
    },
    READ_PAGE_0,
    // what page 0 refuses
    Request::Drift {
        page: 0,
        cell: 4,
        level: 0,
    },
    Request::Drift {
        page: 0,
        cell: 4,
        level: 3,
    },
    Request::Save {
        page: 0,
        symbols: &[1, 0, 0, 0],
    },
    Request::Save {
        page: 0,
        symbols: &[1, 0, 3, 0, 4],
    },
    Request::Save {
        page: 2,
        symbols: &[1, 0, 3, 0],
    },
    // a blank page, a page with the same message, one with another
    Request::Compare { one: 0, other: 1 },
    Request::Compare { one: 1, other: 2 },
    Request::Save {
        page: 1,
        symbols: &MESSAGE,
    },
    Request::Compare { one: 0, other: 1 },
    Request::Save {
        page: 1,
        symbols: &OTHER,
    },
    Request::Compare { one: 0, other: 1 },
    Request::Compare { one: 0, other: 2 },
    // a floor below the level moves nothing, one above it moves the cell, and a lower one leaves the floor
    Request::Wear {
        page: 1,
        cell: 8,
        floor: 1,
    },
    READ_PAGE_1,
    Request::Wear {
        page: 1,
        cell: 6,
        floor: 1,
    },
    READ_PAGE_1,
    Request::Wear {
        page: 1,
        cell: 6,
        floor: 0,
    },
    Request::Drift {
        page: 1,
        cell: 6,
        level: 0,
    },
    // floors of sum 4 bear every message
    Request::Wear {
        page: 1,
        cell: 9,
        floor: 1,
    },
    Request::Wear {
        page: 1,
        cell: 7,
        floor: 2,
    },
    Request::Save {
        page: 1,
        symbols: &OTHER,
    },
    READ_PAGE_1,
    // floors of sum 6 do not: the page is too far gone, and takes one message but not the other
    Request::Wear {
        page: 1,
        cell: 4,
        floor: 2,
    },
    READ_PAGE_1,
    Request::Compare { one: 0, other: 1 },
    Request::Save {
        page: 1,
        symbols: &OTHER,
    },
    READ_PAGE_1,
    Request::Save {
        page: 1,
        symbols: &MESSAGE,
    },
    Request::Compare { one: 1, other: 0 },
];
