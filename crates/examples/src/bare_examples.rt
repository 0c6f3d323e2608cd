// Pages of Bare codes, which correct no cell.
use super::steps::{BARE_OF_THREE, Example, Step, Writing};
use catalog::{AlphabetKind, Wanted};

/// Five pages of three symbols, then the same page of four residues and of the binary field.
pub const BARE_EXAMPLES: [Example<'static>; 7] = [
    Example {
        label: "example 1",
        wanted: BARE_OF_THREE,
        cells: 5,
        steps: &[
            Step::Write(Writing {
                floors: &[0, 1, 1, 0, 0],
                allowance: 0,
                message: &[2, 0, 1, 0],
            }),
            Step::Read { room: 4 },
            Step::Change { cell: 1, level: 2 },
            Step::Read { room: 4 },
        ],
    },
    Example {
        label: "example 2",
        wanted: Wanted {
            n: 8,
            ..BARE_OF_THREE
        },
        cells: 8,
        steps: &[
            Step::Write(Writing {
                floors: &[0, 0, 1, 0, 0, 1, 0, 0],
                allowance: 0,
                message: &[2, 0, 1, 2, 0, 1, 0],
            }),
            Step::Read { room: 7 },
            Step::Change { cell: 0, level: 2 },
            Step::Read { room: 7 },
        ],
    },
    Example {
        label: "example 3",
        wanted: BARE_OF_THREE,
        cells: 5,
        steps: &[
            Step::Write(Writing {
                floors: &[1, 1, 1, 0, 0],
                allowance: 0,
                message: &[1, 2, 0, 0],
            }),
            Step::Read { room: 4 },
        ],
    },
    Example {
        label: "example 4",
        wanted: BARE_OF_THREE,
        cells: 5,
        steps: &[
            Step::Write(Writing {
                floors: &[1, 1, 1, 0, 0],
                allowance: 0,
                message: &[1, 1, 0, 0],
            }),
            Step::Read { room: 4 },
            Step::Change { cell: 4, level: 2 },
            Step::Read { room: 4 },
        ],
    },
    Example {
        label: "example 5",
        wanted: Wanted {
            n: 2,
            ..BARE_OF_THREE
        },
        cells: 2,
        steps: &[
            Step::Write(Writing {
                floors: &[0, 2],
                allowance: 0,
                message: &[0],
            }),
            Step::Read { room: 1 },
            Step::Change { cell: 0, level: 0 },
            Step::Read { room: 1 },
        ],
    },
    Example {
        label: "example 6",
        wanted: Wanted {
            q: 4,
            n: 4,
            ..BARE_OF_THREE
        },
        cells: 4,
        steps: &[
            Step::Write(Writing {
                floors: &[1, 1, 1, 0],
                allowance: 0,
                message: &[1, 2, 3],
            }),
            Step::Read { room: 3 },
            Step::Change { cell: 3, level: 1 },
            Step::Read { room: 3 },
        ],
    },
    Example {
        label: "example 7",
        wanted: Wanted {
            alphabet: AlphabetKind::BINARY,
            q: 4,
            n: 4,
            ..BARE_OF_THREE
        },
        cells: 4,
        steps: &[
            Step::Write(Writing {
                floors: &[1, 1, 1, 0],
                allowance: 0,
                message: &[1, 2, 3],
            }),
            Step::Read { room: 3 },
            Step::Change { cell: 3, level: 1 },
            Step::Read { room: 3 },
        ],
    },
];

/// Two worn cells of three symbols. Their floors sum to 3, so that a write can be refused.
pub const TWO_WORN_CELLS: [Example<'static>; 1] = [Example {
    label: "two worn cells",
    wanted: Wanted {
        n: 2,
        ..BARE_OF_THREE
    },
    cells: 2,
    steps: &[Step::Write(Writing {
        floors: &[2, 1],
        allowance: 0,
        message: &[1],
    })],
}];
