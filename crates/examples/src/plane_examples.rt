// Pages of the Plane code of three symbols, which corrects one cell.
use super::steps::{Example, PLANE_OF_THREE, Step, Writing};

/// All nine cells can hold every level.
pub const SOUND: [u8; 9] = [0; 9];

/// Cells 1, 4 and 5 no longer hold level 0.
const WORN: [u8; 9] = [0, 1, 0, 0, 1, 1, 0, 0, 0];

/// What is written to the pages.
pub const MESSAGE: [u8; 5] = [1, 0, 0, 0, 0];

/// A sound page, a worn page and one that never was written; two wrong cells are refused, or read as another message.
pub const PLANE_EXAMPLES: [Example<'static>; 3] = [
    Example {
        label: "example 8",
        wanted: PLANE_OF_THREE,
        cells: 9,
        steps: &[
            Step::Write(Writing {
                floors: &SOUND,
                allowance: 0,
                message: &MESSAGE,
            }),
            Step::Read { room: 5 },
            Step::Change { cell: 2, level: 1 },
            Step::Read { room: 5 },
            Step::Change { cell: 8, level: 2 },
            Step::Read { room: 5 },
        ],
    },
    Example {
        label: "example 9",
        wanted: PLANE_OF_THREE,
        cells: 9,
        steps: &[
            Step::Write(Writing {
                floors: &WORN,
                allowance: 0,
                message: &MESSAGE,
            }),
            Step::Write(Writing {
                floors: &WORN,
                allowance: 1,
                message: &MESSAGE,
            }),
            Step::Read { room: 5 },
            Step::Change { cell: 8, level: 2 },
            Step::Read { room: 5 },
            Step::Change { cell: 8, level: 1 },
            Step::Read { room: 5 },
        ],
    },
    Example {
        label: "example 10",
        wanted: PLANE_OF_THREE,
        cells: 9,
        steps: &[
            Step::Change { cell: 0, level: 1 },
            Step::Read { room: 5 },
            Step::Change { cell: 1, level: 2 },
            Step::Read { room: 5 },
        ],
    },
];
