// What is asked for at its limits and past them.
use super::plane_examples::{MESSAGE, SOUND};
use super::steps::{BARE_OF_THREE, Example, PLANE_OF_THREE, Step, UNKNOWN, Writing};
use catalog::{AlphabetKind, CodeKind, Wanted};

/// Codes that are made, and codes that are not on offer.
pub const ASKED_CODES: [Example<'static>; 15] = [
    Example {
        label: "1 cell",
        wanted: Wanted {
            n: 1,
            ..BARE_OF_THREE
        },
        ..NOTHING_MORE
    },
    Example {
        label: "2 cells",
        wanted: Wanted {
            n: 2,
            ..BARE_OF_THREE
        },
        ..NOTHING_MORE
    },
    Example {
        label: "256 cells",
        wanted: Wanted {
            n: 256,
            ..BARE_OF_THREE
        },
        ..NOTHING_MORE
    },
    Example {
        label: "257 cells",
        wanted: Wanted {
            n: 257,
            ..BARE_OF_THREE
        },
        ..NOTHING_MORE
    },
    Example {
        label: "unknown alphabet",
        wanted: Wanted {
            alphabet: UNKNOWN,
            ..BARE_OF_THREE
        },
        ..NOTHING_MORE
    },
    Example {
        label: "unknown code",
        wanted: Wanted {
            code: UNKNOWN,
            n: 9,
            ..BARE_OF_THREE
        },
        ..NOTHING_MORE
    },
    Example {
        label: "1 symbol",
        wanted: Wanted {
            q: 1,
            ..BARE_OF_THREE
        },
        ..NOTHING_MORE
    },
    Example {
        label: "17 symbols",
        wanted: Wanted {
            q: 17,
            ..BARE_OF_THREE
        },
        ..NOTHING_MORE
    },
    Example {
        label: "6 is no power of two",
        wanted: Wanted {
            alphabet: AlphabetKind::BINARY,
            q: 6,
            ..BARE_OF_THREE
        },
        ..NOTHING_MORE
    },
    Example {
        label: "2 are no field",
        wanted: Wanted {
            code: CodeKind::PLANE,
            q: 2,
            n: 4,
            ..BARE_OF_THREE
        },
        ..NOTHING_MORE
    },
    Example {
        label: "4 residues are no field",
        wanted: Wanted {
            code: CodeKind::PLANE,
            q: 4,
            n: 16,
            ..BARE_OF_THREE
        },
        ..NOTHING_MORE
    },
    Example {
        label: "4 as a field",
        wanted: Wanted {
            alphabet: AlphabetKind::BINARY,
            code: CodeKind::PLANE,
            q: 4,
            n: 16,
        },
        ..NOTHING_MORE
    },
    Example {
        label: "9 is not 4 x 4",
        wanted: Wanted {
            alphabet: AlphabetKind::BINARY,
            code: CodeKind::PLANE,
            q: 4,
            n: 9,
        },
        ..NOTHING_MORE
    },
    Example {
        label: "the largest",
        wanted: Wanted {
            alphabet: AlphabetKind::BINARY,
            code: CodeKind::PLANE,
            q: 16,
            n: 256,
        },
        ..NOTHING_MORE
    },
    Example {
        label: "all four are wrong",
        wanted: Wanted {
            alphabet: UNKNOWN,
            code: UNKNOWN,
            q: 17,
            n: 257,
        },
        ..NOTHING_MORE
    },
];

/// A code of which nothing more is asked.
const NOTHING_MORE: Example<'static> = Example {
    label: "",
    wanted: BARE_OF_THREE,
    cells: 0,
    steps: &[],
};

/// Pages on which everything is refused.
pub const ASKED_PAGES: [Example<'static>; 2] = [
    Example {
        label: "a page of 9 cells",
        wanted: PLANE_OF_THREE,
        cells: 9,
        steps: &[
            Step::Write(Writing {
                floors: &SOUND,
                allowance: 2,
                message: &MESSAGE,
            }),
            Step::Write(Writing {
                floors: &[0, 0, 0, 0, 0, 0, 0, 0],
                allowance: 1,
                message: &MESSAGE,
            }),
            Step::Write(Writing {
                floors: &[0, 0, 0, 0, 3, 0, 0, 5, 0],
                allowance: 1,
                message: &MESSAGE,
            }),
            Step::Write(Writing {
                floors: &SOUND,
                allowance: 1,
                message: &[1, 0, 0, 0],
            }),
            Step::Write(Writing {
                floors: &SOUND,
                allowance: 1,
                message: &[1, 0, 3, 0, 4],
            }),
            Step::Read { room: 4 },
            Step::Change { cell: 4, level: 3 },
            Step::Read { room: 5 },
        ],
    },
    Example {
        label: "a page of 8 cells",
        wanted: PLANE_OF_THREE,
        cells: 8,
        steps: &[
            Step::Write(Writing {
                floors: &SOUND,
                allowance: 1,
                message: &MESSAGE,
            }),
            Step::Read { room: 5 },
        ],
    },
];
