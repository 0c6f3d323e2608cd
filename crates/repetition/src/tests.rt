// A page and a card over three residues: the message 2 is written as 0 0 0 2 2 2 under the mask 0.
use super::{Repetition, live_repeated, read_repeated, write_repeated};
use alphabet::Residues;
use report::Report;
use runs::{BenchFloor, Reply, Request};
use std::process::Abort;
use std::test::Fail;

fn code() -> Result<Repetition<Residues>, Fail> {
    Ok(Repetition::new(Residues::new(3)?))
}

fn check_read(
    rt: &impl Abort,
    levels: &[u8],
    corrected: usize,
    message: [u8; 1],
) -> Result<(), Fail> {
    let mut buffer = [0; 1];
    let answer = read_repeated(&code()?, levels, &mut buffer)?;
    assert_eq!(rt; answer, corrected);
    assert_eq!(rt; buffer, message);
    Ok(())
}

/// Each mask leaves one cell unmet, so the lowest is taken and that cell forced.
#[test]
fn a_worn_page(rt: HostRuntime) -> Result<(), Fail> {
    let mut word = [0; 6];
    let written = write_repeated(&code()?, &[1, 0, 0, 2, 0, 0], 1, &[2], &mut word)?;
    assert_eq!(rt; written, (0, 1));
    assert_eq!(rt; word, [1, 0, 0, 2, 2, 2]);
    check_read(&rt, &word, 1, [2])?;
    check_read(&rt, &[1, 1, 1, 0, 0, 0], 0, [2])?;
    check_read(&rt, &[1, 1, 1, 0, 2, 0], 1, [2])?;
    let mut buffer = [0; 1];
    let answer = read_repeated(&code()?, &[1, 0, 0, 2, 2, 1], &mut buffer);
    assert_eq!(rt; answer.map_err(|refusal| refusal.number()), Err(11));
    Ok(())
}

/// Under the mask 1 the word 1 1 1 0 0 0 meets the floor. The cell that drifts is corrected.
#[test]
fn a_card(rt: HostRuntime) -> Result<(), Fail> {
    let floors = [BenchFloor {
        page: 0,
        cell: 0,
        floor: 1,
    }];
    let calls = [
        Request::Save {
            page: 0,
            symbols: &[2],
        },
        Request::Drift {
            page: 0,
            cell: 4,
            level: 2,
        },
        Request::Read { page: 0, room: 1 },
    ];
    let life = live_repeated(rt.alloc(), code()?, 0, 1, &floors, &calls)?;
    let found = Reply::Found {
        corrected: 1,
        message: vec![in rt.alloc(); 2]?,
    };
    assert_eq!(rt; life.replies.last(), Some(&Ok(found)));
    Ok(())
}
