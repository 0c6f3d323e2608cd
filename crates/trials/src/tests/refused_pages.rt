// What writing and reading refuse, in the order of their checks. Each call has the faults that are looked for later too.
use super::expects::{check_refused, choose};
use catalog::AnyCode;
use masking::{read, write};
use std::test::Fail;

const SOUND: [u8; 9] = [0; 9];

/// For the message, each mask leaves one cell below its floor.
const WORN: [u8; 9] = [0, 1, 0, 0, 1, 1, 0, 0, 0];

/// Cells 4 and 7 have no symbol of three.
const NO_SYMBOLS: [u8; 9] = [0, 0, 0, 0, 3, 0, 0, 5, 0];

const MESSAGE: [u8; 5] = [1, 0, 0, 0, 0];

#[test]
fn refused_writes(rt: HostRuntime) -> Result<(), Fail> {
    let AnyCode::PlaneResidues(code) = choose(0, 1, 3, 9)? else {
        return Err(Fail::new("another code"));
    };
    let mut short = [7; 8];
    check_refused(&rt, write(&code, &[3; 8], 2, &[], &mut short), (2, 2, 2))?;
    check_refused(&rt, write(&code, &[3; 8], 1, &[], &mut short), (13, 1, 8))?;
    check_refused(
        &rt,
        write(&code, &NO_SYMBOLS, 1, &[], &mut short),
        (6, 2, 3),
    )?;
    check_refused(&rt, write(&code, &SOUND, 1, &[], &mut short), (13, 1, 8))?;
    assert_eq!(rt; short, [7; 8]);
    let mut word = [7; 9];
    check_refused(&rt, write(&code, &WORN, 0, &[4; 6], &mut word), (7, 2, 6))?;
    check_refused(
        &rt,
        write(&code, &WORN, 0, &[1, 0, 3, 4, 0], &mut word),
        (8, 2, 2),
    )?;
    check_refused(&rt, write(&code, &WORN, 0, &MESSAGE, &mut word), (9, 2, 1))?;
    assert_eq!(rt; word, [7; 9]);
    Ok(())
}

#[test]
fn refused_reads(rt: HostRuntime) -> Result<(), Fail> {
    let AnyCode::PlaneResidues(code) = choose(0, 1, 3, 9)? else {
        return Err(Fail::new("another code"));
    };
    let far = [1, 2, 0, 0, 0, 0, 0, 0, 0];
    let mut short = [7; 4];
    check_refused(&rt, read(&code, &[3; 8], &mut short), (13, 1, 8))?;
    check_refused(&rt, read(&code, &NO_SYMBOLS, &mut short), (14, 1, 4))?;
    check_refused(&rt, read(&code, &far, &mut short), (7, 2, 4))?;
    assert_eq!(rt; short, [7; 4]);
    let mut message = [7; 5];
    check_refused(&rt, read(&code, &far, &mut message), (11, 1, 0))?;
    assert_eq!(rt; message, [7; 5]);
    Ok(())
}
