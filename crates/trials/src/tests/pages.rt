// Pages that are written and read back, one for each code of the catalog, with a cell changed in between. Each test wants one code,
// so it takes the choice apart.
use super::expects::{check_read, check_write, choose};
use catalog::AnyCode;
use std::test::Fail;

#[test]
fn bare_residues(rt: HostRuntime) -> Result<(), Fail> {
    let AnyCode::BareResidues(code) = choose(0, 0, 5, 6)? else {
        return Err(Fail::new("another code"));
    };
    let word = [3, 2, 1, 3, 0, 4];
    check_write(
        &rt,
        &code,
        &[0, 2, 0, 1, 0, 1],
        0,
        &[4, 3, 0, 2, 1],
        (3, 0, word),
    )?;
    check_read(&rt, &code, &word, 0, [4, 3, 0, 2, 1])?;
    check_read(&rt, &code, &[3, 2, 1, 0, 0, 4], 0, [4, 3, 2, 2, 1])
}

#[test]
fn bare_binary(rt: HostRuntime) -> Result<(), Fail> {
    let AnyCode::BareBinary(code) = choose(1, 0, 8, 4)? else {
        return Err(Fail::new("another code"));
    };
    let word = [3, 4, 6, 5];
    check_write(&rt, &code, &[3, 0, 0, 1], 0, &[7, 5, 6], (3, 0, word))?;
    check_read(&rt, &code, &word, 0, [7, 5, 6])?;
    check_read(&rt, &code, &[0, 4, 6, 5], 0, [4, 6, 5])
}

#[test]
fn plane_residues(rt: HostRuntime) -> Result<(), Fail> {
    let AnyCode::PlaneResidues(code) = choose(0, 1, 3, 9)? else {
        return Err(Fail::new("another code"));
    };
    let message = [1, 0, 0, 0, 0];
    let word = [1, 2, 0, 2, 1, 0, 0, 0, 0];
    let forced = [1, 2, 0, 2, 1, 1, 0, 0, 0];
    check_write(&rt, &code, &[0; 9], 0, &message, (0, 0, word))?;
    check_read(&rt, &code, &word, 0, message)?;
    check_read(&rt, &code, &[1, 2, 1, 2, 1, 0, 0, 0, 0], 1, message)?;
    let floors = [0, 1, 0, 0, 1, 1, 0, 0, 0];
    check_write(&rt, &code, &floors, 1, &message, (0, 1, forced))?;
    check_read(&rt, &code, &forced, 1, message)
}

/// Here the forced cell is the one that holds the mask.
#[test]
fn plane_binary(rt: HostRuntime) -> Result<(), Fail> {
    let AnyCode::PlaneBinary(code) = choose(1, 1, 4, 16)? else {
        return Err(Fail::new("another code"));
    };
    let message = [1, 2, 3, 0, 1, 2, 3, 0, 1, 2, 3, 0];
    let word = [1, 0, 0, 1, 1, 2, 3, 0, 1, 2, 3, 0, 1, 2, 3, 0];
    check_write(&rt, &code, &[0; 16], 0, &message, (0, 0, word))?;
    let changed = [1, 0, 0, 1, 1, 2, 3, 0, 1, 2, 3, 0, 1, 2, 3, 2];
    check_read(&rt, &code, &changed, 1, message)?;
    let floors = [0, 0, 3, 0, 0, 3, 0, 0, 0, 0, 0, 0, 0, 0, 0, 0];
    let forced = [0, 1, 3, 0, 0, 3, 2, 1, 0, 3, 2, 1, 0, 3, 2, 1];
    check_write(&rt, &code, &floors, 1, &message, (1, 1, forced))?;
    check_read(&rt, &code, &forced, 1, message)
}
