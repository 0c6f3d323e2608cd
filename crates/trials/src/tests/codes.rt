// Making codes, and what a code refuses when it is called directly.
use super::expects::{check_refused, choose};
use alphabet::{BinaryField, PrimeResidues, Residues};
use catalog::AnyCode;
use code::Code;
use std::test::Fail;

#[test]
fn bare_lengths(rt: HostRuntime) -> Result<(), Fail> {
    check_refused(&rt, choose(0, 0, 3, 0), (3, 1, 0))?;
    check_refused(&rt, choose(0, 0, 3, 1), (3, 1, 1))?;
    check_refused(&rt, choose(0, 0, 3, 257), (3, 1, 257))?;
    check_refused(&rt, choose(1, 0, 16, 257), (3, 1, 257))?;
    assert!(rt; choose(0, 0, 3, 2).is_ok());
    assert!(rt; choose(0, 0, 3, 256).is_ok());
    Ok(())
}

#[test]
fn not_offered(rt: HostRuntime) -> Result<(), Fail> {
    check_refused(&rt, choose(2, 2, 17, 257), (24, 1, 1))?;
    check_refused(&rt, choose(0, 2, 17, 257), (24, 1, 2))?;
    check_refused(&rt, choose(0, 0, 17, 257), (24, 1, 3))?;
    check_refused(&rt, choose(1, 0, 6, 257), (24, 1, 3))?;
    check_refused(&rt, choose(0, 1, 4, 9), (24, 1, 3))?;
    check_refused(&rt, choose(1, 1, 4, 9), (24, 1, 4))
}

#[test]
fn sizes(rt: HostRuntime) -> Result<(), Fail> {
    check_refused(&rt, Residues::new(1), (24, 1, 3))?;
    check_refused(&rt, Residues::new(17), (24, 1, 3))?;
    check_refused(&rt, PrimeResidues::new(2), (24, 1, 3))?;
    check_refused(&rt, BinaryField::new(2), (24, 1, 3))?;
    assert!(rt; Residues::new(2).is_ok() && Residues::new(16).is_ok());
    assert!(rt; PrimeResidues::new(13).is_ok() && BinaryField::new(16).is_ok());
    Ok(())
}

#[test]
fn words_that_a_code_refuses(rt: HostRuntime) -> Result<(), Fail> {
    let AnyCode::PlaneResidues(code) = choose(0, 1, 3, 9)? else {
        return Err(Fail::new("another code"));
    };
    let mut short = [3; 8];
    check_refused(&rt, code.complete(&mut short), (13, 1, 8))?;
    check_refused(&rt, code.correct(&mut short), (13, 1, 8))?;
    assert_eq!(rt; short, [3; 8]);
    let mut word = [1, 2, 0, 0, 0, 3, 0, 9, 0];
    check_refused(&rt, code.complete(&mut word), (14, 1, 5))?;
    check_refused(&rt, code.correct(&mut word), (14, 1, 5))?;
    assert_eq!(rt; word, [1, 2, 0, 0, 0, 3, 0, 9, 0]);
    let mut far = [1, 2, 0, 0, 0, 0, 0, 0, 0];
    check_refused(&rt, code.correct(&mut far), (11, 1, 0))?;
    assert_eq!(rt; far, [1, 2, 0, 0, 0, 0, 0, 0, 0]);
    Ok(())
}
