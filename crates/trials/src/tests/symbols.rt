// What alphabets answer: a number of q or more counts as its remainder.
use alphabet::{Alphabet, BinaryField, Field, PrimeResidues, Residues};
use std::test::Fail;

#[test]
fn sixteen_symbols(rt: HostRuntime) -> Result<(), Fail> {
    let field = BinaryField::new(16)?;
    let residues = Residues::new(16)?;
    assert_eq!(rt; field.product(8, 2), 3);
    assert_eq!(rt; field.sum(17, 1), 0);
    assert_eq!(rt; field.negative(25), 9);
    assert_eq!(rt; field.product(17, 5), 5);
    assert_eq!(rt; field.inverse(18), Some(9));
    assert_eq!(rt; field.inverse(16), None);
    assert_eq!(rt; residues.sum(17, 14), 15);
    assert_eq!(rt; residues.negative(17), 15);
    assert_eq!(rt; residues.product(17, 7), 7);
    Ok(())
}

#[test]
fn three_symbols(rt: HostRuntime) -> Result<(), Fail> {
    let field = PrimeResidues::new(3)?;
    assert_eq!(rt; field.sum(5, 4), 0);
    assert_eq!(rt; field.negative(4), 2);
    assert_eq!(rt; field.product(5, 5), 1);
    assert_eq!(rt; field.inverse(5), Some(2));
    assert_eq!(rt; field.inverse(255), None);
    Ok(())
}
