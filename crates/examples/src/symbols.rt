// Products and inverses of a binary field.
use alphabet::{Alphabet, BinaryField, Field};
use report::Reported;
use std::io;

const SYMBOLS: usize = 16;

/// Shows two products and two inverses in the binary field of 16 symbols.
pub(crate) fn multiply_and_invert(rt: &HostRuntime) -> io::Result<()> {
    println!(rt; "example 11: binary field of {SYMBOLS}")?;
    match BinaryField::new(SYMBOLS) {
        Ok(field) => {
            show_product(rt, &field, 8, 2)?;
            show_product(rt, &field, 24, 18)?;
            show_inverse(rt, &field, 2)?;
            show_inverse(rt, &field, 0)
        }
        Err(refusal) => rt.println(Reported(&refusal)),
    }
}

fn show_product<A: Alphabet>(rt: &HostRuntime, alphabet: &A, a: u8, b: u8) -> io::Result<()> {
    let product = alphabet.product(a, b);
    println!(rt; "  {a} x {b} = {product}")
}

fn show_inverse<F: Field>(rt: &HostRuntime, field: &F, a: u8) -> io::Result<()> {
    match field.inverse(a) {
        Some(inverse) => {
            let product = field.product(a, inverse);
            println!(rt; "  inverse of {a} = {inverse}, {a} x {inverse} = {product}")
        }
        None => println!(rt; "  inverse of {a}: none"),
    }
}
