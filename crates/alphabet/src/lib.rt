// Alphabets and fields: what they answer, the laws that they show, and those on offer.
#![tactic(auto)]

mod binary;
mod modular;
mod polynomials;
mod primes;
mod refusals;
mod traits;

pub use binary::BinaryField;
pub use modular::Residues;
pub use primes::PrimeResidues;
pub use refusals::{Choice, Refusal};
pub use traits::{Alphabet, Field};
