// The codes on offer as one type. Match it once, and be generic from there on.
use alphabet::{BinaryField, PrimeResidues, Residues};
use code::Bare;
use plane::Plane;

/// A code of the catalog.
#[derive(Drop)]
pub enum AnyCode {
    BareResidues(Bare<Residues>),
    BareBinary(Bare<BinaryField>),
    PlaneResidues(Plane<PrimeResidues>),
    PlaneBinary(Plane<BinaryField>),
}

/// What is done with a code, whichever it is: the same words for each.
#[macro_export]
macro_rules! with_code {
    ($chosen:expr, $code:ident => $done:expr) => {
        match $chosen {
            $crate::AnyCode::BareResidues($code) => $done,
            $crate::AnyCode::BareBinary($code) => $done,
            $crate::AnyCode::PlaneResidues($code) => $done,
            $crate::AnyCode::PlaneBinary($code) => $done,
        }
    };
}
