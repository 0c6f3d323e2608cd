// The codes on offer, chosen by numbers.
#![tactic(auto)]

mod kinds;
mod offered;
mod wanted;

pub use kinds::{AlphabetKind, CodeKind};
pub use offered::AnyCode;
pub use wanted::Wanted;
