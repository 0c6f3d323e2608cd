// What every layer tells of a refusal, and how refusals and lists of numbers are printed.
#![tactic(auto)]

mod lists;
mod refusals;

pub use lists::Numbers;
pub use refusals::{Report, Reported};
