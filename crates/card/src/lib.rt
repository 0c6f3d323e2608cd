// A card of worn pages: at the bench it takes floors, in service saves, questions and notes.
#![tactic(auto)]

mod cards;
mod faults;
mod page;
mod refusals;

pub use cards::{Bench, Benched, Card, Service, Serving};
pub use faults::Fault;
pub use refusals::Refusal;
