// A card's whole life as one call: made, floored at the bench, opened, and asked a list of calls.
#![tactic(auto)]

mod lives;
mod performs;
mod replies;
mod requests;

pub use lives::{Life, live};
pub use performs::{perform, set_floor};
pub use replies::Reply;
pub use requests::{BenchFloor, Request};
