// A bench sheet in, its listing out.
#![tactic(auto)]

mod bench;
mod cards;
mod lists;
mod refusals;
mod requests;
mod rows;
mod run;
mod service;
mod terms;

pub use lists::list;
