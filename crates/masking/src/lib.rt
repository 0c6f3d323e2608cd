// Masking: a message written into the word of a worn page, and read back by its levels alone.
#![tactic(auto)]

mod lengths;
mod reading;
mod refusals;
mod writing;

pub use lengths::message_length;
pub use reading::read;
pub use refusals::Refusal;
pub use writing::write;
