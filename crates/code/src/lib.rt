// Codes: what a code answers and the laws that it shows; the code without check cells.
#![tactic(auto)]

mod bare_code;
mod checks;
mod traits;

pub use bare_code::Bare;
pub use checks::check_word;
pub use traits::{Code, MOST_CELLS};
