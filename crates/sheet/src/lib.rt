// The lines of a bench sheet: cut at line feeds, and each one parsed.
#![tactic(auto)]

mod cutting;
mod fields;
mod parsing;
mod reading;
mod refusals;
mod verbs;

pub use cutting::{Lines, all_lines, cut_line};
pub use fields::{FIELD, field, take_field};
pub use parsing::{Line, one_reading, parse};
pub use refusals::{LONGEST_SHEET, Refusal, check_sheet};
