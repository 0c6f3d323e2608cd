// Trials of the library from outside: its limits, its refusals, and pages that are written and read.
#![tactic(auto)]

#[cfg(test)]
mod tests;
