// Works the worked examples of the rules on real pages, and asks for what is refused.
#![tactic(auto)]

mod asked;
mod bare_examples;
mod pages;
mod plane_examples;
mod steps;
mod symbols;

use asked::{ASKED_CODES, ASKED_PAGES};
use bare_examples::{BARE_EXAMPLES, TWO_WORN_CELLS};
use pages::work_all;
use plane_examples::PLANE_EXAMPLES;
use std::io;
use symbols::multiply_and_invert;
use worked::worked_examples;

fn main(rt: HostRuntime) -> io::Result<()> {
    let established = worked_examples();
    println!(rt; "The {established} worked examples, each established from the definitions too\n")?;
    work_all(&rt, &BARE_EXAMPLES)?;
    work_all(&rt, &PLANE_EXAMPLES)?;
    multiply_and_invert(&rt)?;
    work_all(&rt, &TWO_WORN_CELLS)?;
    rt.println("\nCodes that are asked for\n")?;
    work_all(&rt, &ASKED_CODES)?;
    rt.println("\nRefused on a page\n")?;
    work_all(&rt, &ASKED_PAGES)
}
