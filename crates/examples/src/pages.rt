// A page, and the steps on it.
use super::steps::{Example, Step, Writing};
use catalog::with_code;
use code::Code;
use masking::{read, write};
use report::{Numbers, Reported};
use std::io;

/// The levels of a page, and the message that was last written to it.
#[derive(Drop)]
struct Page<'a> {
    levels: Vec<u8>,
    written: Option<&'a [u8]>,
}

/// Works the examples in turn, and prints a line for each code and each step.
pub(crate) fn work_all(rt: &HostRuntime, examples: &[Example<'_>]) -> io::Result<()> {
    for example in examples {
        work(rt, example)?;
    }
    Ok(())
}

fn work(rt: &HostRuntime, example: &Example<'_>) -> io::Result<()> {
    let label = example.label;
    let wanted = example.wanted;
    print!(rt; "{label}: {wanted} -> ")?;
    match wanted.choose() {
        Ok(chosen) => with_code!(&chosen, code => take_steps(rt, code, example)),
        Err(refusal) => rt.println(Reported(&refusal)),
    }
}

fn take_steps<C: Code>(rt: &HostRuntime, code: &C, example: &Example<'_>) -> io::Result<()> {
    let information = code.dimension();
    let radius = code.radius();
    println!(rt; "taken, {information} information cells, radius {radius}")?;
    let levels = vec![in rt.alloc(); 0; example.cells]?;
    let mut page = Page {
        levels,
        written: None,
    };
    for step in example.steps {
        match *step {
            Step::Write(writing) => write_page(rt, code, writing, &mut page)?,
            Step::Change { cell, level } => change_cell(rt, cell, level, &mut page)?,
            Step::Read { room } => read_page(rt, code, &page, room)?,
        }
    }
    Ok(())
}

fn write_page<'a, C: Code>(
    rt: &HostRuntime,
    code: &C,
    writing: Writing<'a>,
    page: &mut Page<'a>,
) -> io::Result<()> {
    let message = Numbers(writing.message);
    let floors = Numbers(writing.floors);
    let allowance = writing.allowance;
    print!(rt; "  write {message}, floors {floors}, allowance {allowance} -> ")?;
    let word = page.levels.as_mut_slice();
    match write(code, writing.floors, allowance, writing.message, word) {
        Ok((mask, forced)) => {
            page.written = Some(writing.message);
            let word = Numbers(page.levels.as_slice());
            println!(rt; "mask {mask}, forced {forced}, word {word}")
        }
        Err(refusal) => rt.println(Reported(&refusal)),
    }
}

fn change_cell(rt: &HostRuntime, cell: usize, level: u8, page: &mut Page<'_>) -> io::Result<()> {
    match page.levels.get_mut(cell) {
        Some(held) => {
            *held = level;
            println!(rt; "  cell {cell} becomes {level}")
        }
        None => println!(rt; "  there is no cell {cell}"),
    }
}

fn read_page<C: Code>(rt: &HostRuntime, code: &C, page: &Page<'_>, room: usize) -> io::Result<()> {
    let levels = page.levels.as_slice();
    let shown = Numbers(levels);
    print!(rt; "  read {shown}, room for {room} -> ")?;
    let mut buffer = vec![in rt.alloc(); 0; room]?;
    match read(code, levels, buffer.as_mut_slice()) {
        Ok(corrected) => {
            let message = Numbers(buffer.as_slice());
            let verdict = compare(page.written, buffer.as_slice());
            println!(rt; "corrected {corrected}, message {message}{verdict}")
        }
        Err(refusal) => rt.println(Reported(&refusal)),
    }
}

/// What is said of the message that was read, where one was written.
fn compare(written: Option<&[u8]>, message: &[u8]) -> &'static str {
    match written {
        None => "",
        Some(sent) if sent == message => ", as written",
        Some(_) => ", not as written",
    }
}
