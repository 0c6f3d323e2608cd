// Reads a bench sheet from standard input and writes its listing to standard output.
#![tactic(auto)]

use listing::list;
use sheet::LONGEST_SHEET;
use std::io::{Read, Write};

/// The longest sheet and one byte more, which tells that a sheet is too long.
// `as`, since a constant calls no function
const MOST_READ: u64 = LONGEST_SHEET as u64 + 1;

fn main(rt: HostRuntime) -> anyhow::Result<()> {
    let mut sheet = Vec::new(rt.alloc());
    rt.stdin().take(MOST_READ).read_to_end(&mut sheet)?;
    let listing = list(rt.alloc(), sheet.as_slice())?;
    rt.stdout().write_all(listing.as_slice())?;
    Ok(())
}
