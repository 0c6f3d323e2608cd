// Lists of numbers as they are printed.
use std::fmt;

/// A list of numbers, printed with a space between two.
#[derive(Drop)]
pub struct Numbers<'a>(pub &'a [u8]);

impl fmt::Display for Numbers<'_> {
    fn fmt<W: fmt::Write>(&self, f: &mut fmt::Formatter<W>) -> fmt::Result {
        let mut gap = "";
        for number in self.0 {
            write!(f, "{gap}{number}")?;
            gap = " ";
        }
        Ok(())
    }
}
