// What the calls of a card answer where they are granted, as values.
use report::Numbers;
use std::fmt;

/// The answer to a call that is granted.
#[derive(Debug, PartialEq, Eq, Drop)]
pub enum Reply {
    /// A note is taken.
    Done,
    /// A message is saved under this mask, with so many cells forced.
    Stored { mask: u8, forced: usize },
    /// A message is read, with so many cells corrected.
    Found { corrected: usize, message: Vec<u8> },
    /// Two pages read to the same message, or do not.
    Compared { same: bool },
}

impl fmt::Display for Reply {
    fn fmt<W: fmt::Write>(&self, f: &mut fmt::Formatter<W>) -> fmt::Result {
        match self {
            Reply::Done => f.write_str("taken"),
            Reply::Stored { mask, forced } => write!(f, "mask {mask}, forced {forced}"),
            Reply::Found { corrected, message } => {
                let message = Numbers(message.as_slice());
                write!(f, "corrected {corrected}, message {message}")
            }
            Reply::Compared { same: true } => f.write_str("the same message"),
            Reply::Compared { same: false } => f.write_str("another message"),
        }
    }
}
