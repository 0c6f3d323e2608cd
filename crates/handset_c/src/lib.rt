// The one call that C links: the handset's read, under its C name. A crate is a library or one for C to link, so it stands twice.
#![tactic(auto)]

ghost use Rattle.handset.specs.Answers.{Handset};

/// Reads a page of this code into the message buffer.
/// Answers how many cells were corrected, or 100 plus the number of the refusal, which leaves the buffer as it was.
#[unsafe(no_mangle)]
pub extern "C" fn handset_read(
    alphabet: u32,
    code: u32,
    q: u32,
    levels: &[u8],
    message: &mut [u8],
) -> u32
    ensures { Handset alphabet code q levels.now message.old result message.new }
{
    handset::handset_read(alphabet, code, q, levels, message)
}
