// Calls with the answer that is expected of them.
use catalog::{AnyCode, Wanted};
use code::Code;
use masking::{read, write};
use report::Report;
use std::process::Abort;
use std::test::Fail;

/// The number, the layer and the place of a refusal.
pub type Refused = (usize, usize, usize);

/// The code that these numbers choose.
pub(crate) fn choose(
    alphabet: usize,
    code: usize,
    q: usize,
    n: usize,
) -> Result<AnyCode, alphabet::Refusal> {
    let wanted = Wanted {
        alphabet,
        code,
        q,
        n,
    };
    wanted.choose()
}

/// What a call refuses.
pub(crate) fn check_refused<T: Drop, R: Report + Drop>(
    rt: &impl Abort,
    res: Result<T, R>,
    refused: Refused,
) -> Result<(), Fail> {
    match res {
        Ok(_) => Err(Fail::new("granted")),
        Err(refusal) => {
            assert_eq!(rt;
                (refusal.number(), refusal.layer(), refusal.place()),
                refused
            );
            Ok(())
        },
    }
}

/// Writes a message, and expects the mask, the forced count and the word.
pub(crate) fn check_write<C: Code, const N: usize>(
    rt: &impl Abort,
    code: &C,
    floors: &[u8],
    allowance: usize,
    message: &[u8],
    expected: (u8, usize, [u8; N]),
) -> Result<(), Fail> {
    let (mask, forced, word) = expected;
    let mut page = [0; N];
    let answer = write(code, floors, allowance, message, &mut page)?;
    assert_eq!(rt; answer, (mask, forced));
    assert_eq!(rt; page, word);
    Ok(())
}

// The tests of `repetition` have their own, since tests of two crates share no code.
/// Reads a page, and expects the corrected count and the message.
pub(crate) fn check_read<C: Code, const N: usize>(
    rt: &impl Abort,
    code: &C,
    levels: &[u8],
    corrected: usize,
    message: [u8; N],
) -> Result<(), Fail> {
    let mut buffer = [0; N];
    let answer = read(code, levels, &mut buffer)?;
    assert_eq!(rt; answer, corrected);
    assert_eq!(rt; buffer, message);
    Ok(())
}
