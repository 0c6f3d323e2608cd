// How long a message is.
ghost use Rattle.std.specs.Prelude.{◌≡◌, ◌<◌, length};
ghost use Rattle.code.specs.Words.{rest};

use code::Code;

/// How many symbols a message has: one for each information cell but the first.
pub fn message_length<C: Code>(code: &C) -> usize
    ensures value { result ≡ length (rest (C.Code.meaning code.now).information) }
    ensures bound { result < 256 }
{
    code.dimension() - 1
}
