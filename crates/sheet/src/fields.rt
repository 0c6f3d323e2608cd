// Fields of four columns, each a number right-justified after spaces.
ghost use Rattle.std.specs.Prelude.{◌≡◌, ◌+◌, ◌*◌, ◌<◌, MatchOption};
ghost use Rattle.sheet.specs.Fields.{Field, IsDigit, Taken};

/// The columns of a field.
pub const FIELD: usize = 4;

/// The number that four columns show.
pub fn field(columns: &[u8; FIELD]) -> Option<u16>
    ensures { Field columns.now result }
{
    // a loop would carry whether a digit was seen yet; an arm for each number of digits is the rule itself
    match *columns {
        [b' ', b' ', b' ', b' '] => None,
        [b' ', b' ', b' ', z] => digit(z),
        [b' ', b' ', y, z] => with_digit(first_digit(y)?, z),
        [b' ', x, y, z] => with_digit(with_digit(first_digit(x)?, y)?, z),
        [w, x, y, z] => with_digit(with_digit(with_digit(first_digit(w)?, x)?, y)?, z),
    }
}

/// The digit that a column holds.
fn digit(column: u8) -> Option<u16>
    ensures { MatchOption result (IsDigit column → ⊥) (λ d. (d < 10) × (column ≡ 48 + d)) }
{
    column.is_ascii_digit().then(|| u16::from(column - b'0'))
}

/// The digit that a number of several digits begins with: no zero.
fn first_digit(column: u8) -> Option<u16>
    ensures { MatchOption result (IsDigit column → column ≡ 48) (λ d. (0 < d) × (d < 10) × (column ≡ 48 + d)) }
{
    digit(column).filter(|d| *d != 0)
}

/// The number with one digit more.
fn with_digit(number: u16, column: u8) -> Option<u16>
    requires { number < 1000 }
    ensures { MatchOption result (IsDigit column → ⊥) (λ v. IsDigit column × (v + 48 ≡ 10 * number + column)) }
{
    digit(column).map(|d| 10 * number + d)
}

/// The number in the first four columns, and the columns after them.
pub fn take_field<'a>(columns: &'a [u8]) -> Option<(u16, &'a [u8])>
    ensures { Taken columns.now result }
{
    let (first, more) = columns.split_first_chunk()?;
    let value = field(first)?;
    Some((value, more))
}
