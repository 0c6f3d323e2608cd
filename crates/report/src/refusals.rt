// What a refusal tells: a number, the layer that refuses, and a place.
ghost use Rattle.std.specs.Prelude.{◌≡◌, ℕ};

use std::fmt;

/// Why a call is refused, as the rules tell it.
// Three answers and no struct of them: the handset tells the number alone, and each layer states each by its own table.
pub trait Report {
    ghost number: { Self → ℕ };

    ghost layer: { Self → ℕ };

    ghost place: { Self → ℕ };

    /// The number of the refusal.
    fn number(&self) -> usize
        ensures { result ≡ number self.now };

    /// The layer that refuses.
    fn layer(&self) -> usize
        ensures { result ≡ layer self.now };

    /// Where the fault is, in what was given.
    fn place(&self) -> usize
        ensures { result ≡ place self.now };
}

/// A refusal, printed with its number, layer and place before its words.
#[derive(Drop)]
pub struct Reported<'a, R>(pub &'a R);

impl<R: Report + fmt::Display> fmt::Display for Reported<'_, R> {
    fn fmt<W: fmt::Write>(&self, f: &mut fmt::Formatter<W>) -> fmt::Result {
        let refusal = self.0;
        let number = refusal.number();
        let layer = refusal.layer();
        let place = refusal.place();
        write!(
            f,
            "refused {number}, layer {layer}, place {place}: {refusal}"
        )
    }
}
