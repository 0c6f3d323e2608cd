// Products and remainders of polynomials over two elements, bit i the coefficient of x^i.
ghost use Rattle.std.specs.Prelude.{◌≡◌, ◌<◌, ◌^◌};
ghost use Rattle.alphabet.specs.Offers.{BinarySize};
ghost use Rattle.alphabet.specs.Binary.{term, polynomial_product, reduced_once, reduced};

/// What x^2 + x + 1, x^3 + x + 1 and x^4 + x + 1 have below their leading terms: x + 1.
const LOWER_TERMS: u8 = 3;

/// `a` times the term of `b` at x^i.
fn term(a: u8, b: u8, i: u8) -> u8
    requires factor { a < 16 }
    requires within { i < 4 }
    ensures { result ≡ term a b (2 ^ i) }
{
    (b >> i) % 2 * (a << i)
}

/// The product of two polynomials, the second of degree 3 at most.
pub(crate) fn polynomial_product(a: u8, b: u8) -> u8
    requires { a < 16 }
    ensures { result ≡ polynomial_product a b }
{
    (0..4).fold(0, |sum, i| sum ^ term(a, b, i))
}

/// `n` less `p`, if `n` reaches the bit `top` of `p`'s leading term.
fn reduced_once(top: u8, p: u8, n: u8) -> u8
    ensures { result ≡ reduced_once top p n }
{
    if n >= top { n ^ p } else { n }
}

/// The remainder of `n` by the polynomial of the field of `q` symbols.
pub(crate) fn reduced(q: u8, n: u8) -> u8
    requires { BinarySize q }
    ensures { result ≡ reduced q n }
{
    let p = q + LOWER_TERMS;
    [4, 2, 1]
        .iter()
        .fold(n, |left, k| reduced_once(k * q, k * p, left))
}
