// The sums, products and quotients that the entries of a matrix are made of.
ghost use Rattle.std.specs.Prelude.{◌≡◌, ◌^◌, ◌≤ℤ◌, pos};
ghost use Rattle.gd_base.specs.Scales.{ONE};
ghost use Rattle.gd_quat.specs.Boxes.{ENTRY_SIZE, Fits};
ghost use Rattle.gd_quat.specs.Formulas.{balance, difference, ends, multiple, product, quotient, square, sum, total};

use gd_interval::{Iv, add, mul, quot, scale, sub};

/// The square of a component, in 2^-60.
#[inline]
pub fn squared(a: Iv) -> Iv
    requires { Fits ONE a }
    ensures ends { ends result ≡ square (ends a) }
    ensures size { Fits (2 ^ 60) result }
{
    gd_interval::square(a)
}

/// The product of two components, in 2^-60.
#[inline]
pub fn multiplied(a: Iv, b: Iv) -> Iv
    requires a { Fits ONE a }
    requires b { Fits ONE b }
    ensures ends { ends result ≡ product (ends a) (ends b) }
    ensures size { Fits (2 ^ 60) result }
{
    mul(a, b)
}

/// `a + b`.
#[inline]
pub fn sum_of(a: Iv, b: Iv) -> Iv
    requires a { Fits (2 ^ 60) a }
    requires b { Fits (2 ^ 60) b }
    ensures ends { ends result ≡ sum (ends a) (ends b) }
    ensures size { Fits (2 ^ 61) result }
{
    add(a, b)
}

/// `a - b`.
#[inline]
pub fn difference_of(a: Iv, b: Iv) -> Iv
    requires a { Fits (2 ^ 60) a }
    requires b { Fits (2 ^ 60) b }
    ensures ends { ends result ≡ difference (ends a) (ends b) }
    ensures size { Fits (2 ^ 61) result }
{
    sub(a, b)
}

/// `a + b + c + d`.
#[inline]
pub fn total_of(a: Iv, b: Iv, c: Iv, d: Iv) -> Iv
    requires a { Fits (2 ^ 60) a }
    requires b { Fits (2 ^ 60) b }
    requires c { Fits (2 ^ 60) c }
    requires d { Fits (2 ^ 60) d }
    ensures ends { ends result ≡ total (ends a) (ends b) (ends c) (ends d) }
    ensures size { Fits (2 ^ 62) result }
{
    add(sum_of(a, b), sum_of(c, d))
}

/// `a + b - c - d`.
#[inline]
pub fn balance_of(a: Iv, b: Iv, c: Iv, d: Iv) -> Iv
    requires a { Fits (2 ^ 60) a }
    requires b { Fits (2 ^ 60) b }
    requires c { Fits (2 ^ 60) c }
    requires d { Fits (2 ^ 60) d }
    ensures ends { ends result ≡ balance (ends a) (ends b) (ends c) (ends d) }
    ensures size { Fits (2 ^ 62) result }
{
    sub(sum_of(a, b), sum_of(c, d))
}

/// `2 a`.
#[inline]
pub fn twice(a: Iv) -> Iv
    requires { Fits (2 ^ 61) a }
    ensures ends { ends result ≡ multiple (ends a) (pos 2) }
    ensures size { Fits (2 ^ 62) result }
{
    scale(a, 2)
}

/// A numerator over the sum of the squares, in 2^-30.
#[inline]
pub fn entry(numerator: Iv, norm: Iv) -> Iv
    requires numerator { Fits (2 ^ 62) numerator }
    requires norm { pos (2 ^ 60) ≤ℤ norm.lo }
    ensures ends { ends result ≡ quotient (ends numerator) (ends norm) }
    ensures size { Fits ENTRY_SIZE result }
{
    quot(numerator, norm)
}
