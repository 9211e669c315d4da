ghost use Rattle.std.specs.Prelude.{◌<◌, ◌≤◌, ◌^◌, pos, ◌≤ℤ◌, ◌<ℤ◌, unsigned_abs};

use crate::directions::Point;
use crate::draws::{Drawn, Draws};
use gd_int::{cmp_root, isqrt_floor};
use gd_interval::{Iv, between, mul, quot, root};
use std::cmp::Ordering;

/// The arguments of one call.
pub trait Row {
    /// What the call answers, as two numbers. Only a direction takes the points.
    fn answer(&self, points: &[Point]) -> (i128, i128);
}

/// Two intervals to be multiplied.
#[derive(Clone, Copy)]
pub struct Factors {
    a: Iv,
    b: Iv,
    ghost a_lo: { unsigned_abs a.lo ≤ 2 ^ 62 },
    ghost a_hi: { unsigned_abs a.hi ≤ 2 ^ 62 },
    ghost b_lo: { unsigned_abs b.lo ≤ 2 ^ 62 },
    ghost b_hi: { unsigned_abs b.hi ≤ 2 ^ 62 },
}

impl Drawn for Factors {
    fn draw(draws: &mut Draws) -> Factors {
        let a = draws.interval();
        let b = draws.interval();
        Factors { a, b }
    }
}

impl Row for Factors {
    #[inline(always)]
    fn answer(&self, _points: &[Point]) -> (i128, i128) {
        let it = mul(self.a, self.b);
        (it.lo, it.hi)
    }
}

/// An interval, and one above 0 by which it is divided. Both have the size of the entries of a rotation.
#[derive(Clone, Copy)]
pub struct Fraction {
    n: Iv,
    d: Iv,
    ghost n_lo: { unsigned_abs n.lo ≤ 2 ^ 62 },
    ghost n_hi: { unsigned_abs n.hi ≤ 2 ^ 62 },
    ghost positive: { pos 0 <ℤ d.lo },
}

impl Drawn for Fraction {
    fn draw(draws: &mut Draws) -> Fraction {
        let n = draws.interval();
        let lo = draws.wide() + 1_152_921_504_606_846_976;
        let d = between(lo, lo + draws.wide());
        Fraction { n, d }
    }
}

impl Row for Fraction {
    #[inline(always)]
    fn answer(&self, _points: &[Point]) -> (i128, i128) {
        let it = quot(self.n, self.d);
        (it.lo, it.hi)
    }
}

/// An interval of numbers that have roots, of any size below 2^126.
#[derive(Clone, Copy)]
pub struct Square {
    it: Iv,
    ghost sign: { pos 0 ≤ℤ it.lo },
    ghost size: { unsigned_abs it.hi < 2 ^ 126 },
}

impl Drawn for Square {
    fn draw(draws: &mut Draws) -> Square {
        let high = draws.wide();
        let lo = high * 4_611_686_018_427_387_904 + draws.wide();
        let width = draws.wide() * 4_611_686_018_427_387_904;
        Square {
            it: between(lo, lo + width),
        }
    }
}

impl Row for Square {
    #[inline(always)]
    fn answer(&self, _points: &[Point]) -> (i128, i128) {
        let it = root(self.it);
        (it.lo, it.hi)
    }
}

/// A number whose root is taken.
#[derive(Clone, Copy)]
pub struct Radicand {
    it: u128,
}

impl Drawn for Radicand {
    fn draw(draws: &mut Draws) -> Radicand {
        let high = draws.wide() as u128;
        Radicand {
            it: high * 4_611_686_018_427_387_904 + draws.wide() as u128,
        }
    }
}

impl Row for Radicand {
    #[inline(always)]
    fn answer(&self, _points: &[Point]) -> (i128, i128) {
        (0, isqrt_floor(self.it) as i128)
    }
}

/// A number to be compared with `h` times the root of `n2`.
#[derive(Clone, Copy)]
pub struct Sides {
    s: i128,
    h: i128,
    n2: i128,
    ghost s_size: { unsigned_abs s ≤ 2 ^ 61 },
    ghost h_size: { unsigned_abs h ≤ 2 ^ 30 },
    ghost n2_sign: { pos 0 ≤ℤ n2 },
    ghost n2_size: { unsigned_abs n2 ≤ 2 ^ 62 },
}

impl Drawn for Sides {
    fn draw(draws: &mut Draws) -> Sides {
        let s = draws.wide() - 2_305_843_009_213_693_952;
        let h = i128::from(draws.small()) - 1_073_741_824;
        let n2 = draws.wide();
        Sides { s, h, n2 }
    }
}

impl Row for Sides {
    #[inline(always)]
    fn answer(&self, _points: &[Point]) -> (i128, i128) {
        let order = match cmp_root(self.s, self.h, self.n2) {
            Ordering::Less => 1,
            Ordering::Equal => 2,
            Ordering::Greater => 3,
        };
        (order, order)
    }
}
