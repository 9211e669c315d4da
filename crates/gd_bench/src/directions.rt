ghost use Rattle.std.specs.Prelude.{◌≤◌, ◌^◌, ◌≤ℤ◌, unsigned_abs};

use crate::draws::{Drawn, Draws};
use crate::rows::Row;
use gd_interval::{Iv, add, between, scale};

/// A point, its coordinates in units.
#[derive(Clone, Copy)]
pub struct Point {
    x: i64,
    y: i64,
    z: i64,
    ghost small_x: { unsigned_abs x ≤ 2 ^ 23 },
    ghost small_y: { unsigned_abs y ≤ 2 ^ 23 },
    ghost small_z: { unsigned_abs z ≤ 2 ^ 23 },
}

impl Drawn for Point {
    fn draw(draws: &mut Draws) -> Point {
        let x = coordinate(draws);
        let y = coordinate(draws);
        let z = coordinate(draws);
        Point { x, y, z }
    }
}

/// A number from -8,000,000 to 8,000,000.
fn coordinate(draws: &mut Draws) -> i64
    ensures { unsigned_abs result ≤ 2 ^ 23 }
{
    draws.small() % 16_000_001 - 8_000_000
}

/// One entry of a direction that isn't known exactly, in 2^-30.
#[derive(Clone, Copy)]
pub struct Ratio {
    pub lo: i64,
    pub hi: i64,
    ghost ordered: { lo ≤ℤ hi },
    ghost small_lo: { unsigned_abs lo ≤ 2 ^ 30 },
    ghost small_hi: { unsigned_abs hi ≤ 2 ^ 30 },
}

pub fn draw_ratio(draws: &mut Draws) -> Ratio {
    let lo = draws.small() % 2_146_435_072 - 1_073_741_824;
    let hi = lo + draws.small() % 1_048_576;
    Ratio { lo, hi }
}

/// The same entry in 128 bits.
#[derive(Clone, Copy)]
pub struct WideRatio {
    pub it: Iv,
    ghost small_lo: { unsigned_abs it.lo ≤ 2 ^ 30 },
    ghost small_hi: { unsigned_abs it.hi ≤ 2 ^ 30 },
}

pub fn widened(n: Ratio) -> WideRatio {
    WideRatio {
        it: between(i128::from(n.lo), i128::from(n.hi)),
    }
}

/// A direction in 64 bits.
#[derive(Clone, Copy)]
pub struct Direction {
    x: Ratio,
    y: Ratio,
    z: Ratio,
}

impl Drawn for Direction {
    fn draw(draws: &mut Draws) -> Direction {
        let x = draw_ratio(draws);
        let y = draw_ratio(draws);
        let z = draw_ratio(draws);
        Direction { x, y, z }
    }
}

impl Row for Direction {
    /// The greatest low end and the least high end of the points' values, in units times 2^-30.
    #[inline(never)]
    fn answer(&self, points: &[Point]) -> (i128, i128) {
        let mut lo = i64::MIN;
        let mut hi = i64::MAX;
        for p in points {
            let (x, y, z) = (
                product(self.x, p.x),
                product(self.y, p.y),
                product(self.z, p.z),
            );
            lo = lo.max(x.lo + y.lo + z.lo);
            hi = hi.min(x.hi + y.hi + z.hi);
        }
        (i128::from(lo), i128::from(hi))
    }
}

/// The least and the greatest product of a ratio and a coordinate.
#[derive(Clone, Copy)]
struct Term {
    lo: i64,
    hi: i64,
    ghost small_lo: { unsigned_abs lo ≤ 2 ^ 53 },
    ghost small_hi: { unsigned_abs hi ≤ 2 ^ 53 },
}

#[inline(always)]
fn product(n: Ratio, coordinate: i64) -> Term
    requires { unsigned_abs coordinate ≤ 2 ^ 23 }
{
    let a = times(n.lo, coordinate);
    let b = times(n.hi, coordinate);
    Term {
        lo: a.min(b),
        hi: a.max(b),
    }
}

#[inline(always)]
fn times(a: i64, b: i64) -> i64
    requires a { unsigned_abs a ≤ 2 ^ 30 }
    requires b { unsigned_abs b ≤ 2 ^ 23 }
    ensures { unsigned_abs result ≤ 2 ^ 53 }
{
    a * b
}

/// A direction in 128 bits.
#[derive(Clone, Copy)]
pub struct WideDirection {
    x: WideRatio,
    y: WideRatio,
    z: WideRatio,
}

impl Drawn for WideDirection {
    fn draw(draws: &mut Draws) -> WideDirection {
        let n = Direction::draw(draws);
        WideDirection {
            x: widened(n.x),
            y: widened(n.y),
            z: widened(n.z),
        }
    }
}

impl Row for WideDirection {
    #[inline(never)]
    fn answer(&self, points: &[Point]) -> (i128, i128) {
        let mut lo = i128::MIN;
        let mut hi = i128::MAX;
        for p in points {
            let (x, y, z) = (
                wide_product(self.x, p.x),
                wide_product(self.y, p.y),
                wide_product(self.z, p.z),
            );
            let it = add(add(x, y), z);
            lo = lo.max(it.lo);
            hi = hi.min(it.hi);
        }
        (lo, hi)
    }
}

#[inline(always)]
fn wide_product(n: WideRatio, coordinate: i64) -> Iv
    requires { unsigned_abs coordinate ≤ 2 ^ 23 }
    ensures lo { unsigned_abs result.lo ≤ 2 ^ 53 }
    ensures hi { unsigned_abs result.hi ≤ 2 ^ 53 }
{
    scale(n.it, i128::from(coordinate))
}
