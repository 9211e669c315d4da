// Comparisons of values with half units, and the differences of two values.
ghost use Rattle.std.specs.Prelude.{◌≡◌, ◌≤◌, ◌^◌, ◌-ℤ◌, ◌*ℤ◌, ◌≤ℤ◌, pos, unsigned_abs};
ghost use Rattle.gd_interval.specs.Formulas.{IsRootAbove, IsRootBelow};
ghost use Rattle.gd_vec.specs.Vector.{IsWithin, norm2_of};
ghost use Rattle.gd_zone.specs.Conditions.{IsBound, IsSurface, length2_of};
ghost use Rattle.gd_zone.specs.Extremes.{at_narrowest, at_widest};
ghost use Rattle.gd_zone.specs.Tests.{ceil_root, floor_root, is_at_least, is_at_most, square_bound};
ghost use Rattle.gd_zone.specs.Values.{IsSizedEnd};

use crate::condition::Surface;
use gd_int::{cmp_root, isqrt_ceil, isqrt_floor};
use gd_vec::{V3, norm2};

// A half unit in fine units.
const HALF: i128 = 1 << 15;

// The square of a half unit in squares of fine units.
const HALF_SQUARED: i128 = 1 << 30;

// A bound in fine units.
#[inline]
fn fine_bound(h: i64) -> i128
    requires { IsBound h }
    ensures value { result ≡ h *ℤ pos (2 ^ 15) }
    ensures size { unsigned_abs result ≤ 2 ^ 42 }
{
    i128::from(h) * HALF
}

/// Whether `s`, in fine units, is at most `h` half units, both for a direction whose squared length is `n2`.
#[inline]
pub fn is_at_most(s: i128, h: i64, n2: i128) -> bool
    requires s { unsigned_abs s ≤ 2 ^ 62 }
    requires h { IsBound h }
    requires not_negative { pos 0 ≤ℤ n2 }
    requires n2 { unsigned_abs n2 ≤ 2 ^ 22 }
    ensures { result ≡ is_at_most s h n2 }
{
    cmp_root(s, fine_bound(h), n2).is_le()
}

/// Whether `s`, in fine units, is at least `l` half units, both for a direction whose squared length is `n2`.
#[inline]
pub fn is_at_least(s: i128, l: i64, n2: i128) -> bool
    requires s { unsigned_abs s ≤ 2 ^ 62 }
    requires l { IsBound l }
    requires not_negative { pos 0 ≤ℤ n2 }
    requires n2 { unsigned_abs n2 ≤ 2 ^ 22 }
    ensures { result ≡ is_at_least s l n2 }
{
    cmp_root(s, fine_bound(l), n2).is_ge()
}

/// The square of `h` half units, in squares of fine units, for a direction whose squared length is `n2`.
#[inline]
pub fn square_bound(h: i64, n2: i128) -> i128
    requires h { IsBound h }
    requires n2 { unsigned_abs n2 ≤ 2 ^ 22 }
    ensures { result ≡ square_bound h n2 }
{
    square_of(h) * n2 * HALF_SQUARED
}

// The square of a bound.
#[inline]
fn square_of(h: i64) -> i128
    requires { IsBound h }
    ensures value { result ≡ h *ℤ h }
    ensures size { unsigned_abs result ≤ 2 ^ 54 }
{
    i128::from(h) * i128::from(h)
}

/// The squared length of a surface's direction, and 1 for a point.
#[inline]
pub fn length2(surface: &Surface) -> i128
    requires { IsSurface surface.now }
    ensures value { result ≡ length2_of surface.now }
    ensures not_negative { pos 0 ≤ℤ result }
    ensures size { unsigned_abs result ≤ 2 ^ 22 }
{
    match surface {
        Surface::Plane { direction, .. } => norm2_of(direction),
        Surface::Axis { direction, .. } => norm2_of(direction),
        Surface::Ball { .. } => 1,
    }
}

// The squared length of a direction.
#[inline]
fn norm2_of(direction: &V3) -> i128
    requires { IsWithin (2 ^ 10) direction.now }
    ensures value { result ≡ norm2_of direction.now }
    ensures not_negative { pos 0 ≤ℤ result }
    ensures size { unsigned_abs result ≤ 2 ^ 22 }
{
    norm2(direction)
}

/// The root of a squared distance, rounded down.
#[inline]
#[tactic(auto, using(crate::proofs::Roots::floor_root_is, crate::proofs::Roots::floor_root_small))]
pub fn floor_root(c: i128) -> i128
    requires sign { pos 0 ≤ℤ c }
    requires size { unsigned_abs c ≤ 2 ^ 120 }
    ensures value { result ≡ floor_root c }
    ensures size { unsigned_abs result ≤ 2 ^ 60 }
{
    root_below(c)
}

#[inline]
fn root_below(c: i128) -> i128
    requires sign { pos 0 ≤ℤ c }
    requires size { unsigned_abs c ≤ 2 ^ 120 }
    ensures { IsRootBelow result c }
{
    isqrt_floor(c as u128) as i128
}

/// The root of a squared distance, rounded up.
#[inline]
#[tactic(auto, using(crate::proofs::Roots::ceil_root_is, crate::proofs::Roots::ceil_root_small))]
pub fn ceil_root(c: i128) -> i128
    requires sign { pos 0 ≤ℤ c }
    requires size { unsigned_abs c ≤ 2 ^ 120 }
    ensures value { result ≡ ceil_root c }
    ensures size { unsigned_abs result ≤ 2 ^ 60 }
{
    root_above(c)
}

#[inline]
fn root_above(c: i128) -> i128
    requires sign { pos 0 ≤ℤ c }
    requires size { unsigned_abs c ≤ 2 ^ 120 }
    ensures { IsRootAbove result c }
{
    isqrt_ceil(c as u128) as i128
}

/// By how much one value may pass another, from the upper end of the one and the lower end of the other: fine units for
/// a direction of its length. Of squared distances the roots are taken.
pub fn at_widest(surface: &Surface, hi: i128, lo: i128) -> i128
    requires hi { IsSizedEnd surface.now hi }
    requires lo { IsSizedEnd surface.now lo }
    ensures value { result ≡ at_widest surface.now hi lo }
    ensures size { unsigned_abs result ≤ 2 ^ 62 }
{
    match surface {
        Surface::Plane { .. } => hi - lo,
        Surface::Axis { .. } | Surface::Ball { .. } => ceil_root(hi) - floor_root(lo),
    }
}

/// By how much one value passes another at least, from the lower end of the one and the upper end of the other.
pub fn at_narrowest(surface: &Surface, lo: i128, hi: i128) -> i128
    requires lo { IsSizedEnd surface.now lo }
    requires hi { IsSizedEnd surface.now hi }
    ensures value { result ≡ at_narrowest surface.now lo hi }
    ensures size { unsigned_abs result ≤ 2 ^ 62 }
{
    match surface {
        Surface::Plane { .. } => lo - hi,
        Surface::Axis { .. } | Surface::Ball { .. } => floor_root(lo) - ceil_root(hi),
    }
}
