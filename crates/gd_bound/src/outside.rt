// A value that lies outside at every placement of a box.
ghost use Rattle.std.specs.Prelude.{◌≡◌, ◌≤◌, ◌^◌, ◌≤ℤ◌, ◌&&◌, ◌||◌, int_lt, pos, unsigned_abs};
ghost use Rattle.std.specs.Option.{IfSome};
ghost use Rattle.gd_bound.specs.Evidence.{value_outside};
ghost use Rattle.gd_quat.specs.Formulas.{ends};
ghost use Rattle.gd_zone.specs.Conditions.{IsBound, IsSurface};
ghost use Rattle.gd_zone.specs.Refutations.{distance_outside, fails, is_less, is_more, plane_outside};
ghost use Rattle.gd_zone.specs.Tests.{square_bound};
ghost use Rattle.gd_zone.specs.Values.{IsSized};

use gd_interval::Iv;
use gd_zone::{Surface, is_at_least, is_at_most, length2, square_bound};

// Whether a value is above a bound, where there is one.
#[inline(always)]
fn is_above(s: i128, hi: Option<i64>, n2: i128) -> bool
    requires s { unsigned_abs s ≤ 2 ^ 60 }
    requires hi { IfSome hi IsBound }
    requires not_negative { pos 0 ≤ℤ n2 }
    requires n2 { unsigned_abs n2 ≤ 2 ^ 22 }
    ensures { result ≡ fails (λ h. is_more s h n2) hi }
{
    match hi {
        None => false,
        Some(h) => !is_at_most(s, h, n2),
    }
}

// Whether a value is below a bound, where there is one.
#[inline(always)]
fn is_below(s: i128, lo: Option<i64>, n2: i128) -> bool
    requires s { unsigned_abs s ≤ 2 ^ 60 }
    requires lo { IfSome lo IsBound }
    requires not_negative { pos 0 ≤ℤ n2 }
    requires n2 { unsigned_abs n2 ≤ 2 ^ 22 }
    ensures { result ≡ fails (λ l. is_less s l n2) lo }
{
    match lo {
        None => false,
        Some(l) => !is_at_least(s, l, n2),
    }
}

// Whether a distance is above a bound, where there is one: the squares are compared.
#[inline(always)]
fn is_far(c: i128, hi: Option<i64>, n2: i128) -> bool
    requires hi { IfSome hi IsBound }
    requires n2 { unsigned_abs n2 ≤ 2 ^ 22 }
    ensures { result ≡ fails (λ h. int_lt h (pos 0) || int_lt (square_bound h n2) c) hi }
{
    match hi {
        None => false,
        Some(h) => h < 0 || square_bound(h, n2) < c,
    }
}

// Whether a distance is below a bound, where there is one: the squares are compared.
#[inline(always)]
fn is_near(c: i128, lo: Option<i64>, n2: i128) -> bool
    requires lo { IfSome lo IsBound }
    requires n2 { unsigned_abs n2 ≤ 2 ^ 22 }
    ensures { result ≡ fails (λ l. int_lt (pos 0) l && int_lt c (square_bound l n2)) lo }
{
    match lo {
        None => false,
        Some(l) => 0 < l && c < square_bound(l, n2),
    }
}

// Whether a value along a direction lies outside two bounds.
#[inline(always)]
fn is_plane_outside(lo: Option<i64>, hi: Option<i64>, n2: i128, value: Iv) -> bool
    requires lo { IfSome lo IsBound }
    requires hi { IfSome hi IsBound }
    requires not_negative { pos 0 ≤ℤ n2 }
    requires n2 { unsigned_abs n2 ≤ 2 ^ 22 }
    requires low_end { unsigned_abs value.lo ≤ 2 ^ 60 }
    requires high_end { unsigned_abs value.hi ≤ 2 ^ 60 }
    ensures { result ≡ plane_outside lo hi n2 (ends value) }
{
    is_above(value.lo, hi, n2) || is_below(value.hi, lo, n2)
}

// Whether a distance lies outside two bounds.
#[inline(always)]
fn is_distance_outside(lo: Option<i64>, hi: Option<i64>, n2: i128, value: Iv) -> bool
    requires lo { IfSome lo IsBound }
    requires hi { IfSome hi IsBound }
    requires n2 { unsigned_abs n2 ≤ 2 ^ 22 }
    ensures { result ≡ distance_outside lo hi n2 (ends value) }
{
    is_far(value.lo, hi, n2) || is_near(value.hi, lo, n2)
}

/// Whether a value lies outside two bounds, in half units, at every placement of the box.
#[inline(always)]
pub fn is_outside(surface: &Surface, lo: Option<i64>, hi: Option<i64>, value: Iv) -> bool
    requires surface { IsSurface surface.now }
    requires lo { IfSome lo IsBound }
    requires hi { IfSome hi IsBound }
    requires value { IsSized surface.now value }
    ensures { result ≡ value_outside surface.now lo hi (ends value) }
{
    let n2 = length2(surface);
    match surface {
        Surface::Plane { .. } => is_plane_outside(lo, hi, n2, value),
        Surface::Axis { .. } => is_distance_outside(lo, hi, n2, value),
        Surface::Ball { .. } => is_distance_outside(lo, hi, n2, value),
    }
}
