ghost use Rattle.std.specs.Prelude.{◌≡◌, ◌*◌, ◌<◌, pos, ◌+ℤ◌, ◌-ℤ◌, unsigned_abs, cond, int_le, ◌&&◌};
ghost use Rattle.gd_interval.specs.Enclosure.{EnclosesSum, EnclosesDifference, EnclosesMultiple, EnclosesProduct};
ghost use Rattle.gd_interval.specs.Enclosure.{EnclosesSquare};
ghost use Rattle.gd_interval.specs.Formulas.{scale_lo, scale_hi, mul_lo, mul_hi, square_lo, square_hi};
ghost use Rattle.gd_interval.specs.Interval.{ROOM};
ghost use Rattle.gd_interval.specs.Widths.{MultipleWidth, ProductWidth, SquareWidth};

use crate::ends::{greatest, greatest_of, least, least_of, minus, plus, times};
use crate::iv::{Iv, between};

/// Every sum of a member of `a` and a member of `b`, in the unit of both. Nothing is rounded.
/// The sums of ends are below 2^126 in size.
#[inline(always)]
pub fn add(a: Iv, b: Iv) -> Iv
    requires lo { unsigned_abs (a.lo +ℤ b.lo) < ROOM }
    requires hi { unsigned_abs (a.hi +ℤ b.hi) < ROOM }
    ensures lo { result.lo ≡ a.lo +ℤ b.lo }
    ensures hi { result.hi ≡ a.hi +ℤ b.hi }
    ensures encloses { EnclosesSum a b result }
{
    between(plus(a.lo, b.lo), plus(a.hi, b.hi))
}

/// Every difference of a member of `a` and a member of `b`, in the unit of both. Nothing is rounded.
/// The differences of opposite ends are below 2^126 in size.
#[inline(always)]
pub fn sub(a: Iv, b: Iv) -> Iv
    requires lo { unsigned_abs (a.lo -ℤ b.hi) < ROOM }
    requires hi { unsigned_abs (a.hi -ℤ b.lo) < ROOM }
    ensures lo { result.lo ≡ a.lo -ℤ b.hi }
    ensures hi { result.hi ≡ a.hi -ℤ b.lo }
    ensures encloses { EnclosesDifference a b result }
{
    between(minus(a.lo, b.hi), minus(a.hi, b.lo))
}

/// Every member of `a` times `k`. Nothing is rounded.
/// Both ends times `k` are below 2^126 in size.
#[inline(always)]
pub fn scale(a: Iv, k: i128) -> Iv
    requires lo { unsigned_abs a.lo * unsigned_abs k < ROOM }
    requires hi { unsigned_abs a.hi * unsigned_abs k < ROOM }
    ensures lo { result.lo ≡ scale_lo a.lo a.hi k }
    ensures hi { result.hi ≡ scale_hi a.lo a.hi k }
    ensures encloses { EnclosesMultiple a k result }
    ensures width { MultipleWidth a k result }
{
    let lower = times(a.lo, k);
    let upper = times(a.hi, k);
    between(least(lower, upper), greatest(lower, upper))
}

/// Every product of a member of `a` and a member of `b`, in the product of both units. Nothing is rounded.
/// The four products of ends are below 2^126 in size.
#[inline(always)]
pub fn mul(a: Iv, b: Iv) -> Iv
    requires ac { unsigned_abs a.lo * unsigned_abs b.lo < ROOM }
    requires ad { unsigned_abs a.lo * unsigned_abs b.hi < ROOM }
    requires bc { unsigned_abs a.hi * unsigned_abs b.lo < ROOM }
    requires bd { unsigned_abs a.hi * unsigned_abs b.hi < ROOM }
    ensures lo { result.lo ≡ mul_lo a.lo a.hi b.lo b.hi }
    ensures hi { result.hi ≡ mul_hi a.lo a.hi b.lo b.hi }
    ensures encloses { EnclosesProduct a b result }
    ensures width { ProductWidth a b result }
{
    let ac = times(a.lo, b.lo);
    let ad = times(a.lo, b.hi);
    let bc = times(a.hi, b.lo);
    let bd = times(a.hi, b.hi);
    between(least_of(ac, ad, bc, bd), greatest_of(ac, ad, bc, bd))
}

/// Every square of a member of `a`, in the square of its unit: narrower than `mul(a, a)` where `a` holds 0.
/// The squares of both ends are below 2^126.
#[inline(always)]
pub fn square(a: Iv) -> Iv
    requires lo { unsigned_abs a.lo * unsigned_abs a.lo < ROOM }
    requires hi { unsigned_abs a.hi * unsigned_abs a.hi < ROOM }
    ensures lo { result.lo ≡ square_lo a.lo a.hi }
    ensures hi { result.hi ≡ square_hi a.lo a.hi }
    ensures encloses { EnclosesSquare a result }
    ensures width { SquareWidth a result }
{
    let lower = times(a.lo, a.lo);
    let upper = times(a.hi, a.hi);
    between(least_square(a, least(lower, upper)), greatest(lower, upper))
}

/// The least square of a member: 0 where `a` holds 0, and else the lesser of the squared ends.
#[inline(always)]
fn least_square(a: Iv, least: i128) -> i128
    ensures { result ≡ cond (int_le a.lo (pos 0) && int_le (pos 0) a.hi) (pos 0) least }
{
    if a.lo <= 0 && 0 <= a.hi { 0 } else { least }
}
