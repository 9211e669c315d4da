ghost use Rattle.std.specs.Prelude.{◌≡◌, ◌<◌, ◌≤◌, ◌^◌, pos, ◌<ℤ◌, unsigned_abs, cond, int_le};
ghost use Rattle.gd_int.specs.Division.{floor_of, ceil_of};
ghost use Rattle.gd_interval.specs.Enclosure.{EnclosesQuotient, EnclosesNarrowed};
ghost use Rattle.gd_interval.specs.Formulas.{quot_lo, quot_hi, narrow_lo, narrow_hi};
ghost use Rattle.gd_interval.specs.Interval.{ROOM};
ghost use Rattle.gd_interval.specs.Widths.{QuotientWidth};

use crate::ends::times;
use crate::iv::{Iv, between};
use gd_int::{div_ceil, div_floor};

/// 1 as a ratio. Ratios are in 2^-30.
const ONE: i128 = 1 << 30;

/// Every quotient of a member of `n` by a member of `d`, which have one unit, as a ratio in 2^-30.
/// Each end of `n` is divided by the end of `d` that moves it outward, and is rounded outward.
/// Both ends of `n` are below 2^96 in size, and the members of `d` are above 0.
#[inline]
pub fn quot(n: Iv, d: Iv) -> Iv
    requires lo { unsigned_abs n.lo < 2 ^ 96 }
    requires hi { unsigned_abs n.hi < 2 ^ 96 }
    requires divisor { pos 0 <ℤ d.lo }
    ensures lo { result.lo ≡ quot_lo n.lo d.lo d.hi }
    ensures hi { result.hi ≡ quot_hi n.hi d.lo d.hi }
    ensures encloses { EnclosesQuotient n d result }
    ensures width { QuotientWidth n d result }
{
    let below = by_sign(n.lo, d.hi, d.lo);
    let above = by_sign(n.hi, d.lo, d.hi);
    between(
        div_floor(times(n.lo, ONE), below),
        div_ceil(times(n.hi, ONE), above),
    )
}

/// `yes` where `n` is not negative, and else `no`.
#[inline(always)]
fn by_sign(n: i128, yes: i128, no: i128) -> i128
    ensures value { result ≡ cond (int_le (pos 0) n) yes no }
    ensures positive { pos 0 <ℤ yes → pos 0 <ℤ no → pos 0 <ℤ result }
{
    if 0 <= n { yes } else { no }
}

/// Every member of `a` divided by 2^`bits`, rounded outward: the same values in a unit that is 2^`bits` times as large.
/// There are at most 60 bits, and the upper end is below 2^126 in size.
#[inline(always)]
pub fn narrow(a: Iv, bits: u32) -> Iv
    requires bits { bits ≤ 60 }
    requires hi { unsigned_abs a.hi < ROOM }
    ensures lo { result.lo ≡ narrow_lo a.lo bits }
    ensures hi { result.hi ≡ narrow_hi a.hi bits }
    ensures encloses { EnclosesNarrowed a bits result }
{
    between(shifted(a.lo, bits), shifted_up(a.hi, bits))
}

/// `a` divided by 2^`bits`, rounded down.
#[inline(always)]
fn shifted(a: i128, bits: u32) -> i128
    requires { bits ≤ 60 }
    ensures { result ≡ floor_of a (pos (2 ^ bits)) }
{
    a >> bits
}

/// `a` divided by 2^`bits`, rounded up.
#[inline(always)]
fn shifted_up(a: i128, bits: u32) -> i128
    requires bits { bits ≤ 60 }
    requires size { unsigned_abs a < ROOM }
    ensures { result ≡ ceil_of a (pos (2 ^ bits)) }
{
    -shifted(-a, bits)
}
