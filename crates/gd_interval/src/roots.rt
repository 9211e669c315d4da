ghost use Rattle.std.specs.Prelude.{◌<◌, pos, ◌≤ℤ◌, unsigned_abs};
ghost use Rattle.gd_interval.specs.Enclosure.{EnclosesRoot};
ghost use Rattle.gd_interval.specs.Formulas.{IsRootBelow, IsRootAbove};
ghost use Rattle.gd_interval.specs.Interval.{ROOM};

use crate::iv::{Iv, between};
use gd_int::{isqrt_ceil, isqrt_floor};

/// The root of every member of `a`, rounded outward, in the unit whose square `a` has.
/// No member is negative, and the upper end is below 2^126.
#[inline]
pub fn root(a: Iv) -> Iv
    requires lo { pos 0 ≤ℤ a.lo }
    requires hi { unsigned_abs a.hi < ROOM }
    ensures lo { IsRootBelow result.lo a.lo }
    ensures hi { IsRootAbove result.hi a.hi }
    ensures encloses { EnclosesRoot a result }
{
    between(root_below(a.lo), root_above(a.hi))
}

/// The root of a number that isn't negative, rounded down.
#[inline(always)]
pub fn root_below(a: i128) -> i128
    requires { pos 0 ≤ℤ a }
    ensures { IsRootBelow result a }
{
    isqrt_floor(a as u128) as i128
}

/// The root of a number that isn't negative and is below 2^126, rounded up.
#[inline(always)]
pub fn root_above(a: i128) -> i128
    requires sign { pos 0 ≤ℤ a }
    requires size { unsigned_abs a < ROOM }
    ensures { IsRootAbove result a }
{
    isqrt_ceil(a as u128) as i128
}
