ghost use Rattle.std.specs.Prelude.{◌≡◌, ◌≤ℤ◌};

/// All numbers from `lo` to `hi`, fractions too, in the unit that the ends have: units of 0.1 micrometre, fine units of
/// 2^-16 unit, ratios in 2^-30, or products of these. It has at least one member.
#[derive(Clone, Copy, Debug, PartialEq, Eq)]
pub struct Iv {
    pub lo: i128,
    pub hi: i128,
    ghost ordered: { lo ≤ℤ hi },
}

/// The interval from `lo` to `hi`.
#[inline(always)]
pub fn between(lo: i128, hi: i128) -> Iv
    requires { lo ≤ℤ hi }
    ensures lo { result.lo ≡ lo }
    ensures hi { result.hi ≡ hi }
{
    Iv { lo, hi }
}

/// The interval that holds `x` alone.
#[inline(always)]
pub fn point(x: i128) -> Iv
    ensures lo { result.lo ≡ x }
    ensures hi { result.hi ≡ x }
{
    Iv { lo: x, hi: x }
}
