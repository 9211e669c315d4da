ghost use Rattle.std.specs.Prelude.{◌≡◌, pos, ◌≤ℤ◌, ◌<ℤ◌, ◌*ℤ◌, ◌+ℤ◌, ◌-ℤ◌};
ghost use Rattle.gd_int.specs.Division.{ceil_of, floor_of};

/// The quotient `a / b`, rounded down.
#[inline(always)]
pub fn div_floor(a: i128, b: i128) -> i128
    requires { pos 0 <ℤ b }
    ensures value { result ≡ floor_of a b }
    ensures below { (result *ℤ b) ≤ℤ a }
    ensures next { a <ℤ ((result +ℤ pos 1) *ℤ b) }
{
    a.div_euclid(b)
}

/// The quotient `a / b`, rounded up.
#[inline(always)]
pub fn div_ceil(a: i128, b: i128) -> i128
    requires { pos 0 <ℤ b }
    ensures value { result ≡ ceil_of a b }
    ensures above { a ≤ℤ (result *ℤ b) }
    ensures before { ((result -ℤ pos 1) *ℤ b) <ℤ a }
{
    // `/` rounds towards 0, which is up where `a` isn't above 0; no negation of `a`, so `i128::MIN` passes
    if a <= 0 { a / b } else { (a - 1) / b + 1 }
}
