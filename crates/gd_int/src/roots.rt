ghost use Rattle.std.specs.Prelude.{◌≡◌, ◌↔◌, IsTrue, pos, neg_ℤ, ◌<◌, ◌≤◌, ◌≤ℤ◌, ◌^◌, ◌*◌, ◌+◌, ◌-◌, unsigned_abs};
ghost use Rattle.std.specs.Ordering.{is_ge, is_le};
ghost use Rattle.gd_int.specs.Comparisons.{AtMost};
ghost use Rattle.gd_int.specs.Roots.{cmp_root_of, signed_square};

use std::cmp::Ordering;

/// The root of `a`, rounded down: the greatest number whose square is at most `a`.
pub fn isqrt_floor(a: u128) -> u128
    ensures below { result * result ≤ a }
    ensures next { a < (result + 1) * (result + 1) }
    ensures size { result < 2 ^ 64 }
{
    let guess = guessed_root(a);
    let square = guess * guess;
    if square <= a && a - square <= 2 * guess {
        guess
    } else {
        a.isqrt()
    }
}

/// The root of `a`, rounded down, or a number near it: the root of `a` shifted up to 127 or 128 bits, by the root of the
/// leading 64 and one step of Newton's. Only the time of `isqrt_floor` rests on it, which tests the guess.
fn guessed_root(a: u128) -> u128
    ensures size { result < 2 ^ 64 }
{
    let half = (a.leading_zeros() / 2).min(63);
    let wide = a << (2 * half);
    let near = u128::from(near_root((wide >> 64) as u64)) << 32;
    let root = (near.wrapping_add(wide / near) / 2).min(u128::from(u64::MAX));
    if root * root > wide {
        root.saturating_sub(1) >> half
    } else {
        root >> half
    }
}

/// A number near the root of `a`, which has 63 or 64 bits: a parabola through the roots, and two steps of Newton's.
fn near_root(a: u64) -> u64
    ensures { 0 < result }
{
    let leading = a >> 48;
    let bend = (leading * leading * 20_730) >> 16;
    let first = 16_992 + ((leading * 68_945).saturating_sub(bend) >> 16);
    let near = (first + (a >> 32) / first) / 2 * 65_536;
    near.wrapping_add(a / near) / 2 + 1
}

/// The root of `a`, rounded up: the least number whose square is at least `a`.
pub fn isqrt_ceil(a: u128) -> u128
    ensures above { a ≤ result * result }
    ensures least { 0 < result → (result - 1) * (result - 1) < a }
    ensures size { result ≤ 2 ^ 64 }
{
    let root = isqrt_floor(a);
    if root * root == a { root } else { root + 1 }
}

/// Compares `s` with `h` times the root of `n2`, exactly: no root is rounded, since both sides are squared.
#[inline(always)]
pub fn cmp_root(s: i128, h: i128, n2: i128) -> Ordering
    requires n2 { pos 0 ≤ℤ n2 }
    requires s { unsigned_abs s < 2 ^ 63 }
    requires h { unsigned_abs h < 2 ^ 62 }
    requires product { unsigned_abs h * unsigned_abs h * unsigned_abs n2 < 2 ^ 126 }
    ensures value { result ≡ cmp_root_of s h n2 }
    ensures at_most { IsTrue (is_le result) ↔ AtMost s h n2 }
    ensures at_least { IsTrue (is_ge result) ↔ AtMost (neg_ℤ s) (neg_ℤ h) n2 }
{
    let left = signed_square(s);
    let right = signed_square(h) * n2;
    left.cmp(&right)
}

/// The square of `z`, with the sign of `z`.
#[inline(always)]
fn signed_square(z: i128) -> i128
    requires { unsigned_abs z * unsigned_abs z < 2 ^ 126 }
    ensures value { result ≡ signed_square z }
    ensures size { unsigned_abs result ≡ unsigned_abs z * unsigned_abs z }
{
    z * z.abs()
}
