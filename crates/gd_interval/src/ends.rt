ghost use Rattle.std.specs.Prelude.{◌≡◌, ◌*◌, ◌<◌, ◌+ℤ◌, ◌-ℤ◌, ◌*ℤ◌, unsigned_abs};
ghost use Rattle.std.specs.Int.{int_min, int_max};
ghost use Rattle.gd_interval.specs.Interval.{ROOM};

/// The sum of two ends.
#[inline(always)]
pub fn plus(a: i128, b: i128) -> i128
    requires { unsigned_abs (a +ℤ b) < ROOM }
    ensures { result ≡ a +ℤ b }
{
    a + b
}

/// The difference of two numbers, where it is below 2^126 in size.
#[inline(always)]
pub fn minus(a: i128, b: i128) -> i128
    requires { unsigned_abs (a -ℤ b) < ROOM }
    ensures { result ≡ a -ℤ b }
{
    a - b
}

/// The product of two numbers, where it is below 2^126 in size.
#[inline(always)]
pub fn times(a: i128, b: i128) -> i128
    requires { unsigned_abs a * unsigned_abs b < ROOM }
    ensures { result ≡ a *ℤ b }
{
    a * b
}

/// The lesser of two numbers.
#[inline(always)]
pub fn least(a: i128, b: i128) -> i128
    ensures { result ≡ int_min a b }
{
    a.min(b)
}

/// The greater of two numbers.
#[inline(always)]
pub fn greatest(a: i128, b: i128) -> i128
    ensures { result ≡ int_max a b }
{
    a.max(b)
}

/// The least of four ends.
#[inline(always)]
pub fn least_of(p: i128, q: i128, r: i128, s: i128) -> i128
    ensures { result ≡ int_min (int_min p q) (int_min r s) }
{
    least(least(p, q), least(r, s))
}

/// The greatest of four ends.
#[inline(always)]
pub fn greatest_of(p: i128, q: i128, r: i128, s: i128) -> i128
    ensures { result ≡ int_max (int_max p q) (int_max r s) }
{
    greatest(greatest(p, q), greatest(r, s))
}
