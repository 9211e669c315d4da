// Short products: an entry of a direction is at most 2^30, a coordinate or a difference of two at most 16,000,000
// units. Factors of 32 bits make products of 64, so that a processor forms several at a time.
ghost use Rattle.std.specs.Prelude.{◌≡◌, ◌≤◌, ◌*◌, ◌*ℤ◌, ◌+ℤ◌, unsigned_abs};
ghost use Rattle.gd_base.specs.Limits.{TOLERANCE};
ghost use Rattle.gd_base.specs.Scales.{ONE};
ghost use Rattle.gd_flat.specs.Sizes.{PRODUCT_SIZE, VALUE_SIZE};

// An entry of a direction in 32 bits.
#[inline(always)]
pub fn short(entry: i64) -> i32
    requires { unsigned_abs entry ≤ ONE }
    ensures { result ≡ entry }
{
    entry as i32
}

// The product of an entry of a direction and a coordinate.
#[inline(always)]
pub fn times(a: i32, b: i32) -> i64
    requires a { unsigned_abs a ≤ ONE }
    requires b { unsigned_abs b ≤ TOLERANCE }
    ensures value { result ≡ a *ℤ b }
    ensures size { unsigned_abs result ≤ PRODUCT_SIZE }
{
    i64::from(a) * i64::from(b)
}

// The sum of three products.
#[inline(always)]
pub fn sum(a: i64, b: i64, c: i64) -> i64
    requires a { unsigned_abs a ≤ PRODUCT_SIZE }
    requires b { unsigned_abs b ≤ PRODUCT_SIZE }
    requires c { unsigned_abs c ≤ PRODUCT_SIZE }
    ensures value { result ≡ a +ℤ b +ℤ c }
    ensures size { unsigned_abs result ≤ VALUE_SIZE }
{
    a + b + c
}
