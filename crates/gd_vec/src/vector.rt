// A vector, and its exact differences and products. No call takes memory.
ghost use Rattle.std.specs.Prelude.{◌≡◌, ◌≤◌, ◌^◌, ◌*◌, ◌*ℤ◌, ◌-ℤ◌, ◌≤ℤ◌, pos, unsigned_abs};
ghost use Rattle.std.specs.List.{All};
ghost use Rattle.gd_vec.specs.Vector.{IsWithin, cross_of, difference, dot_of, norm2_of, norm_sum_of};

/// A vector of three whole numbers. A point of a part has its coordinates in units of 0.1 micrometre;
/// a direction has no unit.
#[derive(Clone, Copy, Debug, PartialEq, Eq)]
pub struct V3 {
    pub x: i64,
    pub y: i64,
    pub z: i64,
}

/// The difference `a - b`, in the unit of both.
#[inline]
pub fn sub(a: &V3, b: &V3) -> V3
    requires a { IsWithin (2 ^ 40) a.now }
    requires b { IsWithin (2 ^ 40) b.now }
    ensures value { result ≡ difference a.now b.now }
    ensures size { IsWithin (2 ^ 41) result }
{
    V3 {
        x: a.x - b.x,
        y: a.y - b.y,
        z: a.z - b.z,
    }
}

/// The dot product of `a` and `b`, in the product of their units.
#[inline]
pub fn dot(a: &V3, b: &V3) -> i128
    requires a { IsWithin (2 ^ 40) a.now }
    requires b { IsWithin (2 ^ 40) b.now }
    ensures value { result ≡ dot_of a.now b.now }
    ensures size { unsigned_abs result ≤ 3 * 2 ^ 80 }
{
    product(a.x, b.x) + product(a.y, b.y) + product(a.z, b.z)
}

/// The entries of the cross product of `a` and `b`, in the product of their units.
#[inline]
pub fn cross(a: &V3, b: &V3) -> [i128; 3]
    requires a { IsWithin (2 ^ 40) a.now }
    requires b { IsWithin (2 ^ 40) b.now }
    ensures value { result ≡ cross_of a.now b.now }
    ensures size { All (λ entry. unsigned_abs entry ≤ 2 ^ 81) result }
{
    [
        determinant(a.y, a.z, b.y, b.z),
        determinant(a.z, a.x, b.z, b.x),
        determinant(a.x, a.y, b.x, b.y),
    ]
}

/// The sum of the squares of the entries: the squared length, in the square of the unit.
#[inline]
pub fn norm2(a: &V3) -> i128
    requires { IsWithin (2 ^ 40) a.now }
    ensures value { result ≡ norm2_of a.now }
    ensures not_negative { pos 0 ≤ℤ result }
    ensures size { unsigned_abs result ≤ 3 * 2 ^ 80 }
{
    dot(a, a)
}

/// The sum of the absolute values of the entries, in their unit.
#[inline]
pub fn norm_sum(a: &V3) -> i128
    requires { IsWithin (2 ^ 40) a.now }
    ensures value { result ≡ norm_sum_of a.now }
    ensures not_negative { pos 0 ≤ℤ result }
    ensures size { unsigned_abs result ≤ 3 * 2 ^ 40 }
{
    i128::from(a.x.abs()) + i128::from(a.y.abs()) + i128::from(a.z.abs())
}

// The product of two entries.
#[inline]
fn product(a: i64, b: i64) -> i128
    requires a { unsigned_abs a ≤ 2 ^ 40 }
    requires b { unsigned_abs b ≤ 2 ^ 40 }
    ensures value { result ≡ a *ℤ b }
    ensures size { unsigned_abs result ≤ 2 ^ 80 }
{
    i128::from(a) * i128::from(b)
}

// The determinant of the rows (a, b) and (c, d).
#[inline]
fn determinant(a: i64, b: i64, c: i64, d: i64) -> i128
    requires a { unsigned_abs a ≤ 2 ^ 40 }
    requires b { unsigned_abs b ≤ 2 ^ 40 }
    requires c { unsigned_abs c ≤ 2 ^ 40 }
    requires d { unsigned_abs d ≤ 2 ^ 40 }
    ensures value { result ≡ (a *ℤ d) -ℤ (b *ℤ c) }
    ensures size { unsigned_abs result ≤ 2 ^ 81 }
{
    product(a, d) - product(b, c)
}
