// Demands with one bound.
ghost use Rattle.std.specs.Prelude.{◌≡◌, None};
ghost use Rattle.gd_zone.specs.declared.condition.Demand.TheVariants.{Within};

use gd_zone::Demand;

/// Twice the distance of every point is at least this, where it is given, in half units.
pub fn at_least(lo: Option<i64>) -> Demand
    ensures { result ≡ Within lo None }
{
    Demand::Within { lo, hi: None }
}

/// Twice the distance of every point is at most this, where it is given, in half units.
pub fn at_most(hi: Option<i64>) -> Demand
    ensures { result ≡ Within None hi }
{
    Demand::Within { lo: None, hi }
}
