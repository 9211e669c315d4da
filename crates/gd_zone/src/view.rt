// The points of a condition, as a box of placements shows them.
ghost use Rattle.std.specs.Prelude.{◌≡◌, ◌<◌, ◌≤◌, ◌^◌, ◌-ℤ◌, length, unsigned_abs};
ghost use Rattle.gd_base.specs.Limits.{COORDINATE};
ghost use Rattle.gd_points.specs.Index.{row_at};
ghost use Rattle.gd_quat.specs.Formulas.{ends};
ghost use Rattle.gd_vec.specs.Vector.{IsWithin, difference};
ghost use Rattle.gd_zone.specs.Boxes.{IsPlaced, placed_ends};
ghost use Rattle.gd_zone.specs.Conditions.{IsCondition, IsSurface};
ghost use Rattle.gd_zone.specs.Extremes.{ends_by};
ghost use Rattle.gd_zone.specs.Shorts.{IsLens, moves_of};
ghost use Rattle.gd_zone.specs.Values.{IsSized};

use crate::lens::lens_of;
use crate::placed::Placed;
use crate::shape::Lens;
use crate::subject::Subject;
use crate::values::through;
use gd_interval::Iv;
use gd_vec::V3;

/// A condition with its points over a box of placements. `base` is the part's first point, in units.
#[derive(Clone, Copy)]
pub struct View<'a> {
    pub subject: &'a Subject<'a>,
    pub base: &'a V3,
    pub placed: &'a Placed,
    lens: Lens,
    ghost based: { IsWithin COORDINATE base.now },
    ghost held: { IsPlaced placed.now },
    ghost seen: { IsLens (placed_ends placed.now).matrix (moves_of subject.now.condition.surface
        subject.now.condition.demand (placed_ends placed.now) subject.now.condition.offset) lens },
}

impl<'a> View<'a> {
    /// A condition with its points over a box of placements.
    pub fn of(subject: &'a Subject<'a>, base: &'a V3, placed: &'a Placed) -> View<'a>
        requires surface { IsSurface subject.now.condition.surface }
        requires base { IsWithin COORDINATE base.now }
        requires placed { IsPlaced placed.now }
        ensures condition { result.subject.now.condition ≡ subject.now.condition }
        ensures index { result.subject.now.index.now.table.now.rows ≡ subject.now.index.now.table.now.rows }
        ensures base { result.base.now ≡ base.now }
        ensures placed { result.placed.now ≡ placed.now }
    {
        View {
            subject,
            base,
            placed,
            lens: lens_of(&subject.condition, placed),
        }
    }

    /// The value of a point by its number, in the units of `value`. For a spread along a direction it is that of the
    /// turned point alone.
    #[inline]
    pub fn value(&self, number: u32) -> Iv
        requires condition { IsCondition self.now.subject.now.condition }
        requires number { number < length self.now.subject.now.index.now.table.now.rows }
        ensures ends { ends result ≡ ends_by (placed_ends self.now.placed.now) self.now.base.now
            self.now.subject.now.condition self.now.subject.now.index.now.table.now.rows number }
        ensures size { IsSized self.now.subject.now.condition.surface result }
    {
        through(
            &self.subject.condition.surface,
            &self.lens,
            &self.from_base(number),
        )
    }

    // A point less the part's first point, in units.
    #[inline]
    fn from_base(&self, number: u32) -> V3
        requires { number < length self.now.subject.now.index.now.table.now.rows }
        ensures value { result
            ≡ difference (row_at self.now.subject.now.index.now.table.now.rows number).at self.now.base.now }
        ensures size { IsWithin (2 ^ 27) result }
    {
        let place = self.subject.place(number as usize);
        V3 {
            x: apart(place.x, self.base.x),
            y: apart(place.y, self.base.y),
            z: apart(place.z, self.base.z),
        }
    }
}

// The difference of two coordinates.
#[inline]
fn apart(a: i32, b: i64) -> i64
    requires a { unsigned_abs a ≤ COORDINATE }
    requires b { unsigned_abs b ≤ COORDINATE }
    ensures value { result ≡ a -ℤ b }
    ensures size { unsigned_abs result ≤ 2 ^ 27 }
{
    i64::from(a) - b
}
