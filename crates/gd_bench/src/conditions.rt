// Whether conditions on 1,000 points are refuted over drawn cells of placements, and the matrices of the cells.
ghost use Rattle.std.specs.Prelude.{◌^◌};
ghost use Rattle.std.specs.Option.{IfSome};
ghost use Rattle.gd_quat.specs.Boxes.{Fits, MatrixFits, VectorFits};
ghost use Rattle.gd_zone.specs.Boxes.{IsPlaced};
ghost use Rattle.gd_zone.specs.Conditions.{HasBounds, IsCondition, IsPair, IsSurface};

use crate::directions::{Point, draw_ratio, widened};
use crate::draws::{Drawn, Draws};
use crate::rows::Row;
use gd_bound::bound;
use gd_interval::{Iv, point};
use gd_points::PointTable;
use gd_quat::{MatrixBox, RotationBox, VecBox, matrix};
use gd_vec::V3;
use gd_zone::{Condition, Demand, Placed, Subject, Surface};
use std::alloc::{AllocError, Global};

/// How many points the feature has. The last one lies far off, in a group of its own.
const MEMBERS: u32 = 1_000;

const ORIGIN: V3 = V3 { x: 0, y: 0, z: 0 };

/// The first point, about which the part is turned.
pub const FIRST: V3 = V3 {
    x: 7_919,
    y: 4_724,
    z: 9_988,
};

pub const DIRECTION: V3 = V3 { x: 1, y: 2, z: 2 };

const PLANE: Surface = Surface::Plane {
    direction: DIRECTION,
    point: ORIGIN,
};

const AXIS: Surface = Surface::Axis {
    direction: DIRECTION,
    point: ORIGIN,
};

const BALL: Surface = Surface::Ball { point: ORIGIN };

/// A box of rotations: three ratios within 2^20 of 2^-30 each.
#[derive(Clone, Copy)]
pub struct Turn {
    q1: Iv,
    q2: Iv,
    q3: Iv,
    ghost q1_fits: { Fits (2 ^ 30) q1 },
    ghost q2_fits: { Fits (2 ^ 30) q2 },
    ghost q3_fits: { Fits (2 ^ 30) q3 },
}

impl Turn {
    // The matrices of the rotations.
    #[inline(always)]
    fn matrix(&self) -> MatrixBox
        ensures { MatrixFits (2 ^ 32) result }
    {
        matrix(&RotationBox {
            q0: point(1_073_741_824),
            q1: self.q1,
            q2: self.q2,
            q3: self.q3,
        })
    }
}

impl Drawn for Turn {
    fn draw(draws: &mut Draws) -> Turn {
        let q1 = ratio(draws);
        let q2 = ratio(draws);
        let q3 = ratio(draws);
        Turn { q1, q2, q3 }
    }
}

impl Row for Turn {
    /// The ends of all entries of the matrix, added up.
    #[inline(always)]
    fn answer(&self, _points: &[Point]) -> (i128, i128) {
        let m = self.matrix();
        let (x, y, z) = (ends_sum(&m.x), ends_sum(&m.y), ends_sum(&m.z));
        (
            x.0.wrapping_add(y.0).wrapping_add(z.0),
            x.1.wrapping_add(y.1).wrapping_add(z.1),
        )
    }
}

fn ends_sum(row: &VecBox) -> (i128, i128) {
    (
        row.x.lo.wrapping_add(row.y.lo).wrapping_add(row.z.lo),
        row.x.hi.wrapping_add(row.y.hi).wrapping_add(row.z.hi),
    )
}

fn ratio(draws: &mut Draws) -> Iv
    ensures { Fits (2 ^ 30) result }
{
    widened(draw_ratio(draws)).it
}

/// A cell of placements, with translations of at most 16,384 units.
#[derive(Clone, Copy)]
pub struct Place {
    pub it: Placed,
    ghost fits: { IsPlaced it },
}

impl Drawn for Place {
    fn draw(draws: &mut Draws) -> Place {
        let turn = Turn::draw(draws);
        let shift = lengths(draws);
        let first = lengths(draws);
        let second = lengths(draws);
        Place {
            it: Placed {
                matrix: turn.matrix(),
                shift,
                first,
                second,
            },
        }
    }
}

fn lengths(draws: &mut Draws) -> VecBox
    ensures { VectorFits (2 ^ 45) result }
{
    let x = length(draws);
    let y = length(draws);
    let z = length(draws);
    VecBox { x, y, z }
}

fn length(draws: &mut Draws) -> Iv
    ensures { Fits (2 ^ 45) result }
{
    ratio(draws)
}

/// A points file with the feature.
pub fn members_text(alloc: Global) -> Result<String, AllocError> {
    let mut text = String::new(alloc);
    text.push_str("feature,group,x,y,z\n")?;
    for at in 1..MEMBERS {
        let (x, y, z) = (
            at * 7_919 % 20_001,
            at * 104_729 % 20_001,
            at * 29_989 % 20_001,
        );
        let row = format!(in alloc; "p,1,{x},{y},{z}\n")?;
        text.push_str(row.as_str())?;
    }
    text.push_str("p,2,60000,60000,60000\n")?;
    Ok(text)
}

/// The condition of a name, or `None` where none has it.
pub fn condition(name: &str) -> Option<Condition>
    ensures { IfSome result IsCondition }
{
    Some(match name {
        "plane" => asked(
            PLANE,
            Demand::Within {
                lo: Some(-182_800),
                hi: Some(182_800),
            },
            None,
        ),
        "axis" => asked(
            AXIS,
            Demand::Within {
                lo: None,
                hi: Some(182_800),
            },
            None,
        ),
        "ball" => asked(
            BALL,
            Demand::Within {
                lo: None,
                hi: Some(181_800),
            },
            None,
        ),
        "spread" => asked(PLANE, Demand::Spread { t: 90_000 }, None),
        "contact" => asked(PLANE, Demand::Contact { hi: -20_000 }, Some(1)),
        "hug" => asked(AXIS, Demand::HugOuter { slack: 60_000 }, Some(1)),
        _ => return None,
    })
}

/// A condition on the feature, whose points have the first offset.
fn asked(surface: Surface, demand: Demand, group: Option<u32>) -> Condition
    requires pair { IsPair surface demand }
    requires surface { IsSurface surface }
    requires bounds { HasBounds demand }
    ensures { IsCondition result }
{
    Condition {
        surface,
        demand,
        feature: 0,
        group,
        offset: 1,
    }
}

/// One turn, from a checksum to the next: the evidence of each cell.
#[inline(never)]
pub fn judge_all(subject: &Subject<'_>, places: &[Place], start: i128) -> i128
    requires { IsCondition subject.now.condition }
{
    let mut sum = start;
    for place in places {
        sum = match bound(subject, 1, &FIRST, &place.it) {
            None => sum.wrapping_add(1),
            Some(e) => (sum ^ i128::from(e.a)).wrapping_add(i128::from(e.b)),
        };
    }
    sum
}
