// Which form about an axis is asked of some points, and the task of it.
ghost use Rattle.std.specs.Prelude.{◌≡◌, ◌<◌, ◌≤◌, ◌^◌, ◌-◌, get_or};
ghost use Rattle.gd_axis.specs.Sizes.{DIRECTION_SIZE, POINT_SIZE};
ghost use Rattle.gd_base.specs.Limits.{TOLERANCE};
ghost use Rattle.gd_dir.specs.declared.shape.FormShape.TheVariants.{Flat, Line};
ghost use Rattle.gd_axis.specs.AxisBoxes.{IsLeastPower, least_power};
ghost use Rattle.gd_flat.specs.FlatTests.{point_at};
ghost use Rattle.gd_vec.specs.Vector.{IsWithin};

use crate::judged::{Judged, number_at, point_of};
use crate::task::AxisTask;
use gd_dir::FormShape;
use gd_vec::V3;

/// A form about an axis: a line, a circle or a cylinder. `direction` is that of a circle's section, and no other shape
/// reads it. `point` is the own point of a circle or a cylinder, in units, and their axes lie within 2^`shift` units of
/// it along each axis of coordinates; a line reads neither. The tolerance is in units.
#[derive(Clone, Copy, Debug)]
pub struct AxisDef {
    pub shape: FormShape,
    pub direction: V3,
    pub point: V3,
    pub shift: u32,
    pub tolerance: u32,
}

// 2^bits.
#[inline]
fn power(bits: u32) -> u32
    requires { bits < 24 }
    ensures { result ≡ 2 ^ bits }
{
    1 << bits
}

// The least number of bits with 2^bits at least a tolerance.
fn bits_above(tolerance: u32) -> u32
    requires { tolerance ≤ TOLERANCE }
    ensures least { IsLeastPower tolerance result }
    ensures few { result ≤ 24 }
{
    for bits in 0..24 {
        if tolerance <= power(bits) {
            return bits;
        }
    }
    24
}

// The least number of bits with 2^bits at least a tolerance, as a function of it.
#[tactic(auto, using(crate::proofs::Powers::power_is))]
fn shift_above(tolerance: u32) -> u32
    requires { tolerance ≤ TOLERANCE }
    ensures least { IsLeastPower tolerance result }
    ensures power { result ≡ least_power tolerance }
    ensures few { result ≤ 24 }
{
    bits_above(tolerance)
}

/// The task of a form about an axis over the points that are judged. A line's own point is the first of them, and its
/// axis is looked for within 2^b units of that, where b is the least with 2^b at least the tolerance.
pub fn axis_task<'a>(judged: Judged<'a>, def: &AxisDef) -> AxisTask<'a>
    requires axis { def.now.shape ≡ Flat → ⊥ }
    requires direction { IsWithin DIRECTION_SIZE def.now.direction }
    requires point { IsWithin POINT_SIZE def.now.point }
    requires shift { def.now.shift ≤ 28 }
    requires tolerance { def.now.tolerance ≤ TOLERANCE }
    ensures shape { result.shape ≡ def.now.shape }
    ensures direction { result.direction ≡ def.now.direction }
    ensures tolerance { result.tolerance ≡ def.now.tolerance }
    ensures rows { result.judged.points.table.now.rows ≡ judged.entry.points.table.now.rows }
    ensures numbers { result.judged.numbers.now ≡ judged.entry.numbers.now }
    ensures point { (def.now.shape ≡ Line → ⊥) → result.own ≡ def.now.point }
    ensures shift { (def.now.shape ≡ Line → ⊥) → result.shift ≡ def.now.shift }
    ensures reach { def.now.shape ≡ Line → IsLeastPower def.now.tolerance result.shift }
    ensures power { def.now.shape ≡ Line → result.shift ≡ least_power def.now.tolerance }
{
    match def.shape {
        FormShape::Line => line_task(judged, def),
        FormShape::Flat => about_point(judged, def),
        FormShape::Circle => about_point(judged, def),
        FormShape::Cylinder => about_point(judged, def),
    }
}

// The task of a line.
fn line_task<'a>(judged: Judged<'a>, def: &AxisDef) -> AxisTask<'a>
    requires line { def.now.shape ≡ Line }
    requires direction { IsWithin DIRECTION_SIZE def.now.direction }
    requires tolerance { def.now.tolerance ≤ TOLERANCE }
    ensures shape { result.shape ≡ def.now.shape }
    ensures direction { result.direction ≡ def.now.direction }
    ensures tolerance { result.tolerance ≡ def.now.tolerance }
    ensures rows { result.judged.points.table.now.rows ≡ judged.entry.points.table.now.rows }
    ensures numbers { result.judged.numbers.now ≡ judged.entry.numbers.now }
    ensures reach { IsLeastPower def.now.tolerance result.shift }
    ensures power { result.shift ≡ least_power def.now.tolerance }
{
    AxisTask {
        shape: def.shape,
        direction: def.direction,
        own: point_of(&judged.points, number_at(&judged, 0)),
        shift: shift_above(def.tolerance),
        tolerance: def.tolerance,
        judged,
    }
}

// The task of a circle or a cylinder.
fn about_point<'a>(judged: Judged<'a>, def: &AxisDef) -> AxisTask<'a>
    requires axis { def.now.shape ≡ Flat → ⊥ }
    requires round { def.now.shape ≡ Line → ⊥ }
    requires direction { IsWithin DIRECTION_SIZE def.now.direction }
    requires point { IsWithin POINT_SIZE def.now.point }
    requires shift { def.now.shift ≤ 28 }
    requires tolerance { def.now.tolerance ≤ TOLERANCE }
    ensures shape { result.shape ≡ def.now.shape }
    ensures direction { result.direction ≡ def.now.direction }
    ensures tolerance { result.tolerance ≡ def.now.tolerance }
    ensures rows { result.judged.points.table.now.rows ≡ judged.entry.points.table.now.rows }
    ensures numbers { result.judged.numbers.now ≡ judged.entry.numbers.now }
    ensures own { result.own ≡ def.now.point }
    ensures reach { result.shift ≡ def.now.shift }
{
    AxisTask {
        shape: def.shape,
        direction: def.direction,
        own: def.point,
        shift: def.shift,
        tolerance: def.tolerance,
        judged,
    }
}
