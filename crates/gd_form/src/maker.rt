// The task of a form of a feature.
ghost use Rattle.std.specs.Prelude.{◌≡◌, ◌<◌, ◌≤◌, length};
ghost use Rattle.gd_axis.specs.Sizes.{DIRECTION_SIZE, POINT_SIZE};
ghost use Rattle.gd_base.specs.Limits.{TOLERANCE};
ghost use Rattle.gd_dir.specs.declared.shape.FormShape.TheVariants.{Flat};
ghost use Rattle.gd_flat.specs.Judged.{numbers_of};
ghost use Rattle.gd_form.specs.FormTasks.{asked_by, asked_for};
ghost use Rattle.gd_vec.specs.Vector.{IsWithin};

use crate::form::{FormDef, FormTask};
use gd_axis::{AxisDef, Judged, axis_task};
use gd_dir::FormShape;
use gd_flat::feature_task;
use gd_points::PointIndex;

/// The task of a form over the points of its feature, or of its group, which are found without a look at the whole
/// table. It takes no memory. A line's own point is its first, and its axis is looked for within 2^b units of that,
/// where b is the least with 2^b at least the tolerance.
pub fn form_task<'a>(index: &'a PointIndex<'a>, def: &FormDef) -> FormTask<'a>
    requires some { 0 < length (numbers_of def.now.feature def.now.group index.now.table.now.rows) }
    requires direction { IsWithin DIRECTION_SIZE def.now.direction }
    requires point { IsWithin POINT_SIZE def.now.point }
    requires shift { def.now.shift ≤ 28 }
    requires tolerance { def.now.tolerance ≤ TOLERANCE }
    ensures asked { asked_by result ≡ asked_for def.now index.now.table.now.rows }
{
    match def.shape {
        FormShape::Flat => flat_form(index, def),
        FormShape::Line => axis_form(index, def),
        FormShape::Circle => axis_form(index, def),
        FormShape::Cylinder => axis_form(index, def),
    }
}

// The task of flatness.
fn flat_form<'a>(index: &'a PointIndex<'a>, def: &FormDef) -> FormTask<'a>
    requires flat { def.now.shape ≡ Flat }
    requires some { 0 < length (numbers_of def.now.feature def.now.group index.now.table.now.rows) }
    requires tolerance { def.now.tolerance ≤ TOLERANCE }
    ensures asked { asked_by result ≡ asked_for def.now index.now.table.now.rows }
{
    FormTask::Flat(feature_task(index, def.feature, def.group, def.tolerance))
}

// The task of a form about an axis.
fn axis_form<'a>(index: &'a PointIndex<'a>, def: &FormDef) -> FormTask<'a>
    requires axis { def.now.shape ≡ Flat → ⊥ }
    requires some { 0 < length (numbers_of def.now.feature def.now.group index.now.table.now.rows) }
    requires direction { IsWithin DIRECTION_SIZE def.now.direction }
    requires point { IsWithin POINT_SIZE def.now.point }
    requires shift { def.now.shift ≤ 28 }
    requires tolerance { def.now.tolerance ≤ TOLERANCE }
    ensures asked { asked_by result ≡ asked_for def.now index.now.table.now.rows }
{
    let about = AxisDef {
        shape: def.shape,
        direction: def.direction,
        point: def.point,
        shift: def.shift,
        tolerance: def.tolerance,
    };
    FormTask::Axis(axis_task(judged_of(index, def.feature, def.group), &about))
}

// The points of a feature, or of a group of it.
fn judged_of<'a>(index: &'a PointIndex<'a>, feature: u32, group: Option<u32>) -> Judged<'a>
    requires { 0 < length (numbers_of feature group index.now.table.now.rows) }
    ensures numbers { result.numbers.now ≡ numbers_of feature group index.now.table.now.rows }
    ensures table { result.points.table.now.rows ≡ index.now.table.now.rows }
{
    Judged::of(index, feature, group).unwrap()
}
