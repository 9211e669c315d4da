// The conditions of a feature of a profile or a runout frame.
ghost use Rattle.std.specs.Prelude.{◌≡◌, ◌++◌, OnOk};
ghost use Rattle.gd_surface.specs.Kinds.{circular_runout, on_points, profile, row, runout_surface, total_runout};

use crate::demand::{demand, runout};
use gd_base::Memory;
use gd_datum::{append_each, groups_of, nominal_surface};
use gd_frames::{FeatureDef, Kind, Shape};
use gd_points::PointIndex;
use gd_zone::{Condition, Demand, Surface};
use std::alloc::Global;

/// What a frame asks of each of its features: its kind, the feature of its first datum word, its tolerance in units,
/// and how much of a profile's tolerance lies above, in units.
#[derive(Clone, Copy)]
pub(crate) struct Asked {
    pub kind: Kind,
    pub datum: Option<FeatureDef>,
    pub t: u32,
    pub above: Option<u32>,
}

// A demand on all points of a feature, without an offset.
fn on_points(surface: Surface, demand: Demand, feature: u32) -> Condition
    ensures { result ≡ on_points surface demand feature }
{
    Condition {
        surface,
        demand,
        feature,
        group: None,
        offset: 0,
    }
}

// The surface of a runout about the axis of a datum's feature.
fn runout_surface(datum: &FeatureDef, shape: Shape) -> Surface
    ensures { result ≡ runout_surface datum.now shape }
{
    let direction = datum.direction;
    let point = datum.point;
    match shape {
        Shape::Plane => Surface::Plane { direction, point },
        _ => Surface::Axis { direction, point },
    }
}

/// Appends the conditions of a feature that a profile or a runout frame names. A runout is judged about the axis of its
/// datum's feature; where there is none it demands nothing. On `Memory` some of them are appended.
pub(crate) fn append_row(
    alloc: Global,
    index: &PointIndex<'_>,
    asked: &Asked,
    def: &FeatureDef,
    into: &mut Vec<Condition>,
) -> Result<(), Memory>
    ensures { OnOk result (into.new.items ≡ into.old.items
        ++ row index.now.table.now.rows asked.now.kind asked.now.datum asked.now.t asked.now.above def.now) }
{
    let t = asked.t;
    match (asked.kind, asked.datum) {
        (Kind::Profile, _) => append_profile(def, t, asked.above, into),
        (Kind::CircularRunout, Some(datum)) => append_circular(alloc, index, &datum, def, t, into),
        (Kind::TotalRunout, Some(datum)) => append_total(&datum, def, t, into),
        _ => Ok(()),
    }
}

fn append_profile(
    def: &FeatureDef,
    t: u32,
    u: Option<u32>,
    into: &mut Vec<Condition>,
) -> Result<(), Memory>
    ensures { OnOk result (into.new.items ≡ into.old.items ++ profile def.now t u) }
{
    let demand = demand(Kind::Profile, def, t, u);
    into.push(on_points(nominal_surface(def), demand, def.feature))?;
    Ok(())
}

// Each circular element by itself.
fn append_circular(
    alloc: Global,
    index: &PointIndex<'_>,
    datum: &FeatureDef,
    def: &FeatureDef,
    t: u32,
    into: &mut Vec<Condition>,
) -> Result<(), Memory>
    ensures { OnOk result (into.new.items ≡ into.old.items
        ++ circular_runout index.now.table.now.rows datum.now def.now t) }
{
    let groups = groups_of(alloc, index, 0, def.feature)?;
    let surface = runout_surface(datum, def.shape);
    append_each(surface, runout(t), def.feature, groups.as_slice(), into)
}

// All elements together.
fn append_total(
    datum: &FeatureDef,
    def: &FeatureDef,
    t: u32,
    into: &mut Vec<Condition>,
) -> Result<(), Memory>
    ensures { OnOk result (into.new.items ≡ into.old.items ++ total_runout datum.now def.now t) }
{
    let surface = runout_surface(datum, def.shape);
    into.push(on_points(surface, runout(t), def.feature))?;
    Ok(())
}
