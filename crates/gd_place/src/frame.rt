// The conditions of a position or an orientation frame.
ghost use Rattle.std.specs.Prelude.{◌≡◌, ◌≤◌, ◌+◌, ◌++◌, ◌∷◌, [], length, pos, Some, OnOk, OnErr, IfOk, List, slice_get};
ghost use Rattle.std.specs.List.{All};
ghost use Rattle.std.specs.Option.{IfSome};
ghost use Rattle.gd_base.specs.Limits.{OFFSETS, TOLERANCE};
ghost use Rattle.gd_datum.specs.Facts.{HasPoints};
ghost use Rattle.gd_datum.specs.Listed.{listed_at};
ghost use Rattle.gd_frames.specs.Counts.{count_at, feature_offsets, frame_conditions, frame_offsets};
ghost use Rattle.gd_frames.specs.Facts.{IsFile};
ghost use Rattle.gd_place.specs.Facts.{IsPlaced, WasRead};
ghost use Rattle.gd_place.specs.Kinds.{demand, on_feature, own_offset};
ghost use Rattle.gd_place.specs.Listed.{of_feature, of_features, of_frame, of_places, offsets_at};
ghost use Rattle.gd_points.specs.Table.{HasRows, Table};
ghost use Rattle.gd_points.specs.declared.table.Row.{Row};
ghost use Rattle.gd_tables.specs.Kinds.{file_of, frame_of};
ghost use Rattle.gd_zone.specs.Conditions.{IsCondition};

use crate::demand::demand;
use gd_base::Memory;
use gd_datum::nominal_surface;
use gd_frames::{FeatureDef, FrameDef, FrameFile, Kind, Shape};
use gd_zone::Condition;
use std::alloc::Global;

/// Appends the conditions of a position or an orientation frame at tolerance `t`, in units: one a feature, in their
/// order (docs/KINDS.md, "Position" and "Orientation"). The frame is named by its place in the file. `offset` is that
/// of all features of a position: 0 for the frame itself, 1 for its lower segment. In an orientation the first axis,
/// hole or pin has the offset `offset`, each later one the next, and a plane has none; so `offset` is 1 or 2 there. On
/// `Memory` the list is as it was.
pub fn place_conditions(
    alloc: Global,
    file: &FrameFile,
    frame: u32,
    t: u32,
    offset: u32,
    into: &mut Vec<Condition>,
) -> Result<(), Memory>
    requires file { WasRead (file_of file.now) }
    requires frame { IsPlaced (file_of file.now) frame offset }
    requires t { t ≤ TOLERANCE }
    ensures appended { OnOk result (into.new.items ≡ into.old.items ++ of_frame (file_of file.now) frame t offset) }
    ensures memory { OnErr result (into.new.items ≡ into.old.items) }
    ensures count { OnOk result ((rows : List Row) → length (of_frame (file_of file.now) frame t offset)
        ≡ count_at (frame_conditions file.now.features.items rows) (slice_get (file_of file.now).frames frame)) }
    ensures conditions { OnOk result (All IsCondition (of_frame (file_of file.now) frame t offset)) }
    ensures points { OnOk result ((table : Table) → IsFile table (file_of file.now)
        → HasRows table.rows (length table.names)
        → All (HasPoints table.rows) (of_frame (file_of file.now) frame t offset)) }
{
    let conditions = of_frame(alloc, file, frame, t, offset)?;
    into.extend_from_slice(conditions.as_slice())?;
    Ok(())
}

// The conditions of a frame by its place, in a list of their own.
fn of_frame(
    alloc: Global,
    file: &FrameFile,
    frame: u32,
    t: u32,
    offset: u32,
) -> Result<Vec<Condition>, Memory>
    requires { IfSome (slice_get (file_of file.now).frames frame)
        (λ f. offset + frame_offsets file.now.features.items f ≤ OFFSETS + 1) }
    ensures { IfOk result (λ v. v.items ≡ of_frame (file_of file.now) frame t offset) }
{
    match file.frames.get(frame as usize) {
        Some(def) => of_features(alloc, file.features.as_slice(), def, t, offset),
        None => Ok(Vec::new(alloc)),
    }
}

// The conditions of the features of a frame.
fn of_features(
    alloc: Global,
    features: &[FeatureDef],
    frame: &FrameDef,
    t: u32,
    offset: u32,
) -> Result<Vec<Condition>, Memory>
    requires offsets { offset + frame_offsets features.now (frame_of frame.now) ≤ OFFSETS + 1 }
    ensures { IfOk result (λ v. v.items ≡ of_features features.now t offset (frame_of frame.now)) }
{
    let mut conditions = Vec::new(alloc);
    let mut next = offset;
    for at in 0..frame.features.len() {
        let place = frame.features[at];
        append_place(features, frame, t, next, place, &mut conditions)?;
        next += offsets_at(features, frame.kind, place);
    }
    Ok(conditions)
}

fn append_place(
    features: &[FeatureDef],
    frame: &FrameDef,
    t: u32,
    offset: u32,
    place: u32,
    into: &mut Vec<Condition>,
) -> Result<(), Memory>
    ensures { OnOk result (into.new.items ≡ into.old.items
        ++ listed_at (of_feature frame.now.kind frame.now.material t offset) (slice_get features.now place)) }
{
    match features.get(place as usize) {
        Some(def) => {
            into.push(on_feature(frame, def, t, offset))?;
            Ok(())
        }
        None => Ok(()),
    }
}

fn on_feature(frame: &FrameDef, def: &FeatureDef, t: u32, offset: u32) -> Condition
    ensures { result ≡ on_feature def.now (demand frame.now.material def.now.shape def.now t)
        (own_offset frame.now.kind def.now.shape offset) }
{
    Condition {
        surface: nominal_surface(def),
        demand: demand(frame.material, def, t),
        feature: def.feature,
        group: None,
        offset: own_offset(frame.kind, def.shape, offset),
    }
}

fn own_offset(kind: Kind, shape: Shape, offset: u32) -> u32
    ensures { result ≡ own_offset kind shape offset }
{
    match (kind, shape) {
        (Kind::Orientation, Shape::Plane) => 0,
        _ => offset,
    }
}

fn feature_offsets(kind: Kind, shape: Shape) -> u32
    ensures { result ≡ feature_offsets kind shape }
{
    match (kind, shape) {
        (Kind::Orientation, Shape::Plane) => 0,
        (Kind::Orientation, _) => 1,
        _ => 0,
    }
}

fn offsets_at(features: &[FeatureDef], kind: Kind, place: u32) -> u32
    ensures { result ≡ offsets_at features.now kind place }
{
    match features.get(place as usize) {
        Some(def) => feature_offsets(kind, def.shape),
        None => 0,
    }
}
