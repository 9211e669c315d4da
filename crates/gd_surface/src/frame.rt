// The conditions of a profile or a runout frame.
ghost use Rattle.std.specs.Prelude.{◌≡◌, ◌≤◌, ◌++◌, length, OnOk, OnErr, IfOk, slice_get};
ghost use Rattle.std.specs.List.{All};
ghost use Rattle.gd_base.specs.Limits.{TOLERANCE};
ghost use Rattle.gd_datum.specs.Facts.{HasPoints};
ghost use Rattle.gd_datum.specs.Listed.{listed_at};
ghost use Rattle.gd_frames.specs.Combinations.{feature_of};
ghost use Rattle.gd_frames.specs.Counts.{count_at, frame_conditions};
ghost use Rattle.gd_frames.specs.Facts.{IsFile};
ghost use Rattle.gd_points.specs.Table.{HasRows};
ghost use Rattle.gd_surface.specs.Facts.{IsOfSurface};
ghost use Rattle.gd_surface.specs.Kinds.{row};
ghost use Rattle.gd_surface.specs.Listed.{first_datum, of_features, of_frame, of_places};
ghost use Rattle.gd_tables.specs.Kinds.{file_of, frame_of};
ghost use Rattle.gd_zone.specs.Conditions.{IsCondition};

use crate::row::{Asked, append_row};
use gd_base::Memory;
use gd_frames::{DatumRef, FeatureDef, FrameDef, FrameFile};
use gd_points::PointIndex;
use gd_zone::Condition;
use std::alloc::Global;

/// Appends the conditions of a profile or a runout frame at tolerance `t`, in units: those of its features, in their
/// order (docs/KINDS.md, "Profile" and "Runout"). The frame is named by its place in the file, which was read beside
/// the table of the index. On `Memory` the list is as it was.
pub fn surface_conditions(
    alloc: Global,
    file: &FrameFile,
    index: &PointIndex<'_>,
    frame: u32,
    t: u32,
    into: &mut Vec<Condition>,
) -> Result<(), Memory>
    requires file { IsFile index.now.table.now (file_of file.now) }
    requires frame { IsOfSurface (file_of file.now) frame }
    requires t { t ≤ TOLERANCE }
    ensures appended { OnOk result (into.new.items ≡ into.old.items
        ++ of_frame (file_of file.now) index.now.table.now.rows frame t) }
    ensures memory { OnErr result (into.new.items ≡ into.old.items) }
    ensures count { OnOk result (length (of_frame (file_of file.now) index.now.table.now.rows frame t)
        ≡ count_at (frame_conditions file.now.features.items index.now.table.now.rows)
        (slice_get (file_of file.now).frames frame)) }
    ensures conditions { OnOk result (All IsCondition (of_frame (file_of file.now) index.now.table.now.rows frame t)) }
    ensures points { OnOk result (HasRows index.now.table.now.rows (length index.now.table.now.names)
        → All (HasPoints index.now.table.now.rows) (of_frame (file_of file.now) index.now.table.now.rows frame t)) }
{
    let conditions = of_frame(alloc, file, index, frame, t)?;
    into.extend_from_slice(conditions.as_slice())?;
    Ok(())
}

// The conditions of a frame by its place, in a list of their own.
fn of_frame(
    alloc: Global,
    file: &FrameFile,
    index: &PointIndex<'_>,
    frame: u32,
    t: u32,
) -> Result<Vec<Condition>, Memory>
    ensures { IfOk result (λ v. v.items ≡ of_frame (file_of file.now) index.now.table.now.rows frame t) }
{
    match file.frames.get(frame as usize) {
        Some(def) => of_features(alloc, file, index, def, t),
        None => Ok(Vec::new(alloc)),
    }
}

// The conditions of the features of a frame.
fn of_features(
    alloc: Global,
    file: &FrameFile,
    index: &PointIndex<'_>,
    frame: &FrameDef,
    t: u32,
) -> Result<Vec<Condition>, Memory>
    ensures { IfOk result (λ v. v.items
        ≡ of_features file.now.features.items file.now.datums.items index.now.table.now.rows t (frame_of frame.now)) }
{
    let features = file.features.as_slice();
    let asked = asked_of(file, frame, t);
    let mut conditions = Vec::new(alloc);
    for at in 0..frame.features.len() {
        append_place(
            alloc,
            features,
            index,
            &asked,
            frame.features[at],
            &mut conditions,
        )?;
    }
    Ok(conditions)
}

// What a frame asks of each of its features.
fn asked_of(file: &FrameFile, frame: &FrameDef, t: u32) -> Asked
    ensures kind { result.kind ≡ frame.now.kind }
    ensures datum { result.datum ≡ first_datum file.now.features.items file.now.datums.items frame.now.datums.items }
    ensures t { result.t ≡ t }
    ensures above { result.above ≡ frame.now.above }
{
    let datum = first_datum(file, frame.datums.as_slice());
    Asked {
        kind: frame.kind,
        datum,
        t,
        above: frame.above,
    }
}

fn append_place(
    alloc: Global,
    features: &[FeatureDef],
    index: &PointIndex<'_>,
    asked: &Asked,
    place: u32,
    into: &mut Vec<Condition>,
) -> Result<(), Memory>
    ensures { OnOk result (into.new.items ≡ into.old.items
        ++ listed_at (row index.now.table.now.rows asked.now.kind asked.now.datum asked.now.t asked.now.above)
        (slice_get features.now place)) }
{
    match features.get(place as usize) {
        Some(def) => append_row(alloc, index, asked, def, into),
        None => Ok(()),
    }
}

// The feature of the first datum word.
fn first_datum(file: &FrameFile, words: &[DatumRef]) -> Option<FeatureDef>
    ensures { result ≡ first_datum file.now.features.items file.now.datums.items words.now }
{
    match words {
        [word, ..] => feature_of(file, word),
        [] => None,
    }
}

// The feature of the datum that a word names.
fn feature_of(file: &FrameFile, word: &DatumRef) -> Option<FeatureDef>
    ensures { result ≡ feature_of file.now.features.items file.now.datums.items word.now }
{
    match file.datums.get(word.datum as usize) {
        Some(datum) => feature_at(file, datum.feature),
        None => None,
    }
}

fn feature_at(file: &FrameFile, place: u32) -> Option<FeatureDef>
    ensures { result ≡ slice_get file.now.features.items place }
{
    match file.features.get(place as usize) {
        Some(def) => Some(*def),
        None => None,
    }
}
