// The conditions of a group that is judged at a placement.
ghost use Rattle.std.specs.Prelude.{◌≡◌, ◌≤◌, ◌++◌, Some, IfOk, OnOk, length, slice_get};
ghost use Rattle.std.specs.List.{All, flat_map};
ghost use Rattle.gd_base.specs.Limits.{CONDITIONS, OFFSETS};
ghost use Rattle.gd_datum.specs.Facts.{HasPoints};
ghost use Rattle.gd_datum.specs.Listed.{of_words};
ghost use Rattle.gd_frames.specs.Facts.{IsFile};
ghost use Rattle.gd_group.specs.Conditions.{group_words, most_offsets, of_group, of_lower, of_part, of_requirement};
ghost use Rattle.gd_group.specs.Conditions.{of_whole, words_of, words_of_part};
ghost use Rattle.gd_group.specs.Groups.{judged_with};
ghost use Rattle.gd_group.specs.declared.requirement.Requirement.{Requirement};
ghost use Rattle.gd_tables.specs.Kinds.{file_of, frame_of};
ghost use Rattle.gd_zone.specs.Conditions.{IsCondition};

use crate::points::show_points;
use crate::requirement::{Part, Requirement};
use gd_base::Memory;
use gd_datum::datum_conditions;
use gd_frames::{DatumRef, FrameDef, FrameFile, Kind};
use gd_place::place_conditions;
use gd_points::PointIndex;
use gd_surface::surface_conditions;
use gd_zone::Condition;
use std::alloc::Global;

/// The conditions of a group: those of the datum words of its first requirement, and then those of each requirement in
/// order (docs/KINDS.md). A form has none. The file was read beside the table of the index. A group of `groups_of` has
/// at most 4,096.
pub fn conditions_of(
    alloc: Global,
    file: &FrameFile,
    index: &PointIndex<'_>,
    group: &[Requirement],
) -> Result<Vec<Condition>, Memory>
    requires file { IsFile index.now.table.now (file_of file.now) }
    ensures value { IfOk result (λ v. v.items ≡ of_group (file_of file.now) index.now.table.now.rows group.now) }
    ensures conditions { OnOk result (All IsCondition (of_group (file_of file.now) index.now.table.now.rows group.now)) }
    ensures points { OnOk result
        (All (HasPoints index.now.table.now.rows) (of_group (file_of file.now) index.now.table.now.rows group.now)) }
    ensures few { OnOk result ((r : Requirement) → group.now ≡ judged_with (file_of file.now) r
        → length (of_group (file_of file.now) index.now.table.now.rows group.now) ≤ CONDITIONS) }
{
    show_points(index);
    let mut conditions = Vec::new(alloc);
    append_words(alloc, file, index, group, &mut conditions)?;
    append_requirements(alloc, file, index, group, &mut conditions)?;
    Ok(conditions)
}

/// How many local offsets conditions name: they are numbered from 1, and there are at most 2.
pub fn offsets_of(conditions: &[Condition]) -> u32
    requires { All IsCondition conditions.now }
    ensures value { result ≡ most_offsets conditions.now }
    ensures few { result ≤ OFFSETS }
{
    let mut most = 0;
    for condition in conditions {
        most = most.max(condition.offset);
    }
    most
}

// The conditions of the datum words of a group, which are those of its first requirement.
fn append_words(
    alloc: Global,
    file: &FrameFile,
    index: &PointIndex<'_>,
    group: &[Requirement],
    into: &mut Vec<Condition>,
) -> Result<(), Memory>
    requires file { IsFile index.now.table.now (file_of file.now) }
    ensures { OnOk result (into.new.items ≡ into.old.items ++ of_words file.now.features.items file.now.datums.items
        index.now.table.now.rows (group_words (file_of file.now) group.now)) }
{
    match group {
        [first, ..] => append_words_of(alloc, file, index, first, into),
        [] => Ok(()),
    }
}

fn append_words_of(
    alloc: Global,
    file: &FrameFile,
    index: &PointIndex<'_>,
    requirement: &Requirement,
    into: &mut Vec<Condition>,
) -> Result<(), Memory>
    requires file { IsFile index.now.table.now (file_of file.now) }
    ensures { OnOk result (into.new.items ≡ into.old.items ++ of_words file.now.features.items file.now.datums.items
        index.now.table.now.rows (words_of (file_of file.now) requirement.now)) }
{
    match file.frames.get(requirement.frame as usize) {
        Some(frame) => {
            datum_conditions(alloc, file, index, words_of(requirement.part, frame), into)
        }
        None => Ok(()),
    }
}

// The datum words that a part of a frame is judged by.
fn words_of<'f>(part: Part, frame: &'f FrameDef) -> &'f [DatumRef]
    ensures { result.now ≡ words_of_part part (frame_of frame.now) }
{
    match part {
        Part::Whole => frame.datums.as_slice(),
        Part::Lower => frame.lower_datums.as_slice(),
        Part::Section(_) => &[],
    }
}

fn append_requirements(
    alloc: Global,
    file: &FrameFile,
    index: &PointIndex<'_>,
    group: &[Requirement],
    into: &mut Vec<Condition>,
) -> Result<(), Memory>
    requires file { IsFile index.now.table.now (file_of file.now) }
    ensures { OnOk result (into.new.items ≡ into.old.items
        ++ flat_map (of_requirement (file_of file.now) index.now.table.now.rows) group.now) }
{
    for at in 0..group.len() {
        append_requirement(alloc, file, index, &group[at], into)?;
    }
    Ok(())
}

fn append_requirement(
    alloc: Global,
    file: &FrameFile,
    index: &PointIndex<'_>,
    requirement: &Requirement,
    into: &mut Vec<Condition>,
) -> Result<(), Memory>
    requires file { IsFile index.now.table.now (file_of file.now) }
    ensures { OnOk result (into.new.items ≡ into.old.items
        ++ of_requirement (file_of file.now) index.now.table.now.rows requirement.now) }
{
    match file.frames.get(requirement.frame as usize) {
        Some(frame) => append_part(alloc, file, index, requirement, frame, into),
        None => Ok(()),
    }
}

// The conditions of a part of a frame.
fn append_part(
    alloc: Global,
    file: &FrameFile,
    index: &PointIndex<'_>,
    requirement: &Requirement,
    frame: &FrameDef,
    into: &mut Vec<Condition>,
) -> Result<(), Memory>
    requires file { IsFile index.now.table.now (file_of file.now) }
    requires frame { slice_get (file_of file.now).frames requirement.now.frame ≡ Some (frame_of frame.now) }
    ensures { OnOk result (into.new.items ≡ into.old.items ++ of_part (file_of file.now) index.now.table.now.rows
        requirement.now.frame requirement.now.part (frame_of frame.now)) }
{
    let number = requirement.frame;
    match requirement.part {
        Part::Whole => append_whole(alloc, file, index, number, frame, into),
        Part::Lower => append_lower(alloc, file, index, number, frame, into),
        Part::Section(_) => Ok(()),
    }
}

// A frame itself: a position is located by its datums, and the offsets of an orientation begin with 1.
fn append_whole(
    alloc: Global,
    file: &FrameFile,
    index: &PointIndex<'_>,
    number: u32,
    frame: &FrameDef,
    into: &mut Vec<Condition>,
) -> Result<(), Memory>
    requires file { IsFile index.now.table.now (file_of file.now) }
    requires frame { slice_get (file_of file.now).frames number ≡ Some (frame_of frame.now) }
    ensures { OnOk result (into.new.items ≡ into.old.items
        ++ of_whole (file_of file.now) index.now.table.now.rows number frame.now.kind frame.now.tolerance) }
{
    let t = frame.tolerance;
    match frame.kind {
        Kind::Position => place_conditions(alloc, file, number, t, 0, into),
        Kind::Orientation => place_conditions(alloc, file, number, t, 1, into),
        Kind::Profile => surface_conditions(alloc, file, index, number, t, into),
        Kind::CircularRunout => surface_conditions(alloc, file, index, number, t, into),
        Kind::TotalRunout => surface_conditions(alloc, file, index, number, t, into),
        _ => Ok(()),
    }
}

// A lower segment, whose pattern the offset 1 moves.
fn append_lower(
    alloc: Global,
    file: &FrameFile,
    index: &PointIndex<'_>,
    number: u32,
    frame: &FrameDef,
    into: &mut Vec<Condition>,
) -> Result<(), Memory>
    requires file { IsFile index.now.table.now (file_of file.now) }
    requires frame { slice_get (file_of file.now).frames number ≡ Some (frame_of frame.now) }
    ensures { OnOk result (into.new.items ≡ into.old.items ++ of_lower (file_of file.now) number frame.now.lower) }
{
    match frame.lower {
        Some(t) => place_conditions(alloc, file, number, t, 1, into),
        None => Ok(()),
    }
}
