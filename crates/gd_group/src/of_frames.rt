// The requirements of a frame file.
ghost use Rattle.std.specs.Prelude.{◌≡◌, ◌++◌, ◌∷◌, IfOk, OnOk, map, slice_get};
ghost use Rattle.gd_group.specs.Requirements.{form_feature, lower_part, of_frame, requirement, requirements};
ghost use Rattle.gd_group.specs.Requirements.{sections};
ghost use Rattle.gd_datum.specs.Listed.{listed_at};
ghost use Rattle.gd_group.specs.declared.requirement.Part.TheVariants as part;
ghost use Rattle.gd_frames.specs.Facts.{IsFile};
ghost use Rattle.gd_tables.specs.Kinds.{file_of, frame_of};

use crate::requirement::{Part, Requirement};
use crate::sections::sections_of;
use gd_base::Memory;
use gd_frames::{FeatureDef, FrameDef, FrameFile, Kind};
use gd_points::PointIndex;
use std::alloc::Global;

/// The requirements of a frame file, in the order of its frames (docs/FORMATS.md, "Groups of requirements"): a frame,
/// and after it its lower segment; of a circularity frame each section, in the order of their first points. The file
/// was read beside the table of the index.
pub fn requirements(
    alloc: Global,
    file: &FrameFile,
    index: &PointIndex<'_>,
) -> Result<Vec<Requirement>, Memory>
    requires file { IsFile index.now.table.now (file_of file.now) }
    ensures { IfOk result (λ v. v.items ≡ requirements (file_of file.now) index.now.table.now.rows) }
{
    let mut found = Vec::new(alloc);
    for number in 0..file.frames.len() {
        append_frame(
            alloc,
            file,
            index,
            number as u32,
            &file.frames[number],
            &mut found,
        )?;
    }
    Ok(found)
}

// The requirements of a frame.
fn append_frame(
    alloc: Global,
    file: &FrameFile,
    index: &PointIndex<'_>,
    number: u32,
    frame: &FrameDef,
    into: &mut Vec<Requirement>,
) -> Result<(), Memory>
    ensures { OnOk result (into.new.items ≡ into.old.items
        ++ of_frame file.now.features.items index.now.table.now.rows number (frame_of frame.now)) }
{
    match frame.kind {
        Kind::Circularity => append_sections(alloc, file, index, number, frame, into),
        _ => append_segments(number, frame, into),
    }
}

// A frame and its lower segment.
fn append_segments(number: u32, frame: &FrameDef, into: &mut Vec<Requirement>) -> Result<(), Memory>
    ensures { OnOk result (into.new.items ≡ into.old.items
        ++ map (requirement number) (part.Whole ∷ lower_part frame.now.lower)) }
{
    into.push(requirement(number, Part::Whole))?;
    if frame.lower.is_some() {
        into.push(requirement(number, Part::Lower))?;
    }
    Ok(())
}

fn requirement(number: u32, part: Part) -> Requirement
    ensures { result ≡ requirement number part }
{
    Requirement {
        frame: number,
        part,
    }
}

// The sections of a circularity frame.
fn append_sections(
    alloc: Global,
    file: &FrameFile,
    index: &PointIndex<'_>,
    number: u32,
    frame: &FrameDef,
    into: &mut Vec<Requirement>,
) -> Result<(), Memory>
    ensures { OnOk result (into.new.items ≡ into.old.items ++ map (requirement number) (map part.Section
        (listed_at (sections index.now.table.now.rows) (form_feature file.now.features.items (frame_of frame.now))))) }
{
    match form_feature(file, frame) {
        Some(def) => {
            let sections = sections_of(alloc, index, &def)?;
            push_sections(number, sections.as_slice(), into)
        }
        None => Ok(()),
    }
}

fn push_sections(number: u32, sections: &[u32], into: &mut Vec<Requirement>) -> Result<(), Memory>
    ensures { OnOk result (into.new.items ≡ into.old.items ++ map (requirement number) (map part.Section sections.now)) }
{
    for section in sections {
        into.push(requirement(number, Part::Section(*section)))?;
    }
    Ok(())
}

/// The feature that a form frame names: the first of its features, as it has one.
pub(crate) fn form_feature(file: &FrameFile, frame: &FrameDef) -> Option<FeatureDef>
    ensures { result ≡ form_feature file.now.features.items (frame_of frame.now) }
{
    match frame.features.as_slice() {
        [place, ..] => feature_at(file, *place),
        [] => None,
    }
}

fn feature_at(file: &FrameFile, place: u32) -> Option<FeatureDef>
    ensures { result ≡ slice_get file.now.features.items place }
{
    match file.features.get(place as usize) {
        Some(def) => Some(*def),
        None => None,
    }
}
