// The form that a group asks.
ghost use Rattle.std.specs.Prelude.{◌≡◌, ◌∷◌, [], IfSome, option_map};
ghost use Rattle.gd_frames.specs.Facts.{IsFile};
ghost use Rattle.gd_group.specs.Members.{IsForm, IsGroup};
ghost use Rattle.gd_group.specs.Requirements.{form_feature, section_of};
ghost use Rattle.gd_group.specs.Tasks.{form_of, form_of_part, form_with, shape_of};
ghost use Rattle.gd_tables.specs.Kinds.{file_of, frame_of};

use crate::of_frames::form_feature;
use crate::requirement::{Part, Requirement};
use gd_dir::FormShape;
use gd_form::FormDef;
use gd_frames::{FeatureDef, FrameDef, FrameFile, Kind};
use gd_points::PointIndex;

/// The form that a group of a file's requirements asks: that of its first requirement, as a form is judged by itself.
/// `None` where the group is judged at a placement. The file was read beside the table of the index.
pub(crate) fn form_of(
    file: &FrameFile,
    index: &PointIndex<'_>,
    group: &[Requirement],
) -> Option<FormDef>
    requires file { IsFile index.now.table.now (file_of file.now) }
    requires group { IsGroup (file_of file.now) index.now.table.now.rows group.now }
    ensures value { result ≡ form_of (file_of file.now) group.now }
    ensures form { IfSome result (IsForm index.now.table.now.rows) }
{
    form_of_first(file, group)
}

fn form_of_first(file: &FrameFile, group: &[Requirement]) -> Option<FormDef>
    ensures { result ≡ form_of (file_of file.now) group.now }
{
    match group {
        [first, ..] => form_of_requirement(file, first),
        [] => None,
    }
}

fn form_of_requirement(file: &FrameFile, requirement: &Requirement) -> Option<FormDef>
    ensures { result ≡ form_of (file_of file.now) (requirement.now ∷ []) }
{
    match file.frames.get(requirement.frame as usize) {
        Some(frame) => form_of_part(file, requirement.part, frame),
        None => None,
    }
}

// The form of a part of a frame, if the frame is of a form.
fn form_of_part(file: &FrameFile, part: Part, frame: &FrameDef) -> Option<FormDef>
    ensures { result ≡ form_of_part (file_of file.now) part (frame_of frame.now) }
{
    match shape_of(frame.kind) {
        Some(shape) => form_of_shape(file, part, frame, shape),
        None => None,
    }
}

fn form_of_shape(
    file: &FrameFile,
    part: Part,
    frame: &FrameDef,
    shape: FormShape,
) -> Option<FormDef>
    ensures { result ≡ option_map (form_with (file_of file.now) part (frame_of frame.now) shape)
        (form_feature file.now.features.items (frame_of frame.now)) }
{
    match form_feature(file, frame) {
        Some(def) => Some(form_with(file, part, frame, shape, &def)),
        None => None,
    }
}

// A form of a feature at the tolerance of a frame.
fn form_with(
    file: &FrameFile,
    part: Part,
    frame: &FrameDef,
    shape: FormShape,
    def: &FeatureDef,
) -> FormDef
    ensures { result ≡ form_with (file_of file.now) part (frame_of frame.now) shape def.now }
{
    FormDef {
        shape,
        feature: def.feature,
        group: section_of(part),
        direction: def.direction,
        point: def.point,
        shift: file.shift,
        tolerance: frame.tolerance,
    }
}

// The section that a part is.
fn section_of(part: Part) -> Option<u32>
    ensures { result ≡ section_of part }
{
    match part {
        Part::Section(group) => Some(group),
        _ => None,
    }
}

// The zone of a form, by the kind of its frame.
fn shape_of(kind: Kind) -> Option<FormShape>
    ensures { result ≡ shape_of kind }
{
    match kind {
        Kind::Flatness => Some(FormShape::Flat),
        Kind::Straightness => Some(FormShape::Line),
        Kind::Circularity => Some(FormShape::Circle),
        Kind::Cylindricity => Some(FormShape::Cylinder),
        _ => None,
    }
}
