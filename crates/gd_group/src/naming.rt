// The printed names of requirements and groups.
ghost use Rattle.std.specs.Prelude.{◌≡◌, ◌++◌, IfOk, OnOk};
ghost use Rattle.std.specs.String.{string_bytes};
ghost use Rattle.gd_group.specs.Labels.{label, more_names, name_of, suffix};
ghost use Rattle.gd_tables.specs.Kinds.{file_of};

use crate::requirement::{Part, Requirement};
use gd_base::{Memory, Name2};
use gd_frames::{FrameDef, FrameFile};
use std::alloc::Global;

/// The label of a group: the names of its requirements joined by `+` (docs/FORMATS.md, "Groups of requirements").
pub fn label(alloc: Global, file: &FrameFile, group: &[Requirement]) -> Result<Name2, Memory>
    ensures { IfOk result (λ name. name ≡ label (file_of file.now) group.now) }
{
    let mut text = String::new(alloc);
    match group {
        [] => {}
        [first, more @ ..] => {
            append_name(alloc, file, first, &mut text)?;
            append_more(alloc, file, more, &mut text)?;
        }
    }
    Name2::of(alloc, text.as_str())
}

/// The name of a requirement: that of its frame, with `/lower` after it for a lower segment, and `#G` for the section G of
/// a circularity.
pub fn name_of(alloc: Global, file: &FrameFile, requirement: &Requirement) -> Result<Name2, Memory>
    ensures { IfOk result (λ name. name ≡ name_of (file_of file.now) requirement.now) }
{
    let mut text = String::new(alloc);
    append_name(alloc, file, requirement, &mut text)?;
    Name2::of(alloc, text.as_str())
}

// The names of the requirements after the first.
fn append_more(
    alloc: Global,
    file: &FrameFile,
    more: &[Requirement],
    into: &mut String,
) -> Result<(), Memory>
    ensures { OnOk result (string_bytes into.new ≡ string_bytes into.old ++ more_names (file_of file.now) more.now) }
{
    for at in 0..more.len() {
        into.push_str("+")?;
        append_name(alloc, file, &more[at], into)?;
    }
    Ok(())
}

fn append_name(
    alloc: Global,
    file: &FrameFile,
    requirement: &Requirement,
    into: &mut String,
) -> Result<(), Memory>
    ensures { OnOk result (string_bytes into.new ≡ string_bytes into.old ++ name_of (file_of file.now) requirement.now) }
{
    match file.frames.get(requirement.frame as usize) {
        Some(frame) => append_part(alloc, frame, requirement.part, into),
        None => Ok(()),
    }
}

// The name of a part of a frame.
fn append_part(alloc: Global, frame: &FrameDef, part: Part, into: &mut String) -> Result<(), Memory>
    ensures { OnOk result (string_bytes into.new ≡ string_bytes into.old ++ (frame.now.name ++ suffix part)) }
{
    into.push_str(frame.name.text())?;
    append_suffix(alloc, part, into)
}

fn append_suffix(alloc: Global, part: Part, into: &mut String) -> Result<(), Memory>
    ensures { OnOk result (string_bytes into.new ≡ string_bytes into.old ++ suffix part) }
{
    match part {
        Part::Whole => Ok(()),
        Part::Lower => Ok(into.push_str("/lower")?),
        Part::Section(section) => Ok(into.push_str(format!(in alloc; "#{section}")?.as_str())?),
    }
}
