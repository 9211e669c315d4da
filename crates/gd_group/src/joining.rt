// Which requirements are judged together.
ghost use Rattle.std.specs.Prelude.{◌≡◌, ◌++◌, ◌∷◌, [], ◌≤◌, IfOk, OnOk, cond, filter, length, map, option_map};
ghost use Rattle.gd_base.specs.Limits.{FRAMES};
ghost use Rattle.gd_frames.specs.Counts.{joins};
ghost use Rattle.gd_group.specs.Groups.{begins, groups, if_joined, is_first, joined_frame, judged_with, partners};
ghost use Rattle.gd_group.specs.Groups.{whole};
ghost use Rattle.gd_group.specs.Lists.{lists_of};
ghost use Rattle.gd_tables.specs.Kinds.{file_of, frame_of};

use crate::requirement::{Part, Requirement};
use gd_base::Memory;
use gd_frames::{FrameDef, FrameFile, is_joined, joins};
use std::alloc::Global;

/// The requirements in groups: those that are judged together, so that one placement has to meet the conditions of all
/// of them (docs/KINDS.md, "What is this project's own"). The groups stand in the order of their first requirements,
/// and the requirements of a group in the order of the file, which has at most 256 frames.
pub fn groups_of(
    alloc: Global,
    file: &FrameFile,
    requirements: &[Requirement],
) -> Result<Vec<Vec<Requirement>>, Memory>
    requires few { length file.now.frames.items ≤ FRAMES }
    ensures { IfOk result (λ v. lists_of v.items ≡ groups (file_of file.now) requirements.now) }
{
    let mut groups = Vec::new(alloc);
    for requirement in requirements {
        push_group(alloc, file, requirement, &mut groups)?;
    }
    Ok(groups)
}

// The group of a requirement, if it's the first of its group.
fn push_group(
    alloc: Global,
    file: &FrameFile,
    requirement: &Requirement,
    groups: &mut Vec<Vec<Requirement>>,
) -> Result<(), Memory>
    requires few { length file.now.frames.items ≤ FRAMES }
    ensures { OnOk result (lists_of groups.new.items ≡ lists_of groups.old.items
        ++ cond (is_first (file_of file.now) requirement.now) (judged_with (file_of file.now) requirement.now ∷ []) []) }
{
    if is_first(file, requirement) {
        groups.push(judged_with(alloc, file, requirement)?)?;
    }
    Ok(())
}

// Whether a requirement is the first of what is judged with it.
fn is_first(file: &FrameFile, requirement: &Requirement) -> bool
    requires few { length file.now.frames.items ≤ FRAMES }
    ensures { result ≡ is_first (file_of file.now) requirement.now }
{
    match joined_frame(file, requirement) {
        Some(frame) => leads(file, frame, requirement),
        None => true,
    }
}

// Whether the first frame that is joined to a frame is that of a requirement.
fn leads(file: &FrameFile, frame: &FrameDef, requirement: &Requirement) -> bool
    requires few { length file.now.frames.items ≤ FRAMES }
    ensures { result ≡ begins requirement.now (partners (file_of file.now) (frame_of frame.now)) }
{
    for number in 0..file.frames.len() {
        if joins(frame, &file.frames[number]) {
            return number as u32 == requirement.frame;
        }
    }
    false
}

// What is judged together with a requirement, itself among it.
fn judged_with(
    alloc: Global,
    file: &FrameFile,
    requirement: &Requirement,
) -> Result<Vec<Requirement>, Memory>
    requires few { length file.now.frames.items ≤ FRAMES }
    ensures { IfOk result (λ v. v.items ≡ judged_with (file_of file.now) requirement.now) }
{
    match joined_frame(file, requirement) {
        Some(frame) => partners(alloc, file, frame),
        None => alone(alloc, requirement),
    }
}

fn alone(alloc: Global, requirement: &Requirement) -> Result<Vec<Requirement>, Memory>
    ensures { IfOk result (λ v. v.items ≡ requirement.now ∷ []) }
{
    let mut group = Vec::new(alloc);
    group.push(*requirement)?;
    Ok(group)
}

// The frame of a requirement, if that may be judged with others.
fn joined_frame<'a>(file: &'a FrameFile, requirement: &Requirement) -> Option<&'a FrameDef>
    ensures { option_map (λ f. frame_of f.now) result ≡ joined_frame (file_of file.now) requirement.now }
{
    match requirement.part {
        Part::Whole => if_joined(file.frames.get(requirement.frame as usize)),
        _ => None,
    }
}

fn if_joined<'a>(frame: Option<&'a FrameDef>) -> Option<&'a FrameDef>
    ensures { option_map (λ f. frame_of f.now) result ≡ if_joined (option_map (λ f. frame_of f.now) frame.entry) }
{
    match frame {
        Some(frame) => { if is_joined(frame) { Some(frame) } else { None } }
        None => None,
    }
}

// The frames that are joined to a frame, itself among them.
fn partners(alloc: Global, file: &FrameFile, frame: &FrameDef) -> Result<Vec<Requirement>, Memory>
    requires few { length file.now.frames.items ≤ FRAMES }
    ensures { IfOk result (λ v. v.items ≡ partners (file_of file.now) (frame_of frame.now)) }
{
    let mut group = Vec::new(alloc);
    for number in 0..file.frames.len() {
        push_partner(frame, &file.frames[number], number as u32, &mut group)?;
    }
    Ok(group)
}

// A frame by its place, if it's joined to another.
fn push_partner(
    frame: &FrameDef,
    other: &FrameDef,
    number: u32,
    group: &mut Vec<Requirement>,
) -> Result<(), Memory>
    ensures { OnOk result (group.new.items ≡ group.old.items
        ++ cond (joins (frame_of frame.now) (frame_of other.now)) (whole number ∷ []) []) }
{
    if joins(frame, other) {
        group.push(whole(number))?;
    }
    Ok(())
}

// A frame as a requirement, by its place.
fn whole(frame: u32) -> Requirement
    ensures { result ≡ whole frame }
{
    Requirement {
        frame,
        part: Part::Whole,
    }
}
