// Making the groups of a frame file at its limits: 256 frames in one group of 4,096 conditions, beside 200,000 points.
ghost use Rattle.gd_frames.specs.Facts.{IsFile};
ghost use Rattle.gd_tables.specs.Kinds.{file_of};

use crate::frames::{datum_text, feature_text};
use gd_frames::FrameFile;
use gd_group::{GroupTask, GroupTasks, groups};
use gd_points::PointIndex;
use gd_zone::{Condition, Subject};
use std::alloc::{AllocError, Global};

/// How many features are planes, which are the datums; the others are axes.
const PLANES: u32 = 3;

const AXES: u32 = 1_021;

const FRAMES: u32 = 256;

const POINTS: u32 = 200_000;

/// A points file with three contact groups of each plane; all other points are shared out to the axes.
pub fn many_points_text(alloc: Global) -> Result<String, AllocError> {
    let mut text = String::new(alloc);
    text.push_str("feature,group,x,y,z\n")?;
    for at in 0..PLANES {
        let rows = format!(in alloc; "f{at},1,0,0,{at}\nf{at},2,9,0,{at}\nf{at},3,0,9,{at}\n")?;
        text.push_str(rows.as_str())?;
    }
    for at in 9..POINTS {
        let feature = PLANES + (at - 9) % AXES;
        let row = format!(in alloc; "f{feature},0,{at},0,0\n")?;
        text.push_str(row.as_str())?;
    }
    Ok(text)
}

// A frame of 16 axes, but for the last one, which has 4: with twelve conditions of the datum words there are 4,096.
fn joined_text(alloc: Global, at: u32) -> Result<String, AllocError> {
    let members = if at == 255 { 4 } else { 16 };
    let mut text = format!(in alloc;
        "[[frame]]\nname = 'frame{at}'\nkind = 'position'\ntolerance = {at}\n"
    )?;
    text.push_str("datums = ['d0', 'd1', 'd2']\nfeatures = [")?;
    for member in 0..members {
        let feature = PLANES + (at % FRAMES * 16 + member) % AXES;
        let name = format!(in alloc; "'f{feature}', ")?;
        text.push_str(name.as_str())?;
    }
    text.push_str("]\n")?;
    Ok(text)
}

/// The frame file.
pub fn joined_frames_text(alloc: Global) -> Result<String, AllocError> {
    let mut text = String::new(alloc);
    text.push_str("version = 1\nturn = 'all'\n")?;
    for at in 0..PLANES + AXES {
        text.push_str(feature_text(alloc, at, PLANES)?.as_str())?;
    }
    for at in 0..PLANES {
        text.push_str(datum_text(alloc, at)?.as_str())?;
    }
    for at in 0..FRAMES {
        text.push_str(joined_text(alloc, at)?.as_str())?;
    }
    Ok(text)
}

fn first_of(numbers: &[u32]) -> u32 {
    match numbers {
        [first, ..] => *first,
        [] => 0,
    }
}

fn group_of(condition: &Condition) -> u32 {
    match condition.group {
        Some(group) => group,
        None => 0,
    }
}

/// The conditions and how many points each has, as one number.
fn sum_of_subjects(subjects: &[Subject<'_>]) -> i128 {
    let mut sum: i128 = 0;
    for subject in subjects {
        let points = subject.points();
        let condition = &subject.condition;
        sum = (sum ^ i128::from(condition.feature))
            .wrapping_add(i128::from(group_of(condition)))
            .wrapping_add(i128::from(first_of(points)))
            .wrapping_mul(31)
            .wrapping_add(points.len() as i128);
    }
    sum
}

/// What is made of a file, as one number.
fn sum_of(made: &GroupTasks<'_>) -> i128 {
    let mut sum: i128 = 0;
    for task in &made.tasks {
        sum = match task {
            GroupTask::Form(_) => sum.wrapping_add(1),
            GroupTask::Placed(placed) => sum.wrapping_add(sum_of_subjects(
                placed.subjects.as_slice(),
            )),
        };
    }
    for label in &made.labels {
        sum = sum.wrapping_add(label.text().len() as i128);
    }
    sum
}

/// One turn, from a checksum to the next: the groups are made once. Want of memory gives -1.
#[inline(never)]
pub fn group_once<'a>(
    alloc: Global,
    file: &FrameFile,
    index: &'a PointIndex<'a>,
    start: i128,
) -> i128
    requires { IsFile index.now.table.now (file_of file.now) }
{
    match groups(alloc, file, index) {
        Ok(made) => start.wrapping_add(sum_of(&made)),
        Err(_) => -1,
    }
}
