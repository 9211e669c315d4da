// The groups of a frame file as tasks.
ghost use Rattle.std.specs.Prelude.{◌≡◌, ◌<◌, ◌≤◌, IfOk, length, map};
ghost use Rattle.std.specs.List.{All};
ghost use Rattle.gd_base.specs.Limits.{GROUPS};
ghost use Rattle.gd_frames.specs.Facts.{IsFile};
ghost use Rattle.gd_group.specs.Labels.{label};
ghost use Rattle.gd_group.specs.Lists.{lists_of};
ghost use Rattle.gd_group.specs.Members.{IsGroup};
ghost use Rattle.gd_group.specs.Tasks.{all_asked, asked_by, group_asked, labels, placed_by, questions_of};
ghost use Rattle.gd_tables.specs.Kinds.{file_of};

use crate::asked::conditions_of;
use crate::forms::form_of;
use crate::group_task::GroupTask;
use crate::joining::groups_of;
use crate::naming::label;
use crate::of_frames::requirements;
use crate::points::show_points;
use crate::ranges::{base_of, ranges_of};
use crate::requirement::Requirement;
use gd_base::{Memory, Name2};
use gd_fit::placement_task;
use gd_form::form_task;
use gd_frames::FrameFile;
use gd_points::PointIndex;
use std::alloc::Global;

/// The groups of a frame file, in the order of their first requirements: each as a task, and its label.
#[derive(Drop)]
pub struct GroupTasks<'a> {
    pub tasks: Vec<GroupTask<'a>>,
    pub labels: Vec<Name2>,
}

/// The groups of a frame file as tasks over the points of an index (docs/KINDS.md; docs/FORMATS.md, "Groups of
/// requirements"), with their labels. There is one at least, and at most 300,000. The file was read beside the table of
/// the index. The points of each condition and of each form are found once, here.
pub fn groups<'a>(
    alloc: Global,
    file: &FrameFile,
    index: &'a PointIndex<'a>,
) -> Result<GroupTasks<'a>, Memory>
    requires file { IsFile index.now.table.now (file_of file.now) }
    ensures tasks { IfOk result (λ g. map asked_by g.tasks.items
        ≡ all_asked (file_of file.now) index.now.table.now.rows) }
    ensures labels { IfOk result (λ g. g.labels.items ≡ labels (file_of file.now) index.now.table.now.rows) }
    ensures numbers { IfOk result (λ g. All (λ t. 2 ≤ (questions_of (asked_by t)).grid.numbers) g.tasks.items) }
    ensures some { IfOk result (λ g. 0 < length g.tasks.items) }
    ensures few { IfOk result (λ g. length g.tasks.items ≤ GROUPS) }
{
    show_points(index);
    let requirements = requirements(alloc, file, index)?;
    let groups = groups_of(alloc, file, &requirements)?;
    let tasks = tasks_of(alloc, file, index, &groups)?;
    let labels = labels_of(alloc, file, &groups)?;
    Ok(GroupTasks { tasks, labels })
}

// The tasks of some groups.
fn tasks_of<'a>(
    alloc: Global,
    file: &FrameFile,
    index: &'a PointIndex<'a>,
    groups: &[Vec<Requirement>],
) -> Result<Vec<GroupTask<'a>>, Memory>
    requires file { IsFile index.now.table.now (file_of file.now) }
    requires groups { All (IsGroup (file_of file.now) index.now.table.now.rows) (lists_of groups.now) }
    ensures { IfOk result (λ v. map asked_by v.items
        ≡ map (group_asked (file_of file.now) index.now.table.now.rows) (lists_of groups.now)) }
{
    let mut tasks = Vec::with_capacity(alloc, groups.len())?;
    for group in groups {
        tasks.push(task_of(alloc, file, index, group)?)?;
    }
    Ok(tasks)
}

// The task of a group: a form, or a placement.
fn task_of<'a>(
    alloc: Global,
    file: &FrameFile,
    index: &'a PointIndex<'a>,
    group: &[Requirement],
) -> Result<GroupTask<'a>, Memory>
    requires file { IsFile index.now.table.now (file_of file.now) }
    requires group { IsGroup (file_of file.now) index.now.table.now.rows group.now }
    ensures { IfOk result (λ t. asked_by t ≡ group_asked (file_of file.now) index.now.table.now.rows group.now) }
{
    match form_of(file, index, group) {
        Some(def) => Ok(GroupTask::Form(form_task(index, &def))),
        None => placed_task(alloc, file, index, group),
    }
}

// The task of a group's conditions.
fn placed_task<'a>(
    alloc: Global,
    file: &FrameFile,
    index: &'a PointIndex<'a>,
    group: &[Requirement],
) -> Result<GroupTask<'a>, Memory>
    requires file { IsFile index.now.table.now (file_of file.now) }
    requires group { IsGroup (file_of file.now) index.now.table.now.rows group.now }
    ensures { IfOk result (λ t. asked_by t ≡ placed_by (file_of file.now) index.now.table.now.rows group.now) }
{
    let conditions = conditions_of(alloc, file, index, group)?;
    let ranges = ranges_of(file, index, &conditions);
    let task = placement_task(alloc, ranges, base_of(index), &conditions, index)?;
    Ok(GroupTask::Placed(task))
}

// The labels of some groups.
fn labels_of(
    alloc: Global,
    file: &FrameFile,
    groups: &[Vec<Requirement>],
) -> Result<Vec<Name2>, Memory>
    ensures { IfOk result (λ v. v.items ≡ map (label (file_of file.now)) (lists_of groups.now)) }
{
    let mut labels = Vec::with_capacity(alloc, groups.len())?;
    for group in groups {
        labels.push(label(alloc, file, group)?)?;
    }
    Ok(labels)
}
