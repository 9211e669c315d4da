// What refutes a group of conditions over a box of placements.
ghost use Rattle.std.specs.Prelude.{◌≡◌, option_copied, option_map, slice_get};
ghost use Rattle.std.specs.Option.{IfSome};
ghost use Rattle.gd_fit.specs.Subjects.{conditions_of};
ghost use Rattle.gd_fit.specs.Tests.{first_against, numbered, refutes_named};
ghost use Rattle.gd_zone.specs.Boxes.{IsPlaced, placed_ends};
ghost use Rattle.gd_zone.specs.Conditions.{IsCondition};

use crate::task::PlacementTask;
use gd_bound::{bound, bound_at};
use gd_cells::Evidence;
use gd_zone::{Placed, Subject};

/// The first evidence against the first condition of a task that is refuted over a box.
pub fn first_against(task: &PlacementTask<'_>, placed: &Placed) -> Option<Evidence>
    requires placed { IsPlaced placed.now }
    ensures { result ≡ first_against (placed_ends placed.now) task.now.base task.now.table.now.rows 1
        (conditions_of task.now.subjects.items) }
{
    for at in 0..task.subjects.len() {
        let number = at as u32 + 1;
        match bound(&task.subjects[at], number, &task.base, placed) {
            None => {}
            Some(evidence) => return Some(evidence),
        }
    }
    None
}

// The condition of a task at a place, from 0.
fn subject_at<'t>(task: &'t PlacementTask<'_>, at: usize) -> Option<&'t Subject<'t>>
    ensures there { option_copied result ≡ slice_get task.now.subjects.items at }
    ensures rows { IfSome result (λ s. s.now.index.now.table.now.rows ≡ task.now.table.now.rows) }
    ensures judged { IfSome result (λ s. IsCondition s.now.condition) }
{
    task.subjects.get(at)
}

// The condition of a task with a number, from 1.
fn numbered<'t>(task: &'t PlacementTask<'_>, number: u32) -> Option<&'t Subject<'t>>
    ensures named { option_map (λ s. s.now.condition) result ≡ numbered (conditions_of task.now.subjects.items) number }
    ensures rows { IfSome result (λ s. s.now.index.now.table.now.rows ≡ task.now.table.now.rows) }
    ensures judged { IfSome result (λ s. IsCondition s.now.condition) }
{
    if number == 0 {
        None
    } else {
        subject_at(task, number as usize - 1)
    }
}

/// Whether evidence refutes the condition of a task that it names. False where it names none.
pub fn refutes_named(task: &PlacementTask<'_>, placed: &Placed, evidence: &Evidence) -> bool
    requires placed { IsPlaced placed.now }
    ensures { result ≡ refutes_named (placed_ends placed.now) task.now.base task.now.table.now.rows evidence.now
        (numbered (conditions_of task.now.subjects.items) evidence.now.condition) }
{
    match numbered(task, evidence.condition) {
        None => false,
        Some(subject) => bound_at(subject, &task.base, placed, evidence),
    }
}
