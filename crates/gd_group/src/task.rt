// A form and a placement as one task.
ghost use Rattle.gd_group.specs.TaskLaws.{group_laws};
ghost use Rattle.gd_group.specs.Tasks.{LiesIn, Meets, asked_by, assignment_of, questions_of};

use crate::group_task::GroupTask;
use gd_cells::{Cell, Evidence, Task, Witness};

impl<'a> Task for GroupTask<'a> {
    ghost questions = { λ s. questions_of (asked_by s) };

    ghost feasible = { λ s a. Meets (asked_by s) a };

    ghost inside = { λ s a c. LiesIn (asked_by s) a c };

    ghost assignment = { λ s w. assignment_of (asked_by s) w };

    fn roots(&self) -> u32 {
        match self {
            GroupTask::Form(form) => form.roots(),
            GroupTask::Placed(placed) => placed.roots(),
        }
    }

    fn dims(&self) -> u32 {
        match self {
            GroupTask::Form(form) => form.dims(),
            GroupTask::Placed(placed) => placed.dims(),
        }
    }

    fn numbers(&self) -> u32 {
        match self {
            GroupTask::Form(form) => form.numbers(),
            GroupTask::Placed(placed) => placed.numbers(),
        }
    }

    fn finest_level(&self) -> u32 {
        match self {
            GroupTask::Form(form) => form.finest_level(),
            GroupTask::Placed(placed) => placed.finest_level(),
        }
    }

    fn points(&self) -> usize {
        match self {
            GroupTask::Form(form) => form.points(),
            GroupTask::Placed(placed) => placed.points(),
        }
    }

    fn split(&self, cell: &Cell) -> (Cell, Cell) {
        match self {
            GroupTask::Form(form) => form.split(cell),
            GroupTask::Placed(placed) => placed.split(cell),
        }
    }

    fn refutes(&self, cell: &Cell) -> Option<Evidence> {
        match self {
            GroupTask::Form(form) => form.refutes(cell),
            GroupTask::Placed(placed) => placed.refutes(cell),
        }
    }

    fn refutes_at(&self, cell: &Cell, evidence: &Evidence) -> bool {
        match self {
            GroupTask::Form(form) => form.refutes_at(cell, evidence),
            GroupTask::Placed(placed) => placed.refutes_at(cell, evidence),
        }
    }

    fn centre(&self, cell: &Cell) -> Witness {
        match self {
            GroupTask::Form(form) => form.centre(cell),
            GroupTask::Placed(placed) => placed.centre(cell),
        }
    }

    fn in_range(&self, witness: &Witness) -> bool {
        match self {
            GroupTask::Form(form) => form.in_range(witness),
            GroupTask::Placed(placed) => placed.in_range(witness),
        }
    }

    fn holds(&self, witness: &Witness) -> bool {
        match self {
            GroupTask::Form(form) => form.holds(witness),
            GroupTask::Placed(placed) => placed.holds(witness),
        }
    }

    ghost laws = { λ t. group_laws t };
}
