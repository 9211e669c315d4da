// The four forms as one task.
ghost use Rattle.gd_form.specs.FormTasks.{asked_by, form_laws};
ghost use Rattle.gd_form.specs.Forms.{FormLies, MeetsForm, form_at, form_questions};

use crate::form::FormTask;
use gd_cells::{Cell, Evidence, Task, Witness};

impl<'a> Task for FormTask<'a> {
    ghost questions = { λ s. form_questions (asked_by s) };

    ghost feasible = { λ s a. MeetsForm (asked_by s) a };

    ghost inside = { λ s a c. FormLies (asked_by s) a c };

    ghost assignment = { λ s w. form_at (asked_by s) w };

    fn roots(&self) -> u32 {
        match self {
            FormTask::Flat(flat) => flat.roots(),
            FormTask::Axis(about) => about.roots(),
        }
    }

    fn dims(&self) -> u32 {
        match self {
            FormTask::Flat(flat) => flat.dims(),
            FormTask::Axis(about) => about.dims(),
        }
    }

    fn numbers(&self) -> u32 {
        match self {
            FormTask::Flat(flat) => flat.numbers(),
            FormTask::Axis(about) => about.numbers(),
        }
    }

    fn finest_level(&self) -> u32 {
        match self {
            FormTask::Flat(flat) => flat.finest_level(),
            FormTask::Axis(about) => about.finest_level(),
        }
    }

    fn points(&self) -> usize {
        match self {
            FormTask::Flat(flat) => flat.points(),
            FormTask::Axis(about) => about.points(),
        }
    }

    fn split(&self, cell: &Cell) -> (Cell, Cell) {
        match self {
            FormTask::Flat(flat) => flat.split(cell),
            FormTask::Axis(about) => about.split(cell),
        }
    }

    fn refutes(&self, cell: &Cell) -> Option<Evidence> {
        match self {
            FormTask::Flat(flat) => flat.refutes(cell),
            FormTask::Axis(about) => about.refutes(cell),
        }
    }

    fn refutes_at(&self, cell: &Cell, evidence: &Evidence) -> bool {
        match self {
            FormTask::Flat(flat) => flat.refutes_at(cell, evidence),
            FormTask::Axis(about) => about.refutes_at(cell, evidence),
        }
    }

    fn centre(&self, cell: &Cell) -> Witness {
        match self {
            FormTask::Flat(flat) => flat.centre(cell),
            FormTask::Axis(about) => about.centre(cell),
        }
    }

    fn in_range(&self, witness: &Witness) -> bool {
        match self {
            FormTask::Flat(flat) => flat.in_range(witness),
            FormTask::Axis(about) => about.in_range(witness),
        }
    }

    fn holds(&self, witness: &Witness) -> bool {
        match self {
            FormTask::Flat(flat) => flat.holds(witness),
            FormTask::Axis(about) => about.holds(witness),
        }
    }

    ghost laws = { λ t. form_laws t };
}
