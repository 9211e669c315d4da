// The laws of a task, so that a caller's proof can name them.
ghost use Rattle.gd_cells.specs.Laws.{Laws};

use crate::task::Task;

/// The laws of every task of a type. It does nothing when it runs.
pub fn show_laws<T: Task>()
    ensures { (t : T) → Laws (T.questions t) (T.feasible t) (T.inside t) (T.assignment t) }
{}
