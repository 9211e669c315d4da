// What a search leaves of a task, so that a caller's proof can name it.
ghost use Rattle.std.specs.Prelude.{◌≤◌};
ghost use Rattle.gd_check.specs.Written.{VerdictIsRight};

use gd_cells::{Task, show_laws};

/// What a search leaves of a task is right for its budget, and can be written: a certificate has a witness of two
/// numbers at least. It does nothing when it runs.
pub fn show_verdict_is_right<T: Task>(task: &T)
    requires { 2 ≤ (T.questions task.now).grid.numbers }
    ensures { VerdictIsRight (T.questions task.now) }
{
    show_laws::<T>();
}
