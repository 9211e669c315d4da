// What a verdict means, so that a caller's proof can name it.
ghost use Rattle.gd_verdict.specs.Meant.{VerdictMeans};

use gd_cells::{Task, show_laws};

/// What every verdict says of the assignments of a task: an accepted witness is in range and holds, so its assignment is
/// feasible, and where all cells were refuted none is. It does nothing when it runs.
pub fn show_verdict_means<T: Task>()
    ensures { (t : T) → VerdictMeans (T.questions t) (T.feasible t) (T.assignment t) }
{
    show_laws::<T>();
}
