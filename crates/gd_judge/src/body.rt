// What is told of how one search ended: its verdict, and the body of its group in a certificate.
ghost use Rattle.std.specs.Prelude.{◌≡◌, IfOk, take};
ghost use Rattle.gd_cert.specs.Certificates.{body_of};
ghost use Rattle.gd_check.specs.Written.{body_of_end};
ghost use Rattle.gd_judge.specs.Judged.{verdict_of};
ghost use Rattle.gd_judge.specs.Outcomes.{HasFewLeaves};
ghost use Rattle.gd_search.specs.Outcomes.{end_of};

use gd_base::{Memory, Verdict};
use gd_cells::{Task, Witness, show_laws};
use gd_cert::CertBody;
use gd_search::Outcome;
use gd_verdict::leaves;
use std::alloc::Global;

// The numbers of a witness that the task has.
fn numbers_of<T: Task>(alloc: Global, task: &T, witness: &Witness) -> Result<Vec<i64>, Memory>
    ensures { IfOk result (λ v. v.items ≡ take (T.questions task.now).grid.numbers witness.now.at) }
{
    show_laws::<T>();
    let numbers = task.numbers() as usize;
    Ok(Vec::from_slice(alloc, &witness.at[..numbers])?)
}

/// The body of a group in a certificate, for how the search of its task ended. Of a witness it has the numbers that the
/// task has.
pub fn body_of_outcome<T: Task>(
    alloc: Global,
    task: &T,
    outcome: Outcome,
) -> Result<CertBody, Memory>
    ensures { IfOk result (λ body. body_of body ≡ body_of_end (T.questions task.now) (end_of outcome)) }
{
    match outcome {
        Outcome::Accept { witness, .. } => Ok(CertBody::Accept {
            root: witness.root,
            at: numbers_of(alloc, task, &witness)?,
        }),
        Outcome::Reject { tree } => Ok(CertBody::Reject { tree }),
        Outcome::StillOpen { tree, counts } => Ok(CertBody::StillOpen { counts, tree }),
    }
}

/// What is told of how a search ended. A tree has fewer than 2^32 leaves, as each tree of a search has.
pub fn verdict_of_outcome(outcome: &Outcome) -> Verdict
    requires { HasFewLeaves outcome.now }
    ensures { result ≡ verdict_of (end_of outcome.now) }
{
    match outcome {
        Outcome::Accept { level, .. } => Verdict::Accept { level: *level },
        Outcome::Reject { tree } => Verdict::Reject {
            leaves: leaves(tree) as u32,
        },
        Outcome::StillOpen { counts, .. } => Verdict::StillOpen(*counts),
    }
}
