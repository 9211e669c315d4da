// The verdicts of several tasks.
ghost use Rattle.std.specs.Prelude.{◌≡◌, ◌≤◌, ◌<◌, ◌+◌, ◌*◌, ◌^◌, IfOk, length, map};
ghost use Rattle.std.specs.List.{All};
ghost use Rattle.gd_base.specs.Limits.{BUDGET, FILE_BYTES, GROUPS};
ghost use Rattle.gd_cert.specs.Bounds.{IsInBounds};
ghost use Rattle.gd_cert.specs.Certificates.{body_of, certificate_of};
ghost use Rattle.gd_cert.specs.Text.{KeepsLines, body_lines, first_lines, text};
ghost use Rattle.gd_check.specs.Right.{IsRight};
ghost use Rattle.gd_judge.specs.Judged.{AreJudged, AreOfTasks, IsJudged};
ghost use Rattle.gd_judge.specs.Means.{AreMeant};
ghost use Rattle.gd_judge.specs.Outcomes.{bodies_in, lines_in, HasNumbers};

use crate::body::{body_of_outcome, verdict_of_outcome};
use gd_base::{Memory, Verdict};
use gd_cells::{Task, show_laws};
use gd_cert::{Cert, CertBody, CertGroup, Head};
use gd_search::search;
use std::alloc::Global;
use std::thread::Threads;

/// The line on which the first group of a certificate begins.
const FIRST_GROUP: u32 = 5;

/// The verdicts of some tasks, in their order, and the certificate of all.
#[derive(Debug, Drop)]
pub struct Judgement {
    pub verdicts: Vec<Verdict>,
    pub certificate: Cert,
}

// A verdict, and what shows it.
#[derive(Drop)]
struct Judged {
    verdict: Verdict,
    body: CertBody,
}

// The verdicts of some tasks, and the groups of their certificate.
#[derive(Drop)]
struct Groups {
    verdicts: Vec<Verdict>,
    groups: Vec<CertGroup>,
}

fn judge_task<R: Threads + Sync, T: Task>(
    rt: &R,
    alloc: Global,
    task: &T,
    share: u32,
) -> Result<Judged, Memory>
    requires { share ≤ BUDGET }
    ensures judged { IfOk result (λ j. IsJudged (T.questions task.now) share j.verdict (body_of j.body)) }
    ensures few { IfOk result (λ j. length (body_lines (body_of j.body)) ≤ 2 * share + 5) }
{
    show_laws::<T>();
    let outcome = search(rt, alloc, task, share)?;
    let verdict = verdict_of_outcome(&outcome);
    let body = body_of_outcome(alloc, task, outcome)?;
    Ok(Judged { verdict, body })
}

// The line of the group behind one that begins on a line.
fn line_after(line: u32, body: &CertBody) -> u32
    requires { line + 1 + length (body_lines (body_of body.now)) < 2 ^ 32 }
    ensures { result ≡ line + 1 + length (body_lines (body_of body.now)) }
{
    let lines = match body {
        CertBody::Accept { .. } => 1,
        CertBody::Reject { tree } => tree.len(),
        CertBody::StillOpen { tree, .. } => tree.len() + 1,
    };
    line + 1 + lines as u32
}

// Each task by itself, in order.
fn judge_each<R: Threads + Sync, T: Task>(
    rt: &R,
    alloc: Global,
    tasks: &[T],
    share: u32,
) -> Result<Groups, Memory>
    requires budget { share * length tasks.now ≤ BUDGET }
    requires small { share ≤ BUDGET }
    requires few { length tasks.now ≤ GROUPS }
    ensures judged { IfOk result
        (λ g. AreJudged (map T.questions tasks.now) share g.verdicts.items (bodies_in g.groups.items)) }
    ensures lines { IfOk result (λ g. lines_in g.groups.items ≡ first_lines 5 (bodies_in g.groups.items)) }
{
    let mut verdicts = Vec::with_capacity(alloc, tasks.len())?;
    let mut groups = Vec::with_capacity(alloc, tasks.len())?;
    let mut line = FIRST_GROUP;
    for task in tasks {
        let judged = judge_task(rt, alloc, task, share)?;
        let next = line_after(line, &judged.body);
        verdicts.push(judged.verdict)?;
        groups.push(CertGroup {
            line,
            body: judged.body,
        })?;
        line = next;
    }
    Ok(Groups { verdicts, groups })
}

/// Judges some tasks, each for the same share of the budget, which is rounded down and may be 0.
///
/// There is a task at least, and no more than a certificate states; each has two numbers in a witness or more.
/// `verdicts` says that each verdict is the task's own at the share, and that the certificate's groups show them;
/// `right` and `fits` that the certificate is right and can be written and read; `lines` that its groups keep their lines;
/// `means` what the verdicts say of the tasks' assignments.
pub fn judge_tasks<R: Threads + Sync, T: Task>(
    rt: &R,
    alloc: Global,
    tasks: &[T],
    budget: u32,
) -> Result<Judgement, Memory>
    requires some { 0 < length tasks.now }
    requires few { length tasks.now ≤ GROUPS }
    requires budget { budget ≤ BUDGET }
    requires numbers { All (λ t. HasNumbers (T.questions t)) tasks.now }
    ensures verdicts { IfOk result (λ j. AreOfTasks (map T.questions tasks.now) budget j.verdicts.items
        (certificate_of j.certificate)) }
    ensures right { IfOk result (λ j. IsRight (map T.questions tasks.now) (certificate_of j.certificate)) }
    ensures fits { IfOk result (λ j. IsInBounds (certificate_of j.certificate)
        × (length (text (certificate_of j.certificate)) ≤ FILE_BYTES)) }
    ensures lines { IfOk result (λ j. KeepsLines j.certificate) }
    ensures means { IfOk result (λ j. AreMeant T.questions T.feasible T.assignment tasks.now
        (certificate_of j.certificate).share j.verdicts.items (certificate_of j.certificate).groups) }
{
    show_laws::<T>();
    let count = tasks.len() as u32;
    let share = budget / count;
    let judged = judge_each(rt, alloc, tasks, share)?;
    let certificate = Cert {
        head: Head::Plain,
        share,
        told: count,
        groups: judged.groups,
    };
    Ok(Judgement {
        verdicts: judged.verdicts,
        certificate,
    })
}
