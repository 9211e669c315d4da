// The report of several tasks with their certificate, and of a check of one, for any tasks.
ghost use Rattle.std.specs.Prelude.{◌≡◌, ◌<◌, ◌≤◌, IfOk, length};
ghost use Rattle.std.specs.List.{All};
ghost use Rattle.gd_base.specs.Limits.{BUDGET, FILE_BYTES, GROUPS};
ghost use Rattle.gd_cert.specs.Bounds.{IsInBounds};
ghost use Rattle.gd_cert.specs.Certificates.{certificate_of};
ghost use Rattle.gd_cert.specs.Text.{KeepsLines, text};
ghost use Rattle.gd_judge.specs.Outcomes.{HasNumbers};
ghost use Rattle.gd_run.specs.GroupReports.{AreReported, IsDecided, labelled};
ghost use Rattle.gd_run.specs.Views.{answer_in};

use crate::decision::decide;
use crate::layout::Layout;
use crate::report::{NamedFile, Report, only_line};
use gd_base::{Memory, Name2, Verdict};
use gd_cells::{Task, show_laws};
use gd_cert::{Cert, write_cert};
use gd_judge::judge_tasks;
use gd_report::GroupVerdict;
use std::alloc::Global;
use std::thread::Threads;

// Each group by its label, with its verdict.
fn labelled(
    alloc: Global,
    labels: &[Name2],
    verdicts: &[Verdict],
) -> Result<Vec<GroupVerdict>, Memory>
    requires { length labels.now ≤ length verdicts.now }
    ensures { IfOk result (λ groups. groups.items ≡ labelled labels.now verdicts.now) }
{
    let mut groups = Vec::with_capacity(alloc, labels.len())?;
    for (at, label) in labels.iter().enumerate() {
        let label = Name2::of(alloc, label.text())?;
        groups.push(GroupVerdict {
            label,
            verdict: verdicts[at],
        })?;
    }
    Ok(groups)
}

/// The verdicts of some tasks by their labels, as a report in a layout, and their certificate, to be stored under a
/// name. Each task has the same share of the budget.
pub fn judged_report<'a, R: Threads + Sync, T: Task>(
    rt: &R,
    alloc: Global,
    tasks: &[T],
    labels: &[Name2],
    budget: u32,
    layout: Layout,
    name: &'a str,
) -> Result<Report<'a>, Memory>
    requires some { 0 < length tasks.now }
    requires few { length tasks.now ≤ GROUPS }
    requires numbers { All (λ t. HasNumbers (T.questions t)) tasks.now }
    requires labels { length labels.now ≡ length tasks.now }
    requires budget { budget ≤ BUDGET }
    ensures { IfOk result (λ r. AreReported T.questions T.feasible T.assignment tasks.now labels.now budget layout
        name.now (answer_in r)) }
{
    let judged = judge_tasks(rt, alloc, tasks, budget)?;
    let groups = labelled(alloc, labels, &judged.verdicts)?;
    let line = layout.report(alloc, &groups)?;
    let bytes = write_cert(alloc, &judged.certificate)?;
    Ok(Report {
        line,
        file: Some(NamedFile { name, bytes }),
    })
}

/// Whether a certificate is right for some tasks, and else its first wrong line, as a report that stores nothing.
pub fn checked_report<'a, T: Task>(
    alloc: Global,
    tasks: &[T],
    cert: &Cert,
) -> Result<Report<'a>, Memory>
    requires bounds { IsInBounds (certificate_of cert.now) }
    requires lines { KeepsLines cert.now }
    requires short { length (text (certificate_of cert.now)) ≤ FILE_BYTES }
    ensures { IfOk result (λ r. IsDecided T.questions T.feasible T.assignment tasks.now (certificate_of cert.now)
        (answer_in r)) }
{
    show_laws::<T>();
    let line = decide(alloc, tasks, cert)?;
    Ok(only_line(line))
}
