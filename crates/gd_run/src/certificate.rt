// The certificate of a verdict, for any task.
ghost use Rattle.std.specs.Prelude.{◌≡◌, IfOk};
ghost use Rattle.gd_cert.specs.Certificates.{certificate_of};
ghost use Rattle.gd_cert.specs.Text.{text};
ghost use Rattle.gd_run.specs.Answers.{certificate_of_end};
ghost use Rattle.gd_search.specs.Outcomes.{end_of};

use gd_base::Memory;
use gd_cells::Task;
use gd_cert::{Cert, CertGroup, Head, write_cert};
use gd_judge::body_of_outcome;
use gd_search::Outcome;
use std::alloc::Global;

/// The line on which the first group of a certificate begins.
const FIRST_GROUP: u32 = 5;

// The certificate for how the search of a task ended that had this budget.
fn cert_of_outcome<T: Task>(
    alloc: Global,
    task: &T,
    outcome: Outcome,
    budget: u32,
) -> Result<Cert, Memory>
    ensures { IfOk result (λ c. certificate_of c ≡ certificate_of_end (T.questions task.now) budget (end_of outcome)) }
{
    let body = body_of_outcome(alloc, task, outcome)?;
    let mut groups = Vec::with_capacity(alloc, 1)?;
    groups.push(CertGroup {
        line: FIRST_GROUP,
        body,
    })?;
    Ok(Cert {
        head: Head::Plain,
        share: budget,
        told: 1,
        groups,
    })
}

/// The text of the certificate for how the search of a task ended that had this budget: one group.
pub fn certificate_text<T: Task>(
    alloc: Global,
    task: &T,
    outcome: Outcome,
    budget: u32,
) -> Result<Vec<u8>, Memory>
    ensures { IfOk result (λ bytes. bytes.items
        ≡ text (certificate_of_end (T.questions task.now) budget (end_of outcome))) }
{
    let cert = cert_of_outcome(alloc, task, outcome, budget)?;
    write_cert(alloc, &cert)
}
