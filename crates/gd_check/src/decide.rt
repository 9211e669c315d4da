// The check.
ghost use Rattle.std.specs.Prelude.{◌≡◌, ◌≤◌, ◌<◌, ◌+◌, ◌^◌, ◌↔◌, IfOk, length, map};
ghost use Rattle.gd_base.specs.Limits.{FILE_BYTES};
ghost use Rattle.gd_cert.specs.Bounds.{IsInBounds};
ghost use Rattle.gd_cert.specs.Certificates.{certificate_of};
ghost use Rattle.gd_cert.specs.Text.{KeepsLines, text};
ghost use Rattle.gd_check.specs.Answers.{answer_of};
ghost use Rattle.gd_check.specs.Means.{AreRight};
ghost use Rattle.gd_check.specs.Right.{IsRight};
ghost use Rattle.gd_check.specs.Wrong.{first_wrong, wrong_bodies};
ghost use Rattle.gd_check.specs.declared.answer.CheckAnswer.TheVariants as check_answer;

use crate::answer::CheckAnswer;
use crate::group::wrong_group;
use crate::rule::Rule;
use gd_base::Memory;
use gd_cells::{Task, show_laws};
use gd_cert::{Cert, CertFault};
use std::alloc::Global;

// What the first wrong line says of the certificate.
fn told(wrong: Option<CertFault>) -> CheckAnswer
    ensures { answer_of result ≡ wrong }
{
    match wrong {
        None => CheckAnswer::Valid,
        Some(fault) => CheckAnswer::Invalid {
            line: fault.line,
            code: fault.code,
        },
    }
}

// The first wrong line of the groups, of which there are as many as tasks.
fn wrong_groups<T: Task>(
    alloc: Global,
    tasks: &[T],
    cert: &Cert,
) -> Result<Option<CertFault>, Memory>
    requires bounds { IsInBounds (certificate_of cert.now) }
    requires lines { KeepsLines cert.now }
    requires short { length (text (certificate_of cert.now)) ≤ FILE_BYTES }
    requires count { length cert.now.groups.items ≡ length tasks.now }
    ensures { IfOk result (λ wrong. wrong
        ≡ wrong_bodies (map T.questions tasks.now) cert.now.share 5 (certificate_of cert.now).groups) }
{
    let mut waiting = Vec::new(alloc);
    for (task, group) in tasks.iter().zip(cert.groups.iter()) {
        match wrong_group(task, cert.share, group, &mut waiting)? {
            Some(fault) => return Ok(Some(fault)),
            None => {}
        }
    }
    Ok(None)
}

// The first wrong line.
fn first_wrong<T: Task>(
    alloc: Global,
    tasks: &[T],
    cert: &Cert,
) -> Result<Option<CertFault>, Memory>
    requires bounds { IsInBounds (certificate_of cert.now) }
    requires lines { KeepsLines cert.now }
    requires short { length (text (certificate_of cert.now)) ≤ FILE_BYTES }
    ensures { IfOk result
        (λ wrong. wrong ≡ first_wrong (map T.questions tasks.now) (certificate_of cert.now)) }
{
    if cert.groups.len() != tasks.len() || cert.told as usize != tasks.len() {
        return Ok(Some(Rule::Groups.broken_at(4)));
    }
    wrong_groups(alloc, tasks, cert)
}

/// Decides a certificate of some tasks: it is valid exactly where it is right, and else its first wrong line is given,
/// with code 50 to 57.
///
/// It makes no search. It asks a task of the cell of each line alone: whether the line's evidence refutes it; and in an
/// open group, of a cell that is halved or left, whether anything refutes it and whether its centre holds.
pub fn check<T: Task>(alloc: Global, tasks: &[T], cert: &Cert) -> Result<CheckAnswer, Memory>
    requires bounds { IsInBounds (certificate_of cert.now) }
    requires lines { KeepsLines cert.now }
    requires short { length (text (certificate_of cert.now)) ≤ FILE_BYTES }
    // The first wrong line, by the order of the codes.
    ensures exact { IfOk result
        (λ a. answer_of a ≡ first_wrong (map T.questions tasks.now) (certificate_of cert.now)) }
    // Valid exactly where the certificate is right.
    ensures valid { IfOk result
        (λ a. (a ≡ check_answer.Valid) ↔ IsRight (map T.questions tasks.now) (certificate_of cert.now)) }
    // What a valid certificate says of the assignments of each task.
    ensures means { IfOk result (λ a. a ≡ check_answer.Valid
        → AreRight T.questions T.feasible T.assignment tasks.now (certificate_of cert.now)) }
{
    show_laws::<T>();
    let wrong = first_wrong(alloc, tasks, cert)?;
    Ok(told(wrong))
}
