// What is said of a certificate, for any tasks.
ghost use Rattle.std.specs.Prelude.{◌≡◌, ◌≤◌, IfOk, length, map};
ghost use Rattle.gd_base.specs.Limits.{FILE_BYTES};
ghost use Rattle.gd_cert.specs.Bounds.{IsInBounds};
ghost use Rattle.gd_cert.specs.Certificates.{certificate_of};
ghost use Rattle.gd_cert.specs.Text.{KeepsLines, text};
ghost use Rattle.gd_check.specs.Answers.{answer_of};
ghost use Rattle.gd_report.specs.Said.{said_in};
ghost use Rattle.gd_run.specs.Answers.{said_of_certificate, said_of_wrong};

use gd_base::Memory;
use gd_cells::Task;
use gd_cert::{Cert, Head};
use gd_check::{CheckAnswer, Rule, check};
use gd_report::{Line, invalid_line, valid_line};
use std::alloc::Global;

// The line of a check's answer.
fn answer_line(alloc: Global, answer: CheckAnswer) -> Result<Line, Memory>
    ensures { IfOk result (λ line. said_in line ≡ said_of_wrong (answer_of answer)) }
{
    match answer {
        CheckAnswer::Valid => Ok(valid_line(alloc)?),
        CheckAnswer::Invalid { line, code } => Ok(invalid_line(alloc, line, code)?),
    }
}

/// What is said of a certificate of these tasks: that it is valid, or its first wrong line. The head of a probe is
/// refused at its second line.
pub fn decide<T: Task>(alloc: Global, tasks: &[T], cert: &Cert) -> Result<Line, Memory>
    requires bounds { IsInBounds (certificate_of cert.now) }
    requires lines { KeepsLines cert.now }
    requires short { length (text (certificate_of cert.now)) ≤ FILE_BYTES }
    ensures { IfOk result (λ line. said_in line
        ≡ said_of_certificate (map T.questions tasks.now) (certificate_of cert.now)) }
{
    match cert.head {
        Head::Plain => {
            let answer = check(alloc, tasks, cert)?;
            answer_line(alloc, answer)
        }
        Head::Probe { .. } => {
            let code = Rule::Head.code();
            Ok(invalid_line(alloc, 2, code)?)
        }
    }
}
