// The command `checkflat`: its words, its inputs and its job.
ghost use Rattle.std.specs.Prelude.{◌≡◌, ◌<◌, ◌≤◌, ◌∷◌, [], IfOk, codes, length, map, option_map};
ghost use Rattle.gd_base.specs.Limits.{FILE_BYTES, TOLERANCE};
ghost use Rattle.gd_cert.specs.Bounds.{IsInBounds};
ghost use Rattle.gd_cert.specs.Certificates.{certificate_of};
ghost use Rattle.gd_cert.specs.Text.{KeepsLines, text};
ghost use Rattle.gd_run.specs.Asks.{IsSpelled};
ghost use Rattle.gd_run.specs.CheckFlatCommand.{IsCheckFlatAnswer, IsCheckFlatRange};
ghost use Rattle.gd_run.specs.CheckFlatCommand.{check_flat_inputs, check_flat_words};

use crate::decision::decide;
use crate::inputs::{Input, InputKind};
use crate::report::{Report, only_line};
use gd_base::limits::TOLERANCE;
use gd_base::{Memory, plain_number};
use gd_cert::Cert;
use gd_flat::flat_task;
use gd_points::PointTable;
use std::alloc::Global;

/// `checkflat POINTS T CERT`: decide a certificate of flatness from the points of a file.
#[derive(Clone, Copy)]
pub struct CheckFlatCommand<'a> {
    /// The word of the points file.
    pub points: &'a str,
    /// The tolerance, in units of 0.1 micrometre.
    pub tolerance: u32,
    /// The word of the certificate.
    pub certificate: &'a str,
    ghost tolerance_range: { tolerance ≤ TOLERANCE },
}

impl<'a> CheckFlatCommand<'a> {
    ghost use Rattle.gd_run.specs.Views.{answer_in, check_flat_of, input_of};

    /// The command of these words after `checkflat`, or none where the number is spelled otherwise or out of its range.
    pub fn of(
        points: &'a str,
        tolerance: &str,
        certificate: &'a str,
    ) -> Option<CheckFlatCommand<'a>>
        ensures { IsSpelled check_flat_words IsCheckFlatRange
            (codes "checkflat" ∷ points.now ∷ tolerance.now ∷ certificate.now ∷ []) (option_map check_flat_of result) }
    {
        let tolerance = plain_number(tolerance.as_bytes(), u64::from(TOLERANCE))?;
        Some(CheckFlatCommand {
            points,
            tolerance: tolerance as u32,
            certificate,
        })
    }

    /// The files that it reads, in order.
    pub fn inputs(&self, alloc: Global) -> Result<Vec<Input<'a>>, Memory>
        ensures { IfOk result (λ v. map input_of v.items ≡ check_flat_inputs (check_flat_of self.now)) }
    {
        let mut inputs = Vec::with_capacity(alloc, 2)?;
        inputs.push(Input {
            kind: InputKind::Points,
            word: self.points,
        })?;
        inputs.push(Input {
            kind: InputKind::Certificate,
            word: self.certificate,
        })?;
        Ok(inputs)
    }

    /// Whether the certificate is right for the points of a table, and else its first wrong line.
    pub fn answer(
        &self,
        alloc: Global,
        table: &PointTable,
        cert: &Cert,
    ) -> Result<Report<'a>, Memory>
        requires some { 0 < length table.now.rows }
        requires bounds { IsInBounds (certificate_of cert.now) }
        requires lines { KeepsLines cert.now }
        requires short { length (text (certificate_of cert.now)) ≤ FILE_BYTES }
        ensures { IfOk result
            (λ r. IsCheckFlatAnswer (check_flat_of self.now) table.now (certificate_of cert.now) (answer_in r)) }
    {
        let task = flat_task(table, self.tolerance);
        let line = decide(alloc, &[task], cert)?;
        Ok(only_line(line))
    }
}
