// The command `check`: its words, its inputs and its job.
ghost use Rattle.std.specs.Prelude.{◌≡◌, ◌<◌, ◌≤◌, ◌∷◌, [], IfOk, codes, length, map, option_map};
ghost use Rattle.gd_base.specs.Limits.{FILE_BYTES};
ghost use Rattle.gd_cert.specs.Bounds.{IsInBounds};
ghost use Rattle.gd_cert.specs.Certificates.{certificate_of};
ghost use Rattle.gd_cert.specs.Text.{KeepsLines, text};
ghost use Rattle.gd_frames.specs.Facts.{IsFile};
ghost use Rattle.gd_run.specs.Asks.{IsSpelled};
ghost use Rattle.gd_run.specs.CheckCommand.{IsCheckAnswer, IsCheckRange, check_inputs, check_words};
ghost use Rattle.gd_tables.specs.Kinds.{file_of};

use crate::inputs::{Input, InputKind};
use crate::judgement::checked_report;
use crate::report::Report;
use gd_base::Memory;
use gd_cert::Cert;
use gd_frames::FrameFile;
use gd_group::groups;
use gd_points::{PointIndex, PointTable};
use std::alloc::Global;

/// `check FRAMES POINTS CERT`: decide a certificate of all groups of a frame file.
#[derive(Clone, Copy)]
pub struct CheckCommand<'a> {
    /// The word of the frame file.
    pub frames: &'a str,
    /// The word of the points file.
    pub points: &'a str,
    /// The word of the certificate.
    pub certificate: &'a str,
}

impl<'a> CheckCommand<'a> {
    ghost use Rattle.gd_run.specs.Views.{answer_in, check_of, input_of};

    /// The files that it reads, in order.
    pub fn inputs(&self, alloc: Global) -> Result<Vec<Input<'a>>, Memory>
        ensures { IfOk result (λ v. map input_of v.items ≡ check_inputs (check_of self.now)) }
    {
        let mut inputs = Vec::with_capacity(alloc, 3)?;
        inputs.push(Input {
            kind: InputKind::Points,
            word: self.points,
        })?;
        inputs.push(Input {
            kind: InputKind::Frames,
            word: self.frames,
        })?;
        inputs.push(Input {
            kind: InputKind::Certificate,
            word: self.certificate,
        })?;
        Ok(inputs)
    }

    /// Whether the certificate is right for the groups of a frame file, and else its first wrong line.
    pub fn answer(
        &self,
        alloc: Global,
        table: &PointTable,
        file: &FrameFile,
        cert: &Cert,
    ) -> Result<Report<'a>, Memory>
        requires facts { IsFile table.now (file_of file.now) }
        requires bounds { IsInBounds (certificate_of cert.now) }
        requires lines { KeepsLines cert.now }
        requires short { length (text (certificate_of cert.now)) ≤ FILE_BYTES }
        ensures { IfOk result
            (λ r. IsCheckAnswer table.now (file_of file.now) (certificate_of cert.now) (answer_in r)) }
    {
        let index = PointIndex::of(alloc, table)?;
        let groups = groups(alloc, file, &index)?;
        let report = checked_report(alloc, groups.tasks.as_slice(), cert)?;
        Ok(report)
    }
}
