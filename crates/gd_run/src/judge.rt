// The command `judge`: its words, its inputs and its job.
ghost use Rattle.std.specs.Prelude.{◌≡◌, ◌<◌, ◌≤◌, ◌∷◌, [], IfOk, codes, length, map, option_map};
ghost use Rattle.gd_base.specs.Limits.{BUDGET};
ghost use Rattle.gd_frames.specs.Facts.{IsFile};
ghost use Rattle.gd_run.specs.Asks.{IsSpelled};
ghost use Rattle.gd_run.specs.JudgeCommand.{IsJudgeAnswer, IsJudgeRange, judge_inputs, judge_words};
ghost use Rattle.gd_tables.specs.Kinds.{file_of};

use crate::inputs::{Input, InputKind};
use crate::judgement::judged_report;
use crate::layout::Layout;
use crate::report::Report;
use gd_base::limits::BUDGET;
use gd_base::{Memory, plain_number};
use gd_frames::FrameFile;
use gd_group::groups;
use gd_points::{PointIndex, PointTable};
use std::alloc::Global;
use std::thread::Threads;

/// `judge FRAMES POINTS CERT BUDGET text` or `json`: judge all groups of a frame file, and store their certificate.
#[derive(Clone, Copy)]
pub struct JudgeCommand<'a> {
    /// The word of the frame file.
    pub frames: &'a str,
    /// The word of the points file.
    pub points: &'a str,
    /// The word of the file for the certificate.
    pub certificate: &'a str,
    /// How many cells all searches together may split: each group has the same share.
    pub budget: u32,
    /// How the report is laid out.
    pub layout: Layout,
    ghost budget_some: { 1 ≤ budget },
    ghost budget_range: { budget ≤ BUDGET },
}

impl<'a> JudgeCommand<'a> {
    ghost use Rattle.gd_run.specs.Views.{answer_in, input_of, judge_of};

    /// The command of these words after `judge`, or none where the budget or the layout is spelled otherwise.
    pub fn of(
        frames: &'a str,
        points: &'a str,
        certificate: &'a str,
        budget: &str,
        layout: &str,
    ) -> Option<JudgeCommand<'a>>
        ensures { IsSpelled judge_words IsJudgeRange
            (codes "judge" ∷ frames.now ∷ points.now ∷ certificate.now ∷ budget.now ∷ layout.now ∷ [])
            (option_map judge_of result) }
    {
        let budget = plain_number(budget.as_bytes(), u64::from(BUDGET))?;
        if budget == 0 {
            return None;
        }
        let layout = Layout::of(layout)?;
        Some(JudgeCommand {
            frames,
            points,
            certificate,
            budget: budget as u32,
            layout,
        })
    }

    /// The files that it reads, in order.
    pub fn inputs(&self, alloc: Global) -> Result<Vec<Input<'a>>, Memory>
        ensures { IfOk result (λ v. map input_of v.items ≡ judge_inputs (judge_of self.now)) }
    {
        let mut inputs = Vec::with_capacity(alloc, 2)?;
        inputs.push(Input {
            kind: InputKind::Points,
            word: self.points,
        })?;
        inputs.push(Input {
            kind: InputKind::Frames,
            word: self.frames,
        })?;
        Ok(inputs)
    }

    /// The verdicts of all groups, with their certificate.
    pub fn answer<R: Threads + Sync>(
        &self,
        rt: &R,
        alloc: Global,
        table: &PointTable,
        file: &FrameFile,
    ) -> Result<Report<'a>, Memory>
        requires { IsFile table.now (file_of file.now) }
        ensures { IfOk result (λ r. IsJudgeAnswer (judge_of self.now) table.now (file_of file.now) (answer_in r)) }
    {
        let index = PointIndex::of(alloc, table)?;
        let groups = groups(alloc, file, &index)?;
        let report = judged_report(
            rt,
            alloc,
            groups.tasks.as_slice(),
            groups.labels.as_slice(),
            self.budget,
            self.layout,
            self.certificate,
        )?;
        Ok(report)
    }
}
