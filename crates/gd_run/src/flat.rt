// The command `flat`: its words, its inputs and its job.
ghost use Rattle.std.specs.Prelude.{◌≡◌, ◌<◌, ◌≤◌, ◌∷◌, [], true, IfOk, codes, length, map, option_map, option_to_list};
ghost use Rattle.gd_base.specs.Limits.{BUDGET, TOLERANCE};
ghost use Rattle.gd_flat.specs.FlatTask.{direction_at, is_in_range};
ghost use Rattle.gd_report.specs.Said.{said_in};
ghost use Rattle.gd_run.specs.Asks.{IsSpelled};
ghost use Rattle.gd_run.specs.FlatCommand.{IsFlatAnswer, IsFlatRange, flat_inputs, flat_words, said_of_end};
ghost use Rattle.gd_run.specs.Outcomes.{IsPrintable};
ghost use Rattle.gd_search.specs.Outcomes.{end_of};

use crate::certificate::certificate_text;
use crate::inputs::{Input, InputKind};
use crate::report::{NamedFile, Report};
use gd_base::limits::{BUDGET, TOLERANCE};
use gd_base::{Memory, plain_number};
use gd_cells::Witness;
use gd_dir::direction;
use gd_flat::flat_task;
use gd_points::PointTable;
use gd_report::{Line, accept_line, open_line, reject_line};
use gd_search::{Outcome, search};
use gd_vec::V3;
use gd_verdict::leaves;
use std::alloc::{AllocError, Global};
use std::thread::Threads;

/// `flat POINTS T BUDGET` or `flat POINTS T BUDGET CERT`: judge the flatness of all points of a file.
#[derive(Clone, Copy)]
pub struct FlatCommand<'a> {
    /// The word of the points file.
    pub points: &'a str,
    /// The tolerance, in units of 0.1 micrometre.
    pub tolerance: u32,
    /// How many cells the search may split.
    pub budget: u32,
    /// The word of the file for the certificate, where one is wanted.
    pub certificate: Option<&'a str>,
    ghost tolerance_range: { tolerance ≤ TOLERANCE },
    ghost budget_some: { 1 ≤ budget },
    ghost budget_range: { budget ≤ BUDGET },
}

impl<'a> FlatCommand<'a> {
    ghost use Rattle.gd_run.specs.Views.{answer_in, flat_of, input_of};

    /// The command of these words after `flat`, or none where a number is spelled otherwise or out of its range.
    pub fn of(
        points: &'a str,
        tolerance: &str,
        budget: &str,
        certificate: Option<&'a str>,
    ) -> Option<FlatCommand<'a>>
        ensures { IsSpelled flat_words IsFlatRange (codes "flat" ∷ points.now ∷ tolerance.now ∷ budget.now
            ∷ option_to_list (option_map (λ w. w.now) certificate.entry)) (option_map flat_of result) }
    {
        let tolerance = plain_number(tolerance.as_bytes(), u64::from(TOLERANCE))?;
        let budget = plain_number(budget.as_bytes(), u64::from(BUDGET))?;
        if budget == 0 {
            return None;
        }
        Some(FlatCommand {
            points,
            tolerance: tolerance as u32,
            budget: budget as u32,
            certificate,
        })
    }

    /// The files that it reads, in order.
    pub fn inputs(&self, alloc: Global) -> Result<Vec<Input<'a>>, Memory>
        ensures { IfOk result (λ v. map input_of v.items ≡ flat_inputs (flat_of self.now)) }
    {
        let mut inputs = Vec::with_capacity(alloc, 1)?;
        inputs.push(Input {
            kind: InputKind::Points,
            word: self.points,
        })?;
        Ok(inputs)
    }

    /// The verdict for the points of a table, with its certificate where one is wanted.
    pub fn answer<R: Threads + Sync>(
        &self,
        rt: &R,
        alloc: Global,
        table: &PointTable,
    ) -> Result<Report<'a>, Memory>
        requires { 0 < length table.now.rows }
        ensures { IfOk result (λ r. IsFlatAnswer (flat_of self.now) table.now (answer_in r)) }
    {
        let task = flat_task(table, self.tolerance);
        let outcome = search(rt, alloc, &task, self.budget)?;
        let line = outcome_line(alloc, &outcome)?;
        let file = match self.certificate {
            None => None,
            Some(name) => Some(NamedFile {
                name,
                bytes: certificate_text(alloc, &task, outcome, self.budget)?,
            }),
        };
        Ok(Report { line, file })
    }
}

// The direction of a witness of flatness, in 2^-30.
fn direction_at(witness: &Witness) -> V3
    requires { is_in_range witness.now ≡ true }
    ensures { result ≡ direction_at witness.now }
{
    direction(witness.root, witness.at[0], witness.at[1])
}

// How a search of flatness ended.
fn outcome_line(alloc: Global, outcome: &Outcome) -> Result<Line, AllocError>
    requires { IsPrintable outcome.now }
    ensures { IfOk result (λ line. said_in line ≡ said_of_end (end_of outcome.now)) }
{
    match outcome {
        Outcome::Accept { witness, level } => { accept_line(alloc, *level, &direction_at(witness)) }
        Outcome::Reject { tree } => reject_line(alloc, leaves(tree)),
        Outcome::StillOpen { counts, .. } => open_line(alloc, *counts),
    }
}
