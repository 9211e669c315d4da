// The commands of the program. A command is a case in each of these functions.
ghost use Rattle.std.specs.Prelude.{◌≡◌, ◌∷◌, [], IfOk, map, option_map};
ghost use Rattle.std.specs.String.{string_bytes};
ghost use Rattle.gd_run.specs.Asks.{ForCheckFlat, ForFlat, ForJudge, IsAskOf, IsJob, inputs_of};
ghost use Rattle.gd_run.specs.Inputs.{kinds_after, kinds_of, nothing_given};
ghost use Rattle.gd_run.specs.Reports.{IsSound};
ghost use Rattle.gd_run.specs.Views.{answer_in, ask_of, check_flat_of, flat_of, given_of, input_of, judge_of};

use crate::check::CheckCommand;
use crate::checkflat::CheckFlatCommand;
use crate::flat::FlatCommand;
use crate::inputs::{Input, Inputs};
use crate::judge::JudgeCommand;
use crate::report::Report;
use gd_base::Memory;
use std::alloc::Global;
use std::thread::Threads;

/// What the words of a run ask for.
#[derive(Clone, Copy)]
pub enum Command<'a> {
    Flat(FlatCommand<'a>),
    CheckFlat(CheckFlatCommand<'a>),
    Judge(JudgeCommand<'a>),
    Check(CheckCommand<'a>),
}

// The command of the words that follow `flat`.
fn as_flat<'a>(flat: Option<FlatCommand<'a>>) -> Option<Command<'a>>
    ensures { option_map ask_of result ≡ option_map (λ c. ForFlat (flat_of c)) flat.entry }
{
    match flat {
        Some(flat) => Some(Command::Flat(flat)),
        None => None,
    }
}

// The command of the words that follow `checkflat`.
fn as_check_flat<'a>(check: Option<CheckFlatCommand<'a>>) -> Option<Command<'a>>
    ensures { option_map ask_of result ≡ option_map (λ c. ForCheckFlat (check_flat_of c)) check.entry }
{
    match check {
        Some(check) => Some(Command::CheckFlat(check)),
        None => None,
    }
}

// The command of the words that follow `judge`.
fn as_judge<'a>(judge: Option<JudgeCommand<'a>>) -> Option<Command<'a>>
    ensures { option_map ask_of result ≡ option_map (λ c. ForJudge (judge_of c)) judge.entry }
{
    match judge {
        Some(judge) => Some(Command::Judge(judge)),
        None => None,
    }
}

// The command of four words, if they are of one.
fn of_four<'a>(name: &str, first: &'a str, second: &'a str, last: &'a str) -> Option<Command<'a>>
    ensures { IsAskOf (name.now ∷ first.now ∷ second.now ∷ last.now ∷ []) (option_map ask_of result) }
{
    match name {
        "flat" => as_flat(FlatCommand::of(first, second, last, None)),
        "checkflat" => as_check_flat(CheckFlatCommand::of(first, second, last)),
        "check" => Some(Command::Check(CheckCommand {
            frames: first,
            points: second,
            certificate: last,
        })),
        _ => None,
    }
}

// The command of five words, if they are of one.
fn of_five<'a>(
    name: &str,
    points: &'a str,
    tolerance: &'a str,
    budget: &'a str,
    certificate: &'a str,
) -> Option<Command<'a>>
    ensures { IsAskOf (name.now ∷ points.now ∷ tolerance.now ∷ budget.now ∷ certificate.now ∷ [])
        (option_map ask_of result) }
{
    match name {
        "flat" => as_flat(FlatCommand::of(points, tolerance, budget, Some(certificate))),
        _ => None,
    }
}

// The command of six words, if they are of one.
fn of_six<'a>(
    name: &str,
    frames: &'a str,
    points: &'a str,
    certificate: &'a str,
    budget: &'a str,
    layout: &'a str,
) -> Option<Command<'a>>
    ensures { IsAskOf
        (name.now ∷ frames.now ∷ points.now ∷ certificate.now ∷ budget.now ∷ layout.now ∷ [])
        (option_map ask_of result) }
{
    match name {
        "judge" => as_judge(JudgeCommand::of(frames, points, certificate, budget, layout)),
        _ => None,
    }
}

impl<'a> Command<'a> {
    /// The command of the words, or none where they are of no command (`docs/FORMATS.md`).
    pub fn of(words: &'a [String]) -> Option<Command<'a>>
        ensures { IsAskOf (map string_bytes words.now) (option_map ask_of result) }
    {
        match words {
            [name, a, b, c] => of_four(name.as_str(), a.as_str(), b.as_str(), c.as_str()),
            [name, a, b, c, d] => of_five(
                name.as_str(),
                a.as_str(),
                b.as_str(),
                c.as_str(),
                d.as_str(),
            ),
            [name, a, b, c, d, e] => of_six(
                name.as_str(),
                a.as_str(),
                b.as_str(),
                c.as_str(),
                d.as_str(),
                e.as_str(),
            ),
            _ => None,
        }
    }

    /// The files that it reads, in order.
    pub fn inputs(&self, alloc: Global) -> Result<Vec<Input<'a>>, Memory>
        ensures { IfOk result (λ v. map input_of v.items ≡ inputs_of (ask_of self.now)) }
    {
        match self {
            Command::Flat(flat) => flat.inputs(alloc),
            Command::CheckFlat(check) => check.inputs(alloc),
            Command::Judge(judge) => judge.inputs(alloc),
            Command::Check(check) => check.inputs(alloc),
        }
    }

    /// Its answer from what was read of its inputs.
    pub fn answer<R: Threads + Sync>(
        &self,
        rt: &R,
        alloc: Global,
        inputs: &Inputs,
    ) -> Result<Report<'a>, Memory>
        requires sound { IsSound inputs.now }
        requires there { kinds_of (given_of inputs.now)
            ≡ kinds_after (kinds_of nothing_given) (inputs_of (ask_of self.now)) }
        ensures { IfOk result (λ r. IsJob (ask_of self.now) (given_of inputs.now) (answer_in r)) }
    {
        match self {
            Command::Flat(flat) => flat.answer(rt, alloc, inputs.table()),
            Command::CheckFlat(check) => check.answer(alloc, inputs.table(), inputs.certificate()),
            Command::Judge(judge) => judge.answer(rt, alloc, inputs.table(), inputs.frames()),
            Command::Check(check) => check.answer(
                alloc,
                inputs.table(),
                inputs.frames(),
                inputs.certificate(),
            ),
        }
    }
}
