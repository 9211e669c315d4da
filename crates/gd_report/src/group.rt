// The report of a run over groups of requirements, as lines.
ghost use Rattle.std.specs.Prelude.{◌≡◌, IfOk};
ghost use Rattle.std.specs.List.{list_any};
ghost use Rattle.std.specs.String.{string_bytes};
ghost use Rattle.gd_report.specs.Groups.{ending_of, group_text, groups_text, is_open, is_rejected, status_text, verdict_text};
ghost use Rattle.gd_report.specs.Reports.{reported};
ghost use Rattle.gd_report.specs.Said.{said_in, status_of};
ghost use Rattle.gd_report.specs.Texts.{open_text, reject_text};

use crate::ending::Ending;
use crate::line::Line;
use crate::verdicts::{open_words, reject_words};
use gd_base::{Name2, Verdict};
use std::alloc::{AllocError, Global};

/// A group of requirements by its label, and its verdict. A label has the bytes of names, `/`, `#` and `+`.
#[derive(Debug, Drop)]
pub struct GroupVerdict {
    pub label: Name2,
    pub verdict: Verdict,
}

impl GroupVerdict {
    fn is_rejected(&self) -> bool
        ensures { result ≡ is_rejected self.now }
    {
        matches!(self.verdict, Verdict::Reject { .. })
    }

    fn is_open(&self) -> bool
        ensures { result ≡ is_open self.now }
    {
        matches!(self.verdict, Verdict::StillOpen(_))
    }
}

fn any_rejected(groups: &[GroupVerdict]) -> bool
    ensures { result ≡ list_any is_rejected groups.now }
{
    groups.iter().any(|group| group.is_rejected())
}

fn any_open(groups: &[GroupVerdict]) -> bool
    ensures { result ≡ list_any is_open groups.now }
{
    groups.iter().any(|group| group.is_open())
}

impl Ending {
    /// How a run over groups ends: rejected where some verdict is a reject, else open where some is open, else done.
    pub fn of_groups(groups: &[GroupVerdict]) -> Ending
        ensures { result ≡ ending_of groups.now }
    {
        if any_rejected(groups) {
            Ending::Rejected
        } else if any_open(groups) {
            Ending::Open
        } else {
            Ending::Done
        }
    }
}

fn accept_words(alloc: Global, level: u32) -> Result<String, AllocError>
    ensures { IfOk result (λ text. string_bytes text ≡ verdict_text (Verdict.Accept level)) }
{
    format!(in alloc; "accept level {level}\n")
}

fn verdict_words(alloc: Global, verdict: Verdict) -> Result<String, AllocError>
    ensures { IfOk result (λ text. string_bytes text ≡ verdict_text verdict) }
{
    match verdict {
        Verdict::Accept { level } => accept_words(alloc, level),
        Verdict::Reject { leaves } => reject_words(alloc, leaves as usize),
        Verdict::StillOpen(counts) => open_words(alloc, counts),
    }
}

/// The line of a group by its number from 1. It ends in LF.
pub fn group_line(alloc: Global, number: usize, group: &GroupVerdict) -> Result<String, AllocError>
    ensures { IfOk result (λ text. string_bytes text ≡ group_text number group.now) }
{
    let label = group.label.text();
    let verdict = verdict_words(alloc, group.verdict)?;
    format!(in alloc; "group {number} {label} {verdict}")
}

// The lines of all groups, which are numbered from 1.
fn group_lines(alloc: Global, groups: &[GroupVerdict]) -> Result<String, AllocError>
    ensures { IfOk result (λ text. string_bytes text ≡ groups_text 1 groups.now) }
{
    let mut text = String::new(alloc);
    for (at, group) in groups.iter().enumerate() {
        let line = group_line(alloc, at + 1, group)?;
        text.push_str(line.as_str())?;
    }
    Ok(text)
}

fn status_words(alloc: Global, ending: Ending) -> Result<String, AllocError>
    ensures { IfOk result (λ text. string_bytes text ≡ status_text (status_of ending)) }
{
    let status = ending.status().0;
    format!(in alloc; "status {status}\n")
}

/// What a run over groups says in lines: one a group in their order, and at last the status.
pub fn text_report(alloc: Global, groups: &[GroupVerdict]) -> Result<Line, AllocError>
    ensures { IfOk result (λ line. said_in line ≡ reported groups.now) }
{
    let ending = Ending::of_groups(groups);
    let lines = group_lines(alloc, groups)?;
    let last = status_words(alloc, ending)?;
    let text = format!(in alloc; "{lines}{last}")?;
    Ok(Line { text, ending })
}
