// How the report of a run over groups is laid out.
use gd_report::{GroupVerdict, Line, json_report, text_report};
use std::alloc::{AllocError, Global};

/// How a report is laid out.
#[derive(Clone, Copy, Debug, PartialEq, Eq)]
pub enum Layout {
    /// A line a group, and the status.
    Text,
    /// One JSON object.
    Json,
}

impl Layout {
    ghost use Rattle.std.specs.Prelude.{◌≡◌, ◌≢◌, None, IfOk, IfSome};
    ghost use Rattle.gd_report.specs.Said.{said_in};
    ghost use Rattle.gd_run.specs.GroupReports.{said_of_groups};
    ghost use Rattle.gd_run.specs.JudgeCommand.{layout_word};

    /// The layout that a word names, or none.
    pub fn of(word: &str) -> Option<Layout>
        ensures some { IfSome result (λ layout. word.now ≡ layout_word layout) }
        ensures none { result ≡ None → (layout : Layout) → word.now ≢ layout_word layout }
    {
        match word {
            "text" => Some(Layout::Text),
            "json" => Some(Layout::Json),
            _ => None,
        }
    }

    /// What a run over groups says in this layout.
    pub fn report(self, alloc: Global, groups: &[GroupVerdict]) -> Result<Line, AllocError>
        ensures { IfOk result (λ line. said_in line ≡ said_of_groups self groups.now) }
    {
        match self {
            Layout::Text => text_report(alloc, groups),
            Layout::Json => json_report(alloc, groups),
        }
    }
}
