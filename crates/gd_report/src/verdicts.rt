// The lines of verdicts of one requirement.
ghost use Rattle.std.specs.Prelude.{◌≡◌, IfOk};
ghost use Rattle.std.specs.String.{string_bytes};
ghost use Rattle.gd_report.specs.Said.{accepted, opened, rejected, said_in};
ghost use Rattle.gd_report.specs.Texts.{counts_text, direction_text, open_text, reason_text, reject_text};

use crate::ending::Ending;
use crate::line::Line;
use gd_base::{Counts, Reason};
use gd_vec::V3;
use std::alloc::{AllocError, Global};

fn direction_words(alloc: Global, n: &V3) -> Result<String, AllocError>
    ensures { IfOk result (λ text. string_bytes text ≡ direction_text n.now) }
{
    let x = n.x;
    let y = n.y;
    let z = n.z;
    format!(in alloc; "{x} {y} {z}\n")
}

/// A search accepted at a level, with this direction, whose entries are in 2^-30.
pub fn accept_line(alloc: Global, level: u32, direction: &V3) -> Result<Line, AllocError>
    ensures { IfOk result (λ line. said_in line ≡ accepted level direction.now) }
{
    let direction = direction_words(alloc, direction)?;
    let text = format!(in alloc; "accept level {level} direction {direction}")?;
    Ok(Line {
        text,
        ending: Ending::Done,
    })
}

/// The words of a reject, with LF.
pub fn reject_words(alloc: Global, leaves: usize) -> Result<String, AllocError>
    ensures { IfOk result (λ text. string_bytes text ≡ reject_text leaves) }
{
    format!(in alloc; "reject leaves {leaves}\n")
}

/// A search rejected, and so many cells were refuted.
pub fn reject_line(alloc: Global, leaves: usize) -> Result<Line, AllocError>
    ensures { IfOk result (λ line. said_in line ≡ rejected leaves) }
{
    let text = reject_words(alloc, leaves)?;
    Ok(Line {
        text,
        ending: Ending::Rejected,
    })
}

/// The word of a reason.
pub fn reason_word(reason: Reason) -> &'static str
    ensures { result.now ≡ reason_text reason }
{
    match reason {
        Reason::Budget => "budget",
        Reason::Floor => "floor",
    }
}

fn counts_words(alloc: Global, undecided: u32, spent: u32) -> Result<String, AllocError>
    ensures { IfOk result (λ text. string_bytes text ≡ counts_text undecided spent) }
{
    format!(in alloc; " undecided {undecided} spent {spent}\n")
}

/// The words of a search that ended without a verdict, with LF.
pub fn open_words(alloc: Global, counts: Counts) -> Result<String, AllocError>
    ensures { IfOk result (λ text. string_bytes text ≡ open_text counts) }
{
    let reason = reason_word(counts.reason);
    let level = counts.level;
    let rest = counts_words(alloc, counts.undecided, counts.spent)?;
    format!(in alloc; "open {reason} level {level}{rest}")
}

/// A search ended without a verdict, with these counts.
pub fn open_line(alloc: Global, counts: Counts) -> Result<Line, AllocError>
    ensures { IfOk result (λ line. said_in line ≡ opened counts) }
{
    let text = open_words(alloc, counts)?;
    Ok(Line {
        text,
        ending: Ending::Open,
    })
}
