// The report of a run over groups of requirements, as JSON.
ghost use Rattle.std.specs.Prelude.{◌≡◌, ◌++◌, IfOk, codes, map};
ghost use Rattle.std.specs.String.{string_bytes};
ghost use Rattle.gd_report.specs.JsonData.{group_data, open_data, report_data};
ghost use Rattle.gd_report.specs.Reports.{reported_as_json};
ghost use Rattle.gd_report.specs.Said.{said_in, status_of};
ghost use Rattle.serde_json.specs.View.{view};
ghost use Rattle.serde_json.specs.Written.{compact_text};

use crate::ending::Ending;
use crate::group::GroupVerdict;
use crate::line::Line;
use crate::verdicts::reason_word;
use gd_base::{Counts, Verdict};
use serde_json::{Value, json};
use std::alloc::{AllocError, Global};

fn open_value(alloc: Global, name: &str, counts: Counts) -> Result<Value, AllocError>
    ensures { IfOk result (λ value. view value ≡ open_data name.now counts) }
{
    let reason = reason_word(counts.reason);
    json!(in alloc; {
        "level": counts.level,
        "name": name,
        "reason": reason,
        "spent": counts.spent,
        "undecided": counts.undecided,
        "verdict": "open"
    })
}

// The object of a group.
fn group_value(alloc: Global, group: &GroupVerdict) -> Result<Value, AllocError>
    ensures { IfOk result (λ value. view value ≡ group_data group.now) }
{
    let name = group.label.text();
    match group.verdict {
        Verdict::Accept { level } => {
            json!(in alloc; {"level": level, "name": name, "verdict": "accept"})
        }
        Verdict::Reject { leaves } => {
            json!(in alloc; {"leaves": leaves, "name": name, "verdict": "reject"})
        }
        Verdict::StillOpen(counts) => open_value(alloc, name, counts),
    }
}

fn group_values(alloc: Global, groups: &[GroupVerdict]) -> Result<Vec<Value>, AllocError>
    ensures { IfOk result (λ values. map view values.items ≡ map group_data groups.now) }
{
    let mut values = Vec::new(alloc);
    for group in groups {
        let value = group_value(alloc, group)?;
        values.push(value)?;
    }
    Ok(values)
}

fn report_value(alloc: Global, groups: &[GroupVerdict], ending: Ending) -> Result<Value, AllocError>
    ensures { IfOk result (λ value. view value ≡ report_data groups.now (status_of ending)) }
{
    let status = ending.status().0;
    let values = group_values(alloc, groups)?;
    json!(in alloc; {"groups": Value::Array(values), "status": status})
}

/// What a run over groups says as JSON: one object without spaces, and LF. It has `groups`, a list of an object a group in
/// their order, and `status`. Keys stand in the order of their bytes. The bytes of a label need no escapes.
pub fn json_report(alloc: Global, groups: &[GroupVerdict]) -> Result<Line, AllocError>
    ensures { IfOk result (λ line. said_in line ≡ reported_as_json groups.now) }
{
    let ending = Ending::of_groups(groups);
    let value = report_value(alloc, groups, ending)?;
    let mut text = value.to_string(alloc)?;
    text.push_str("\n")?;
    Ok(Line { text, ending })
}
