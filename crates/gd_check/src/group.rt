// The groups of a certificate.
ghost use Rattle.std.specs.Prelude.{◌≡◌, ◌<◌, ◌≤◌, ◌+◌, ◌^◌, IfOk, None, Some, cond, filter, length, nat_eq};
ghost use Rattle.gd_cells.specs.Grid.{Grid};
ghost use Rattle.gd_cells.specs.Witnesses.{witness_of};
ghost use Rattle.gd_cert.specs.Bounds.{BodyFits};
ghost use Rattle.gd_cert.specs.Certificates.{Open, body_of};
ghost use Rattle.gd_cert.specs.Reading.{fault};
ghost use Rattle.gd_cert.specs.Text.{body_lines};
ghost use Rattle.gd_check.specs.Wrong.{are_wrong_counts, is_left, is_placed, is_split, is_wrong_reason, wrong_body};

use crate::rule::Rule;
use crate::tree::{TreeOf, wrong_line};
use gd_base::{Counts, Memory, Reason};
use gd_cells::{Cell, MOST_DIMS, Node, Task, witness_of};
use gd_cert::{CertBody, CertFault, CertGroup};

// The wrong line of a witness, which stands on this line.
fn wrong_witness<T: Task>(task: &T, line: u32, root: u32, numbers: &[i64]) -> Option<CertFault>
    requires { length numbers.now ≤ MOST_DIMS }
    ensures { let q = T.questions task.now in result ≡ cond (is_placed q root numbers.now)
        (cond (q.tests.holds (witness_of root numbers.now)) None (Some (fault line 51)))
        (Some (fault line 52)) }
{
    let witness = witness_of(root, numbers);
    if numbers.len() != task.numbers() as usize || !task.in_range(&witness) {
        return Some(Rule::Place.broken_at(line));
    }
    if task.holds(&witness) {
        None
    } else {
        Some(Rule::Witness.broken_at(line))
    }
}

fn count_split(tree: &[Node]) -> usize
    ensures { result ≡ length (filter is_split tree.now) }
{
    tree.iter()
        .filter(|node| matches!(node, Node::Split))
        .count()
}

fn count_left(tree: &[Node]) -> usize
    ensures { result ≡ length (filter is_left tree.now) }
{
    tree.iter()
        .filter(|node| matches!(node, Node::Left))
        .count()
}

// Whether the reason doesn't fit the other counts.
fn is_reason_wrong(counts: Counts, finest: u32, budget: u32) -> bool
    ensures { (g : Grid) → g.finest ≡ finest → result ≡ is_wrong_reason g budget counts counts.reason }
{
    match counts.reason {
        Reason::Budget => {
            u64::from(counts.spent) + u64::from(counts.undecided) <= u64::from(budget)
                || counts.level == finest
        }
        Reason::Floor => counts.level != finest,
    }
}

// Whether what an open group states isn't so, or isn't an open verdict for the budget.
fn are_counts_wrong<T: Task>(task: &T, budget: u32, counts: Counts, tree: &[Node]) -> bool
    ensures { result ≡ are_wrong_counts (T.questions task.now) budget counts tree.now }
{
    counts.undecided as usize != count_left(tree)
        || counts.spent as usize != count_split(tree)
        || budget < counts.spent
        || is_reason_wrong(counts, task.finest_level(), budget)
        || counts.undecided == 0
}

/// The first wrong line of a group. `waiting` is room for the cells that wait for their lines.
pub fn wrong_group<T: Task>(
    task: &T,
    budget: u32,
    group: &CertGroup,
    waiting: &mut Vec<Cell>,
) -> Result<Option<CertFault>, Memory>
    requires fits { BodyFits (body_of group.now.body) }
    requires lines { group.now.line + 1 + length (body_lines (body_of group.now.body)) < 2 ^ 32 }
    ensures { IfOk result
        (λ wrong. wrong ≡ wrong_body (T.questions task.now) budget group.now.line (body_of group.now.body)) }
{
    match &group.body {
        CertBody::Accept { root, at } => {
            Ok(wrong_witness(task, group.line + 1, *root, at.as_slice()))
        }
        CertBody::Reject { tree } => wrong_line(
            task,
            TreeOf::Reject,
            group.line + 1,
            tree.as_slice(),
            waiting,
        ),
        CertBody::StillOpen { counts, tree } => wrong_open(
            task,
            budget,
            group.line,
            *counts,
            tree.as_slice(),
            waiting,
        ),
    }
}

// The first wrong line of an open group, which begins on this line: those of its tree come before the one of its
// counts.
fn wrong_open<T: Task>(
    task: &T,
    budget: u32,
    line: u32,
    counts: Counts,
    tree: &[Node],
    waiting: &mut Vec<Cell>,
) -> Result<Option<CertFault>, Memory>
    requires { line + 2 + length tree.now < 2 ^ 32 }
    ensures { IfOk result (λ wrong. wrong ≡ wrong_body (T.questions task.now) budget line (Open counts tree.now)) }
{
    let tree_of = TreeOf::Open {
        level: counts.level,
    };
    match wrong_line(task, tree_of, line + 2, tree, waiting)? {
        Some(fault) => Ok(Some(fault)),
        None => {
            if are_counts_wrong(task, budget, counts, tree) {
                Ok(Some(Rule::Open.broken_at(line + 1)))
            } else {
                Ok(None)
            }
        }
    }
}
