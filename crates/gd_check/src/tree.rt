// The lines of a tree against the cells that wait for them.
ghost use Rattle.std.specs.Prelude.{◌≡◌, ◌<◌, ◌+◌, ◌^◌, ◌∷◌, IfOk, List, ℕ, OnOk, length, option_map, reverse};
ghost use Rattle.std.specs.List.{All};
ghost use Rattle.gd_cells.specs.Grid.{IsCell};
ghost use Rattle.gd_cells.specs.declared.node.Node.{Node};
ghost use Rattle.gd_check.specs.Rules.{code_of};
ghost use Rattle.gd_check.specs.Wrong.{is_decided, is_wrong_left, is_wrong_split, kind_of, line_code};
ghost use Rattle.gd_check.specs.Wrong.{root_cells, waiting_after, with_code, wrong_line};

use crate::rule::Rule;
use gd_base::Memory;
use gd_cells::{Cell, Node, Task, root_cell, show_laws};
use gd_cert::CertFault;

/// What a tree is of: a rejected group, or an open one whose tree goes down to a level.
#[derive(Clone, Copy, Debug)]
pub enum TreeOf {
    Reject,
    Open { level: u32 },
}

// Whether a cell may be neither left nor halved in an open group: something refutes it, or its centre holds.
fn is_decided<T: Task>(task: &T, cell: &Cell) -> bool
    requires { IsCell (T.questions task.now).grid cell.now }
    ensures { result ≡ is_decided (T.questions task.now) cell.now }
{
    show_laws::<T>();
    task.refutes(cell).is_some() || task.holds(&task.centre(cell))
}

// Whether the tree may not halve a cell.
fn is_wrong_split<T: Task>(task: &T, tree_of: TreeOf, cell: &Cell) -> bool
    requires { IsCell (T.questions task.now).grid cell.now }
    ensures { result ≡ is_wrong_split (T.questions task.now) (kind_of tree_of) cell.now }
{
    match tree_of {
        TreeOf::Reject => false,
        TreeOf::Open { level } => is_decided(task, cell) || level <= cell.level,
    }
}

// Whether the tree may not leave a cell.
fn is_wrong_left<T: Task>(task: &T, tree_of: TreeOf, cell: &Cell) -> bool
    requires { IsCell (T.questions task.now).grid cell.now }
    ensures { result ≡ is_wrong_left (T.questions task.now) (kind_of tree_of) cell.now }
{
    match tree_of {
        TreeOf::Reject => true,
        TreeOf::Open { level } => is_decided(task, cell) || cell.level != level,
    }
}

// The rule that the line of a cell breaks.
fn broken_rule<T: Task>(task: &T, tree_of: TreeOf, cell: &Cell, node: &Node) -> Option<Rule>
    requires { IsCell (T.questions task.now).grid cell.now }
    ensures { option_map code_of result ≡ line_code (T.questions task.now) (kind_of tree_of) cell.now node.now }
{
    match node {
        Node::Split if cell.level == task.finest_level() => Some(Rule::FinestLevel),
        Node::Split if is_wrong_split(task, tree_of, cell) => Some(Rule::Open),
        Node::Left if is_wrong_left(task, tree_of, cell) => Some(Rule::Open),
        Node::Refuted(evidence) if !task.refutes_at(cell, evidence) => Some(Rule::Evidence),
        _ => None,
    }
}

// Lets the halves of a cell wait where its line halves it, the lower half last.
fn wait_after<T: Task>(
    task: &T,
    cell: &Cell,
    node: &Node,
    waiting: &mut Vec<Cell>,
) -> Result<(), Memory>
    requires cell { IsCell (T.questions task.now).grid cell.now }
    requires above { node.now ≡ Node.Split → cell.now.level < (T.questions task.now).grid.finest }
    requires cells { All (IsCell (T.questions task.now).grid) waiting.old.items }
    ensures cells { OnOk result (All (IsCell (T.questions task.now).grid) waiting.new.items) }
    ensures after { OnOk result (reverse waiting.new.items
        ≡ waiting_after (T.questions task.now) cell.now node.now (reverse waiting.old.items)) }
{
    show_laws::<T>();
    if let Node::Split = node {
        let (lower, upper) = task.split(cell);
        waiting.push(upper)?;
        waiting.push(lower)?;
    }
    Ok(())
}

// Takes the next line of a tree, which is that of the last of the waiting cells, and tells the rule that it breaks.
#[tactic(auto, using(crate::proofs::Waiting::above_cell, crate::proofs::Waiting::low_cell))]
fn take_line<T: Task>(
    task: &T,
    tree_of: TreeOf,
    node: &Node,
    waiting: &mut Vec<Cell>,
) -> Result<Option<Rule>, Memory>
    requires { All (IsCell (T.questions task.now).grid) waiting.old.items }
    ensures cells { OnOk result (All (IsCell (T.questions task.now).grid) waiting.new.items) }
    ensures line { IfOk result (λ broken. (line : ℕ) (nodes : List Node)
        → wrong_line (T.questions task.now) (kind_of tree_of) (reverse waiting.old.items) line (node.now ∷ nodes)
        ≡ with_code line (option_map code_of broken)
        (wrong_line (T.questions task.now) (kind_of tree_of) (reverse waiting.new.items) (line + 1) nodes)) }
{
    let Some(cell) = waiting.pop() else {
        return Ok(Some(Rule::NoCell));
    };
    match broken_rule(task, tree_of, &cell, node) {
        Some(rule) => Ok(Some(rule)),
        None => {
            wait_after(task, &cell, node, waiting)?;
            Ok(None)
        }
    }
}

// Lets the cells of the roots wait, the first root last.
fn wait_for_roots<T: Task>(task: &T, waiting: &mut Vec<Cell>) -> Result<(), Memory>
    ensures cells { OnOk result (All (IsCell (T.questions task.now).grid) waiting.new.items) }
    ensures roots { OnOk result (reverse waiting.new.items ≡ root_cells (T.questions task.now)) }
{
    show_laws::<T>();
    let roots = task.roots();
    // a cell halved again and again leaves one half a level
    let depth = roots + task.finest_level();
    waiting.clear();
    waiting.reserve(depth as usize)?;
    for index in 0..roots {
        waiting.push(root_cell(roots - index))?;
    }
    Ok(())
}

/// The first wrong line of a tree, of which the first has this number. `waiting` is room for the cells that wait for
/// their lines.
pub fn wrong_line<T: Task>(
    task: &T,
    tree_of: TreeOf,
    first_line: u32,
    tree: &[Node],
    waiting: &mut Vec<Cell>,
) -> Result<Option<CertFault>, Memory>
    requires { first_line + length tree.now < 2 ^ 32 }
    ensures { let q = T.questions task.now in IfOk result
        (λ wrong. wrong ≡ wrong_line q (kind_of tree_of) (root_cells q) first_line tree.now) }
{
    wait_for_roots(task, waiting)?;
    let mut line = first_line;
    for node in tree {
        match take_line(task, tree_of, node, waiting)? {
            Some(rule) => return Ok(Some(rule.broken_at(line))),
            None => {}
        }
        line += 1;
    }
    if waiting.is_empty() {
        Ok(None)
    } else {
        Ok(Some(Rule::NoLine.broken_at(line)))
    }
}
