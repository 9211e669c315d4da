// The tree of a search, from what was found in the cells of its levels.
ghost use Rattle.std.specs.Prelude.{◌≡◌, ◌+◌, ◌++◌, OnOk, length, map, IfOk, drop, MatchOption, [], ◌∷◌};
ghost use Rattle.gd_search.specs.Lines.{left_of, written, written_roots};

use crate::row::Row;
use gd_base::Memory;
use gd_cells::{Evidence, Node};
use std::alloc::{AllocError, Global};

/// What was found in the cells of a level, in order, and how many of these are written.
#[derive(Drop)]
pub struct Level {
    pub found: Vec<Option<Evidence>>,
    pub next: usize,
}

// What was found in the next cell of a level, where there is one.
fn take_next(level: &mut Level) -> Option<Option<Evidence>>
    ensures { MatchOption result
        ((drop level.old.next level.old.found.items ≡ []) × (drop level.new.next level.new.found.items ≡ []))
        (λ found. drop level.old.next level.old.found.items ≡ found ∷ drop level.new.next level.new.found.items) }
{
    let found = level.found.get(level.next).copied();
    if found.is_some() {
        level.next += 1;
    }
    found
}

// Writes the lines of the next cell of the first level, and of the cells below it.
fn write_cell(levels: &mut [Level], lines: &mut Vec<Node>) -> Result<(), Memory>
    ensures lines { OnOk result
        (lines.new.items ≡ lines.old.items ++ (written (length levels.old) (left_of levels.old)).lines) }
    ensures rest { OnOk result (left_of levels.new ≡ (written (length levels.old) (left_of levels.old)).rest) }
{
    let Some((level, below)) = levels.split_first_mut() else {
        return Ok(());
    };
    match take_next(level) {
        None => {}
        Some(Some(evidence)) => lines.push(Node::Refuted(evidence))?,
        Some(None) => {
            if below.is_empty() {
                lines.push(Node::Left)?;
            } else {
                lines.push(Node::Split)?;
                write_cell(below, lines)?;
                write_cell(below, lines)?;
            }
        }
    }
    Ok(())
}

// What was found in the cells of a level, in order.
fn found_in(alloc: Global, rows: &[Row]) -> Result<Vec<Option<Evidence>>, AllocError>
    ensures { IfOk result (λ v. v.items ≡ map (λ row. row.found) rows.now) }
{
    rows.iter().map(|row| row.found).collect(alloc)
}

/// Keeps what was found in the cells of the next level.
pub fn keep_level(alloc: Global, levels: &mut Vec<Level>, rows: &[Row]) -> Result<(), Memory>
    ensures kept { OnOk result
        (left_of levels.new.items ≡ left_of levels.old.items ++ map (λ row. row.found) rows.now ∷ []) }
    ensures count { OnOk result (length levels.new.items ≡ length levels.old.items + 1) }
{
    let found = found_in(alloc, rows)?;
    levels.push(Level { found, next: 0 })?;
    Ok(())
}

// Writes the lines of so many cells of the first level, with those below them.
#[tactic(auto, using(crate::proofs::Writing::roots_step, crate::proofs::Writing::roots_end))]
fn write_roots(levels: &mut [Level], roots: u32, lines: &mut Vec<Node>) -> Result<(), Memory>
    ensures { OnOk result
        (lines.new.items ≡ lines.old.items ++ written_roots roots (length levels.old) (left_of levels.old)) }
{
    for _root in 0..roots {
        write_cell(levels, lines)?;
    }
    Ok(())
}

/// The tree of the levels, of so many roots. `room` is how many lines to reserve.
pub fn write_tree(
    alloc: Global,
    roots: u32,
    room: u32,
    mut levels: Vec<Level>,
) -> Result<Vec<Node>, Memory>
    ensures { IfOk result (λ v. v.items ≡ written_roots roots (length levels.items) (left_of levels.items)) }
{
    let mut lines = Vec::with_capacity(alloc, room as usize)?;
    write_roots(levels.as_mut_slice(), roots, &mut lines)?;
    Ok(lines)
}
