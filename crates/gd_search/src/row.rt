// The rows of a level: its cells, and what their bounding finds.
ghost use Rattle.std.specs.Prelude.{◌≡◌, ◌≤◌, ◌<◌, ◌*◌, IfOk, find, filter, length, map, option_map, vec_len};
ghost use Rattle.std.specs.List.{All, flat_map};
ghost use Rattle.gd_base.specs.Limits.{BUDGET};
ghost use Rattle.gd_cells.specs.Grid.{IsCell, count_from};
ghost use Rattle.gd_cells.specs.Halves.{whole_root};
ghost use Rattle.gd_search.specs.Rows.{fresh, is_open, judged, rows_below};

use gd_base::Memory;
use gd_cells::{Cell, Evidence, Task, root_cell, show_laws};
use std::alloc::Global;

/// A cell, what refutes it first, and whether its centre holds. Where something refutes it, its centre isn't tried.
#[derive(Clone, Copy)]
pub struct Row {
    pub cell: Cell,
    pub found: Option<Evidence>,
    pub holds: bool,
}

// The row of a cell before its bounding.
fn fresh_row(cell: Cell) -> Row
    ensures { result ≡ fresh cell }
{
    Row {
        cell,
        found: None,
        holds: false,
    }
}

/// The rows of the roots, in order.
pub fn root_rows(alloc: Global, roots: u32) -> Result<Vec<Row>, Memory>
    ensures rows { IfOk result (λ v. v.items ≡ map (λ r. fresh (whole_root r)) (count_from 1 roots)) }
    ensures count { IfOk result (λ v. vec_len v ≡ roots) }
{
    let mut rows = Vec::with_capacity(alloc, roots as usize)?;
    for index in 0..roots {
        rows.push(fresh_row(root_cell(index + 1)))?;
    }
    Ok(rows)
}

// Bounds the cell of one row, and tries its centre where it stays undecided.
fn bound_row<T: Task>(task: &T, row: &mut Row)
    requires { IsCell (T.questions task.now).grid row.old.cell }
    ensures { row.new ≡ judged (T.questions task.now) row.old }
{
    show_laws::<T>();
    row.found = task.refutes(&row.cell);
    row.holds = row.found.is_none() && task.holds(&task.centre(&row.cell));
}

/// Bounds the cells of the rows, in order.
#[tactic(auto, using(crate::proofs::Rows::cell_of_row))]
pub fn bound_rows<T: Task>(task: &T, rows: &mut [Row])
    requires { All (λ row. IsCell (T.questions task.now).grid row.cell) rows.old }
    ensures { rows.new ≡ map (judged (T.questions task.now)) rows.old }
{
    for row in rows.iter_mut() {
        bound_row(task, row);
    }
}

/// How many cells are undecided.
pub fn count_undecided(rows: &[Row]) -> usize
    ensures count { result ≡ length (filter is_open rows.now) }
    ensures few { result ≤ length rows.now }
{
    rows.iter().filter(|row| row.found.is_none()).count()
}

/// The first cell whose centre holds.
pub fn first_holding(rows: &[Row]) -> Option<Cell>
    ensures { result ≡ option_map (λ row. row.cell) (find (λ row. row.holds) rows.now) }
{
    rows.iter().find(|row| row.holds).map(|row| row.cell)
}

/// The rows of the halves of the undecided cells, in order, of which there are so many.
#[tactic(auto, using(crate::proofs::Rows::cell_of_row, crate::proofs::Rows::above_of_row))]
pub fn half_rows<T: Task>(
    alloc: Global,
    task: &T,
    rows: &[Row],
    undecided: usize,
) -> Result<Vec<Row>, Memory>
    requires cells { All (λ row. IsCell (T.questions task.now).grid row.cell) rows.now }
    requires above { All (λ row. row.cell.level < (T.questions task.now).grid.finest) rows.now }
    requires room { undecided ≤ BUDGET }
    ensures rows { IfOk result (λ v. v.items ≡ flat_map (rows_below (T.questions task.now)) rows.now) }
{
    let mut below = Vec::with_capacity(alloc, 2 * undecided)?;
    for row in rows {
        if row.found.is_none() {
            let (lower, upper) = task.split(&row.cell);
            below.push(fresh_row(lower))?;
            below.push(fresh_row(upper))?;
        }
    }
    Ok(below)
}
