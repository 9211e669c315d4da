// The rows of a level in halves, which threads bound side by side.
ghost use Rattle.std.specs.Prelude.{◌≡◌, ◌≤◌, map};
ghost use Rattle.std.specs.List.{All};
ghost use Rattle.gd_cells.specs.Grid.{IsCell};
ghost use Rattle.gd_search.specs.Rows.{judged};

use crate::row::{Row, bound_rows};
use gd_cells::Task;
use std::thread::{Threads, available_parallelism, for_each_chunk_mut};

/// A chunk has so many looks of a cell at a point or more, a millisecond of work: the start of a thread may cost as
/// much.
const CHUNK: usize = 500_000;

/// How many chunks a level is cut in at most: halves, or halves of halves, until each processor has two, up to sixteen.
/// The system moves a new thread to a processor of its own with a delay; with a second chunk the delay costs less.
pub fn most_chunks<R: Threads>(rt: &R) -> usize
    ensures { 2 ≤ result }
{
    match available_parallelism(rt) {
        Ok(processors) => chunks_for(processors.get()),
        Err(_) => 2,
    }
}

// Two to the number of cuts that gives each of so many processors two chunks, one cut to four.
fn chunks_for(processors: usize) -> usize
    ensures { 2 ≤ result }
{
    match processors {
        0..=1 => 2,
        2 => 4,
        3..=4 => 8,
        _ => 16,
    }
}

// How many chunks a level of so many looks is cut in, of so many at most. The roots are always cut.
fn chunks_of(level: u32, looks: usize, most: usize) -> usize
    requires { 2 ≤ most }
    ensures { 1 ≤ result }
{
    let least = if level == 0 { 2 } else { 1 };
    (looks / CHUNK).clamp(least, most)
}

// Bounds the cells of the rows in so many chunks: `for_each_chunk_mut` cuts them in halves, and these again, and gives
// one half of each cut to a thread where one can be made.
fn bound_chunks<R: Threads + Sync, T: Task>(rt: &R, task: &T, chunks: usize, rows: &mut [Row])
    requires chunks { 1 ≤ chunks }
    requires cells { All (λ row. IsCell (T.questions task.now).grid row.cell) rows.old }
    ensures { rows.new ≡ map (judged (T.questions task.now)) rows.old }
{
    if chunks == 1 || rows.is_empty() {
        bound_rows(task, rows);
        return;
    }
    let size = rows.len().div_ceil(chunks);
    for_each_chunk_mut(
        rt,
        rows,
        size,
        &|_, chunk: &mut [Row]| -> ()
            requires { All (λ row. IsCell (T.questions task.now).grid row.cell) chunk.now }
        { bound_rows(task, chunk) },
    );
}

/// Bounds the cells of a level, in chunks of `most` at most where its rows and points are worth threads. Each thread
/// writes into its own rows.
pub fn bound_level<R: Threads + Sync, T: Task>(
    rt: &R,
    task: &T,
    level: u32,
    most: usize,
    rows: &mut Vec<Row>,
)
    requires most { 2 ≤ most }
    requires cells { All (λ row. IsCell (T.questions task.now).grid row.cell) rows.old.items }
    ensures { rows.new.items ≡ map (judged (T.questions task.now)) rows.old.items }
{
    let rows = rows.as_mut_slice();
    let looks = rows.len().saturating_mul(task.points());
    bound_chunks(rt, task, chunks_of(level, looks, most), rows);
}
