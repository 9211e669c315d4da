// The search.
ghost use Rattle.std.specs.Prelude.{◌≡◌, ◌≤◌, ◌<◌, ◌+◌, ◌*◌, ◌^◌, ◌≢◌, IfOk, List, ℕ, None, find, length, option_map};
ghost use Rattle.std.specs.List.{All};
ghost use Rattle.gd_base.specs.Limits.{BUDGET};
ghost use Rattle.gd_cells.specs.Grid.{IsCell};
ghost use Rattle.gd_search.specs.Lines.{left_of, written_roots};
ghost use Rattle.gd_search.specs.Outcomes.{AcceptsRightly, RejectsRightly, end_of};
ghost use Rattle.gd_search.specs.Stops.{end_of_stop};
ghost use Rattle.gd_verdict.specs.Trees.{leaves_of};
ghost use Rattle.gd_verdict.specs.Verdict.{IsVerdict, counts_of, end_with};
ghost use Rattle.gd_cells.specs.declared.node.Node.{Node};

use crate::halves::{bound_level, most_chunks};
use crate::outcome::Outcome;
use crate::row::{Row, count_undecided, first_holding, half_rows, root_rows};
use crate::tree::{Level, keep_level, write_tree};
use gd_base::{Counts, Memory, Reason};
use gd_cells::{Task, Witness, show_laws};
use gd_verdict::show_verdict_means;
use std::alloc::Global;
use std::thread::Threads;

// Why a search ends at a level.
#[derive(Clone, Copy)]
pub enum Stop {
    Accept(Witness),
    Reject,
    Open(Counts),
}

// Where a search stands: the level, the undecided cells of that level, and those that were split before.
#[derive(Clone, Copy)]
pub struct Place {
    pub level: u32,
    pub undecided: u32,
    pub spent: u32,
}

impl Place {
    // What an open verdict says that stops here.
    fn counts(self, reason: Reason) -> Counts
        ensures { result ≡ counts_of self.level self.undecided self.spent reason }
    {
        Counts {
            level: self.level,
            undecided: self.undecided,
            spent: self.spent,
            reason,
        }
    }
}

// The centre of the first cell whose centre holds.
#[tactic(auto, using(crate::proofs::Rows::held_cell))]
fn first_witness<T: Task>(task: &T, rows: &[Row]) -> Option<Witness>
    requires { All (λ row. IsCell (T.questions task.now).grid row.cell) rows.now }
    ensures { result ≡ option_map (λ row. (T.questions task.now).tests.centre row.cell) (find (λ row. row.holds) rows.now) }
{
    match first_holding(rows) {
        Some(cell) => Some(task.centre(&cell)),
        None => None,
    }
}

// Whether the search ends at a level, by its four rules in their order.
fn stop_at(holding: Option<Witness>, place: Place, finest: u32, budget: u32) -> Option<Stop>
    requires { place.spent + place.undecided < 2 ^ 32 }
    ensures rules { (lines : List Node) (roots : ℕ) → option_map (end_of_stop place lines roots) result
        ≡ end_with holding lines place.level place.undecided place.spent roots finest budget }
    ensures level { result ≡ None → place.level ≢ finest }
    ensures budget { result ≡ None → place.spent + place.undecided ≤ budget }
{
    if let Some(witness) = holding {
        return Some(Stop::Accept(witness));
    }
    if place.undecided == 0 {
        Some(Stop::Reject)
    } else if place.level == finest {
        Some(Stop::Open(place.counts(Reason::Floor)))
    } else if budget < place.spent + place.undecided {
        Some(Stop::Open(place.counts(Reason::Budget)))
    } else {
        None
    }
}

// The outcome of a search that ends at a level.
fn finish(
    alloc: Global,
    stop: Stop,
    place: Place,
    roots: u32,
    levels: Vec<Level>,
) -> Result<Outcome, Memory>
    requires few { roots + 2 * place.spent < 2 ^ 32 }
    requires leaves { stop ≡ Stop.Reject
        → leaves_of (written_roots roots (length levels.items) (left_of levels.items)) ≡ place.spent + roots }
    ensures { IfOk result (λ o. end_of o
        ≡ end_of_stop place (written_roots roots (length levels.items) (left_of levels.items)) roots stop) }
{
    // each split gives two lines more
    let lines = roots + 2 * place.spent;
    match stop {
        Stop::Accept(witness) => Ok(Outcome::Accept {
            witness,
            level: place.level,
        }),
        Stop::Reject => {
            let tree = write_tree(alloc, roots, lines, levels)?;
            Ok(Outcome::Reject { tree })
        }
        Stop::Open(counts) => {
            let tree = write_tree(alloc, roots, lines, levels)?;
            Ok(Outcome::StillOpen { tree, counts })
        }
    }
}

// Searches level after level, and keeps what was found in the cells of each.
fn search_levels<R: Threads + Sync, T: Task>(
    rt: &R,
    alloc: Global,
    task: &T,
    budget: u32,
) -> Result<Outcome, Memory>
    requires { budget ≤ BUDGET }
    ensures { IfOk result (λ o. IsVerdict (T.questions task.now) budget (end_of o)) }
{
    show_laws::<T>();
    let roots = task.roots();
    let finest = task.finest_level();
    let most = most_chunks(rt);
    let mut levels = Vec::new(alloc);
    let mut rows = root_rows(alloc, roots)?;
    let mut place = Place {
        level: 0,
        undecided: 0,
        spent: 0,
    };
    'levels: loop {
        bound_level(rt, task, place.level, most, &mut rows);
        keep_level(alloc, &mut levels, rows.as_slice())?;
        place.undecided = count_undecided(rows.as_slice()) as u32;
        let holding = first_witness(task, rows.as_slice());
        match stop_at(holding, place, finest, budget) {
            Some(stop) => return finish(alloc, stop, place, roots, levels),
            None => {}
        }
        rows = half_rows(alloc, task, rows.as_slice(), place.undecided as usize)?;
        place.spent += place.undecided;
        place.level += 1;
    }
}

/// Searches the cells of a task, level after level, and splits at most `budget` cells.
///
/// The outcome is the verdict, whatever number of threads run. An accept has the first centre that holds, so its
/// assignment is feasible. Where it is a reject, no assignment of the task is feasible. The budget is at most
/// 1,000,000, and the first level is always judged.
pub fn search<R: Threads + Sync, T: Task>(
    rt: &R,
    alloc: Global,
    task: &T,
    budget: u32,
) -> Result<Outcome, Memory>
    requires { budget ≤ BUDGET }
    ensures verdict { IfOk result (λ o. IsVerdict (T.questions task.now) budget (end_of o)) }
    ensures reject { IfOk result (λ o. RejectsRightly (T.feasible task.now) o) }
    ensures accept { IfOk result
        (λ o. AcceptsRightly (T.questions task.now) (T.feasible task.now) (T.assignment task.now) o) }
{
    show_verdict_means::<T>();
    let outcome = search_levels(rt, alloc, task, budget)?;
    Ok(outcome)
}
