// A group of conditions as a task over the cells of placements.
ghost use Rattle.std.specs.Prelude.{◌≡◌, ◌≤◌, IfOk, length};
ghost use Rattle.std.specs.List.{All};
ghost use Rattle.gd_base.specs.Limits.{CONDITIONS, COORDINATE};
ghost use Rattle.gd_fit.specs.Fits.{IsFit, asked_of, numbers_of, placement_in};
ghost use Rattle.gd_fit.specs.Laws.Task.{are_asked, fit_laws};
ghost use Rattle.gd_fit.specs.Props.{judged_prop, speak_prop};
ghost use Rattle.gd_fit.specs.Subjects.{AreJudged, SpeakOf, conditions_of};
ghost use Rattle.gd_fit.specs.Tests.{questions_of};
ghost use Rattle.gd_quat.specs.Placements.{placement_of};
ghost use Rattle.gd_turn.specs.Places.{assignment_at};
ghost use Rattle.gd_turn.specs.Ranges.{AreRanges, LiesIn};
ghost use Rattle.gd_vec.specs.Vector.{IsWithin};
ghost use Rattle.gd_zone.specs.Conditions.{IsCondition};

use crate::boxes::placed_in;
use crate::evidence::{first_against, refutes_named};
use gd_base::Memory;
use gd_cells::{Cell, Evidence, Task, Witness};
use gd_points::{PointIndex, PointTable};
use gd_turn::{Ranges, centre_of, dims, finest_level, is_in_range, placement_at, roots, split};
use gd_vec::V3;
use gd_zone::{Condition, Subject, holds};
use std::alloc::{AllocError, Global};

/// A group of conditions as a task: is there a placement in range at which all of them hold? `base` is the part's first
/// point, in units, about which placements turn the part. Conditions stand beside their points, which are those of
/// `table`, and are numbered from 1. A witness is a root, three ratios in 2^-30, the translation and the offsets in
/// fine units of 2^-16 unit.
#[derive(Drop)]
pub struct PlacementTask<'a> {
    pub ranges: Ranges,
    pub base: V3,
    pub subjects: Vec<Subject<'a>>,
    pub table: &'a PointTable,
    ghost ranged: { AreRanges ranges },
    ghost based: { IsWithin COORDINATE base },
    ghost judged: { AreJudged subjects.items } by { judged_prop subjects.items },
    ghost of_table: { SpeakOf table.now.rows subjects.items } by { speak_prop table.now.rows subjects.items },
    ghost few: { length subjects.items ≤ CONDITIONS },
}

// The conditions beside their points, which are found once.
fn subjects_of<'a>(
    alloc: Global,
    conditions: &[Condition],
    index: &'a PointIndex<'a>,
) -> Result<Vec<Subject<'a>>, AllocError>
    requires conditions { All IsCondition conditions.now }
    ensures conditions { IfOk result (λ v. conditions_of v.items ≡ conditions.now) }
    ensures count { IfOk result (λ v. length v.items ≡ length conditions.now) }
    ensures judged { IfOk result (λ v. AreJudged v.items) }
    ensures of_table { IfOk result (λ v. SpeakOf index.now.table.now.rows v.items) }
{
    let mut subjects = Vec::with_capacity(alloc, conditions.len())?;
    for at in 0..conditions.len() {
        subjects.push(Subject::of(&conditions[at], index))?;
    }
    Ok(subjects)
}

/// The task of a group of conditions on the points of an index. Each condition's points are found once, here. `base` is
/// the part's first point, in units.
pub fn placement_task<'a>(
    alloc: Global,
    ranges: Ranges,
    base: V3,
    conditions: &[Condition],
    index: &'a PointIndex<'a>,
) -> Result<PlacementTask<'a>, Memory>
    requires ranges { AreRanges ranges }
    requires base { IsWithin COORDINATE base }
    requires conditions { All IsCondition conditions.now }
    requires few { length conditions.now ≤ CONDITIONS }
    ensures ranges { IfOk result (λ task. task.ranges ≡ ranges) }
    ensures base { IfOk result (λ task. task.base ≡ base) }
    ensures conditions { IfOk result (λ task. conditions_of task.subjects.items ≡ conditions.now) }
    ensures rows { IfOk result (λ task. task.table.now.rows ≡ index.now.table.now.rows) }
{
    let subjects = subjects_of(alloc, conditions, index)?;
    Ok(PlacementTask {
        ranges,
        base,
        subjects,
        table: index.table(),
    })
}

// How many points the conditions speak of, each counted anew in each condition.
fn count_points(subjects: &[Subject<'_>]) -> usize {
    let mut count: usize = 0;
    for subject in subjects {
        count = count.saturating_add(subject.points().len());
    }
    count
}

impl<'a> Task for PlacementTask<'a> {
    ghost questions = { λ s. questions_of
        (asked_of s.ranges s.base s.table.now.rows (conditions_of s.subjects.items)) };

    ghost feasible = { λ s a. IsFit
        (asked_of s.ranges s.base s.table.now.rows (conditions_of s.subjects.items)) (placement_in a) };

    ghost inside = { λ s a c. LiesIn s.ranges c (placement_in a) };

    ghost assignment = { λ s w. numbers_of (placement_of (assignment_at s.ranges w)) };

    fn roots(&self) -> u32 {
        roots(&self.ranges)
    }

    fn dims(&self) -> u32 {
        dims(&self.ranges)
    }

    fn numbers(&self) -> u32 {
        dims(&self.ranges)
    }

    fn finest_level(&self) -> u32 {
        finest_level(&self.ranges)
    }

    fn points(&self) -> usize {
        count_points(&self.subjects)
    }

    fn split(&self, cell: &Cell) -> (Cell, Cell) {
        split(&self.ranges, cell)
    }

    fn refutes(&self, cell: &Cell) -> Option<Evidence> {
        first_against(self, &placed_in(&self.ranges, cell))
    }

    fn refutes_at(&self, cell: &Cell, evidence: &Evidence) -> bool {
        refutes_named(self, &placed_in(&self.ranges, cell), evidence)
    }

    fn centre(&self, cell: &Cell) -> Witness {
        centre_of(&self.ranges, cell)
    }

    fn in_range(&self, witness: &Witness) -> bool {
        is_in_range(&self.ranges, witness)
    }

    fn holds(&self, witness: &Witness) -> bool {
        let placement = placement_at(&self.ranges, witness);
        holds(&self.subjects, &self.base, &placement)
    }

    ghost laws = { λ t. fit_laws
        (asked_of t.ranges t.base t.table.now.rows (conditions_of t.subjects.items))
        (are_asked t.ranges t.base t.table.now.rows t.subjects.items t.ranged t.judged t.of_table t.few) };
}
