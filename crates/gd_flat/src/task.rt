// Flatness as a task over the cells of three faces.
ghost use Rattle.std.specs.Prelude.{◌≡◌, ◌<◌, ◌≤◌, None, length, nat_le, option_map, true, unsigned_abs};
ghost use Rattle.gd_base.specs.Limits.{POINTS, TOLERANCE};
ghost use Rattle.gd_base.specs.Scales.{ONE};
ghost use Rattle.gd_flat.specs.Laws.Task.{flat_laws};
ghost use Rattle.gd_flat.specs.FlatTask.{IsFeasible, IsInside, assignment_of, direction_at, is_in_range, questions_of};
ghost use Rattle.gd_flat.specs.FlatTests.{is_within};
ghost use Rattle.gd_flat.specs.PointRows.{rows_in};

use crate::flat::{first_evidence_in, is_refuted_at};
use crate::points::{Points, count_of};
use crate::spread::lies_within;
use gd_cells::{Cell, Evidence, Task, Witness, split_cell, witness_of, zeros_behind};
use gd_dir::{centre_of, direction, face_box};
use gd_points::PointTable;

/// The ratios -1 and 1 have this size, in 2^-30.
const ONE: u64 = 1 << 30;

/// The flatness of some points to a tolerance (ASME Y14.5M-1994, 6.4.2): some direction has all points between two
/// planes across it that lie the tolerance apart. The cells are boxes of directions on three faces of a cube. A witness
/// is a face and two ratios in 2^-30.
#[derive(Clone, Copy)]
pub struct FlatTask<'a> {
    pub points: Points<'a>,
    pub tolerance: u32,
    ghost tolerable: { tolerance ≤ TOLERANCE },
    ghost all: { option_map (λ n. n.now) points.numbers ≡ None },
    ghost some: { 0 < length points.table.now.rows },
    ghost few: { length points.table.now.rows ≤ POINTS },
}

/// The flatness of all points of a table, taken as one feature, to a tolerance in units of 0.1 micrometre.
pub fn flat_task(table: &PointTable, tolerance: u32) -> FlatTask<'_>
    requires some { 0 < length table.now.rows }
    requires tolerance { tolerance ≤ TOLERANCE }
    ensures rows { result.points.table.now.rows ≡ table.now.rows }
    ensures tolerance { result.tolerance ≡ tolerance }
{
    FlatTask {
        points: Points {
            table,
            numbers: None,
            columns: table.columns(),
        },
        tolerance,
    }
}

impl<'a> Task for FlatTask<'a> {
    ghost questions = { λ s. questions_of s.points.table.now.rows s.tolerance };

    ghost feasible = { λ s a. IsFeasible s.points.table.now.rows s.tolerance a };

    ghost inside = { λ s a c. IsInside a c };

    ghost assignment = { λ s w. assignment_of w.root (direction_at w) };

    fn roots(&self) -> u32 {
        3
    }

    fn dims(&self) -> u32 {
        2
    }

    fn numbers(&self) -> u32 {
        2
    }

    fn finest_level(&self) -> u32 {
        60
    }

    fn points(&self) -> usize {
        count_of(&self.points)
    }

    fn split(&self, cell: &Cell) -> (Cell, Cell) {
        split_cell(cell, cell.level as usize % 2)
    }

    fn refutes(&self, cell: &Cell) -> Option<Evidence> {
        first_evidence_in(&face_box(cell), &self.points, self.tolerance)
    }

    fn refutes_at(&self, cell: &Cell, evidence: &Evidence) -> bool {
        is_refuted_at(&face_box(cell), &self.points, self.tolerance, evidence)
    }

    fn centre(&self, cell: &Cell) -> Witness {
        let (first, second) = centre_of(cell);
        witness_of(cell.root, &[first, second])
    }

    fn in_range(&self, witness: &Witness) -> bool {
        is_in_range(witness)
    }

    fn holds(&self, witness: &Witness) -> bool {
        holds_at(&self.points, self.tolerance, witness)
    }

    ghost laws = { λ t. flat_laws t.points.table.now.rows t.tolerance t.some t.few };
}

// Whether a witness names a face and two ratios.
pub fn is_in_range(witness: &Witness) -> bool
    ensures { result ≡ is_in_range witness.now }
{
    1 <= witness.root
        && witness.root <= 3
        && is_ratio(witness.at[0])
        && is_ratio(witness.at[1])
        && zeros_behind(witness, 2)
}

// Whether the points lie within the tolerance, in units, along the direction of a witness in range.
pub fn holds_at(points: &Points<'_>, tolerance: u32, witness: &Witness) -> bool
    requires tolerance { tolerance ≤ TOLERANCE }
    requires ranges { is_in_range witness.now ≡ true }
    ensures { result ≡ is_within (rows_in points.now) tolerance (direction_at witness.now) }
{
    let n = direction(witness.root, witness.at[0], witness.at[1]);
    lies_within(&n, points, tolerance)
}

// Whether a ratio in 2^-30 lies between -1 and 1.
#[inline]
fn is_ratio(ratio: i64) -> bool
    ensures { result ≡ nat_le (unsigned_abs ratio) ONE }
{
    ratio.unsigned_abs() <= ONE
}
