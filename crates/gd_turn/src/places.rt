// The placements that witnesses stand for.
ghost use Rattle.std.specs.Prelude.{◌≡◌, ◌≤◌, ◌+◌, true};
ghost use Rattle.gd_grid.specs.Cells.{is_in_range};
ghost use Rattle.gd_turn.specs.Places.{IsAssignmentIn, assignment_at, vector_at};
ghost use Rattle.gd_turn.specs.Ranges.{AreRanges, coordinates_of, roots_of};

use crate::boxes::face_of;
use crate::ranges::Ranges;
use gd_cells::Witness;
use gd_quat::{Assignment, Ratios};
use gd_vec::V3;

/// The placement of the grid that a witness in range stands for: its root names the component that leads, and then come
/// three ratios, in 2^-30, the translation and both offsets, in fine units of 2^-16 unit.
pub fn placement_at(r: &Ranges, w: &Witness) -> Assignment
    requires ranges { AreRanges r.now }
    requires range { is_in_range (roots_of r.now.turn) (coordinates_of r.now) w.now ≡ true }
    ensures value { result ≡ assignment_at r.now w.now }
    ensures fits { IsAssignmentIn r.now result }
{
    assignment_at(r, w)
}

// The assignment by the witness's numbers.
#[inline]
fn assignment_at(r: &Ranges, w: &Witness) -> Assignment
    requires { 1 ≤ w.now.root }
    ensures { result ≡ assignment_at r.now w.now }
{
    Assignment {
        face: face_of(r.turn, w.root),
        ratios: Ratios {
            first: w.at[0],
            second: w.at[1],
            third: w.at[2],
        },
        shift: vector_at(3, w),
        first: vector_at(6, w),
        second: vector_at(9, w),
    }
}

// Three numbers of a witness.
#[inline]
fn vector_at(from: usize, w: &Witness) -> V3
    requires { from ≤ 9 }
    ensures { result ≡ vector_at from w.now }
{
    V3 {
        x: w.at[from],
        y: w.at[from + 1],
        z: w.at[from + 2],
    }
}
