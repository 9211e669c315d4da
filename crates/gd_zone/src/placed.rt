// Boxes of placements.
ghost use Rattle.std.specs.Prelude.{◌≡◌, ◌^◌, ◌≤◌};
ghost use Rattle.gd_quat.specs.Placements.{IsOnGrid, placement_of};
ghost use Rattle.gd_vec.specs.Vector.{IsWithin};
ghost use Rattle.gd_zone.specs.Boxes.{HoldsPlacement, IsPlaced, grid_placed, placed_ends};

use gd_quat::{Assignment, MatrixBox, VecBox, grid_box, matrix, point_box};

/// A box of placements: of their matrices in 2^-30, and of their translations and both offsets in fine units.
#[derive(Clone, Copy, Debug, PartialEq, Eq)]
pub struct Placed {
    pub matrix: MatrixBox,
    pub shift: VecBox,
    pub first: VecBox,
    pub second: VecBox,
}

/// The box that holds a placement of the grid, as narrow as its rounding lets it be.
#[tactic(auto, unfolding(crate::specs::Boxes::grid_placed))]
pub fn placed_at(a: &Assignment) -> Placed
    requires grid { IsOnGrid a.now }
    requires shift { IsWithin (2 ^ 45) a.now.shift }
    requires first { IsWithin (2 ^ 45) a.now.first }
    requires second { IsWithin (2 ^ 45) a.now.second }
    ensures ends { placed_ends result ≡ grid_placed a.now }
    ensures fits { IsPlaced result }
    ensures holds { HoldsPlacement result (placement_of a.now) }
{
    Placed {
        matrix: matrix(&grid_box(a)),
        shift: point_box(&a.shift),
        first: point_box(&a.first),
        second: point_box(&a.second),
    }
}
