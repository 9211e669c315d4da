// The box of a cell's placements, with their matrices.
ghost use Rattle.std.specs.Prelude.{◌≡◌};
ghost use Rattle.gd_cells.specs.Grid.{IsCell};
ghost use Rattle.gd_fit.specs.Tests.{cell_ends};
ghost use Rattle.gd_turn.specs.Ranges.{AreRanges, cells_of};
ghost use Rattle.gd_zone.specs.Boxes.{IsPlaced, placed_ends};

use gd_cells::Cell;
use gd_quat::matrix;
use gd_turn::{Ranges, cell_box};
use gd_zone::Placed;

/// The placements of a cell as a box: their matrices in 2^-30, which are computed once a cell, and their translations
/// and offsets in fine units of 2^-16 unit.
pub fn placed_in(ranges: &Ranges, cell: &Cell) -> Placed
    requires ranges { AreRanges ranges.now }
    requires cell { IsCell (cells_of ranges.now) cell.now }
    ensures ends { placed_ends result ≡ cell_ends ranges.now cell.now }
    ensures fits { IsPlaced result }
{
    let b = cell_box(ranges, cell);
    Placed {
        matrix: matrix(&b.turn),
        shift: b.shift,
        first: b.first,
        second: b.second,
    }
}
