// Coordinates that are halved in turn.
ghost use Rattle.std.specs.Prelude.{◌≡◌, ◌<◌, ◌≤◌, ◌^◌, get_or};
ghost use Rattle.gd_cells.specs.Grid.{MOST_DIMS};
ghost use Rattle.gd_cells.specs.Halves.{half};
ghost use Rattle.gd_grid.specs.Turns.{in_turn, turns};

use gd_cells::{Cell, split_cell};

/// How often the first `level` steps halve a coordinate, by its number from 0, where `dims` coordinates are halved in
/// turn.
/// Each full turn halves it once, and so did the turn that isn't full where it has passed the coordinate.
#[inline]
pub fn halvings_in_turn(dims: u32, number: u32, level: u32) -> u32
    requires number { number < dims }
    requires level { level ≤ 1000 }
    ensures { result ≡ turns dims number level }
{
    let full = level / dims;
    if number < level % dims {
        full + 1
    } else {
        full
    }
}

/// Both halves of a cell where `dims` coordinates are halved in turn, along the coordinate whose turn it is: the lower
/// one first. `gd_cells::proofs::Cells::index_below` shows the last condition for the cells of a grid.
#[inline]
pub fn split_in_turn(dims: u32, c: &Cell) -> (Cell, Cell)
    requires some { 0 < dims }
    requires few { dims ≤ MOST_DIMS }
    requires level { c.now.level < 1000 }
    requires index { get_or c.now.index (in_turn dims c.now.level) 0 < 2 ^ 60 }
    ensures { result ≡ (half (in_turn dims c.now.level) 0 c.now, half (in_turn dims c.now.level) 1 c.now) }
{
    split_cell(c, (c.level % dims) as usize)
}
