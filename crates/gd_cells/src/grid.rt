// Cells by their own numbers: the whole roots, and the two halves of a cell.
ghost use Rattle.std.specs.Prelude.{◌≡◌, ◌<◌, ◌^◌, get_or};
ghost use Rattle.gd_cells.specs.Halves.{half, whole_root};

use crate::cell::{Cell, MOST_DIMS};

/// A whole root, by its number from 1.
pub fn root_cell(root: u32) -> Cell
    ensures { result ≡ whole_root root }
{
    Cell {
        root,
        level: 0,
        index: [0; MOST_DIMS],
    }
}

/// The half of a cell on one side of a coordinate, numbered from 0: the lower side is 0, the upper side is 1.
#[tactic(auto, unfolding(crate::specs::Halves::half))]
fn half_cell(cell: &Cell, coordinate: usize, side: u64) -> Cell
    requires coordinate { coordinate < MOST_DIMS }
    requires side { side < 2 }
    requires level { cell.now.level < 1000 }
    requires index { get_or cell.now.index coordinate 0 < 2 ^ 60 }
    ensures { result ≡ half coordinate side cell.now }
{
    let mut index = cell.index;
    index[coordinate] = 2 * index[coordinate] + side;
    Cell {
        root: cell.root,
        level: cell.level + 1,
        index,
    }
}

/// Both halves of a cell along a coordinate, numbered from 0: the lower one first.
/// `gd_cells::proofs::Cells::index_below` shows the last condition for the cells of a grid.
pub fn split_cell(cell: &Cell, coordinate: usize) -> (Cell, Cell)
    requires coordinate { coordinate < MOST_DIMS }
    requires level { cell.now.level < 1000 }
    requires index { get_or cell.now.index coordinate 0 < 2 ^ 60 }
    ensures { result ≡ (half coordinate 0 cell.now, half coordinate 1 cell.now) }
{
    (
        half_cell(cell, coordinate, 0),
        half_cell(cell, coordinate, 1),
    )
}

#[cfg(test)]
mod tests {
    use super::*;

    #[test]
    fn halves(rt: HostRuntime) {
        let mut cell = root_cell(3);
        // coordinate, whether the upper half is taken, and the indexes of the first two coordinates then
        let steps = [
            (0, true, (1, 0)),
            (1, false, (1, 0)),
            (0, false, (2, 0)),
            (1, true, (2, 1)),
            (0, true, (5, 1)),
        ];
        for (coordinate, is_upper, want) in steps {
            assert!(rt; cell.level < 1000 && cell.index[coordinate] < 1000);
            let (lower, upper) = split_cell(&cell, coordinate);
            cell = if is_upper { upper } else { lower };
            assert_eq!(rt; (cell.index[0], cell.index[1]), want);
        }
        assert_eq!(rt; (cell.root, cell.level), (3, 5));
    }
}
