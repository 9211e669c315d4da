// The grid of ranges: its sizes, and its places.
ghost use Rattle.std.specs.Prelude.{◌≡◌, ◌<◌, ◌≤◌, ◌*◌, ◌+◌};
ghost use Rattle.gd_cells.specs.Grid.{IsCell};
ghost use Rattle.gd_cells.specs.Halves.{halves};
ghost use Rattle.gd_grid.specs.Cells.{centre_of, is_in_range};
ghost use Rattle.gd_turn.specs.Ranges.{AreRanges, all_coordinates, cells_of, coordinates_of, roots_of};

use crate::boxes::{length_about, ratio};
use crate::ranges::{Ranges, TurnRange};
use gd_cells::{Cell, MOST_DIMS, Witness};
use gd_grid::{Coordinate, split_in_turn};

/// How many roots the grid has.
pub fn roots(r: &Ranges) -> u32
    ensures { result ≡ roots_of r.now.turn }
{
    match r.turn {
        TurnRange::All => 4,
        TurnRange::Within(_) => 1,
    }
}

/// How many coordinates the grid has, 6 to 12.
pub fn dims(r: &Ranges) -> u32
    requires { AreRanges r.now }
    ensures value { result ≡ (cells_of r.now).dims }
    ensures few { result ≤ 12 }
{
    count(r)
}

// Three ratios, three shifts, and three numbers of each offset.
#[inline]
fn count(r: &Ranges) -> u32
    requires { AreRanges r.now }
    ensures { result ≡ 3 * r.now.offsets + 6 }
{
    3 * r.offsets + 6
}

/// The finest level of the grid, at most 540: its cells aren't halved.
pub fn finest_level(r: &Ranges) -> u32
    requires { AreRanges r.now }
    ensures { result ≡ (cells_of r.now).finest }
{
    let all = all_coordinates(r);
    gd_grid::finest_level(&all[..dims(r) as usize])
}

/// Whether a witness names a root and its numbers are in range: three ratios, in 2^-30, then three shifts and three
/// numbers of each offset, in fine units of 2^-16 unit.
pub fn is_in_range(r: &Ranges, w: &Witness) -> bool
    requires { AreRanges r.now }
    ensures { result ≡ is_in_range (roots_of r.now.turn) (coordinates_of r.now) w.now }
{
    let all = all_coordinates(r);
    gd_grid::is_in_range(roots(r), &all[..dims(r) as usize], w)
}

/// The centre of a cell: the middles of its boxes under its root.
pub fn centre_of(r: &Ranges, c: &Cell) -> Witness
    requires ranges { AreRanges r.now }
    requires cell { IsCell (cells_of r.now) c.now }
    ensures { result ≡ centre_of (cells_of r.now) (coordinates_of r.now) c.now }
{
    let all = all_coordinates(r);
    gd_grid::centre_of(&all[..dims(r) as usize], c)
}

/// Both halves of a cell above the finest level, along the coordinate of its level's step: the lower one first.
pub fn split(r: &Ranges, c: &Cell) -> (Cell, Cell)
    requires ranges { AreRanges r.now }
    requires cell { IsCell (cells_of r.now) c.now }
    requires above { c.now.level < (cells_of r.now).finest }
    ensures { result ≡ halves (cells_of r.now) c.now }
{
    split_in_turn(dims(r), c)
}

// The coordinates, as if there were two offsets.
fn all_coordinates(r: &Ranges) -> [Coordinate; MOST_DIMS]
    requires { AreRanges r.now }
    ensures { result ≡ all_coordinates r.now }
{
    let ratio = ratio(r.turn);
    let x = length_about(r.shift, r.centre.x);
    let y = length_about(r.shift, r.centre.y);
    let z = length_about(r.shift, r.centre.z);
    let offset = length_about(r.shift, 0);
    [
        ratio, ratio, ratio, x, y, z, offset, offset, offset, offset, offset, offset,
    ]
}
