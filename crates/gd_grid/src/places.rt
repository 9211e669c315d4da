// Places of a grid: which are in range, and how fine the grid is.
ghost use Rattle.std.specs.Prelude.{ℕ, ◌≡◌, ◌≤◌, ◌-◌, ◌*◌, ◌&&◌, ◌++◌, int_le, length, pos, replicate};
ghost use Rattle.gd_cells.specs.Witnesses.{witness_of};
ghost use Rattle.gd_grid.specs.Cells.{are_in_range, centre_of, is_in_range, middles_in};
ghost use Rattle.gd_grid.specs.Coordinates.{IsCoordinate, high};
ghost use Rattle.gd_grid.specs.Laws.{AreCoordinates, HaveBoxes};
ghost use Rattle.gd_grid.specs.Turns.{full_turns, grid_of};

use crate::boxes::coordinate_middle;
use crate::coordinate::{Coordinate, reach};
use gd_cells::{Cell, MOST_DIMS, Witness, zeros_behind};

/// Each coordinate may be halved so often at most: more than any grid needs, and few enough for 64 bits.
const MOST_HALVINGS: u32 = 60;

/// Whether a witness names one of `roots` roots, its numbers lie in the ranges of their coordinates, both ends
/// included,
/// and 0 stands after them.
pub fn is_in_range(roots: u32, ks: &[Coordinate], w: &Witness) -> bool
    requires coordinates { AreCoordinates ks.now }
    ensures { result ≡ is_in_range roots ks.now w.now }
{
    1 <= w.root && w.root <= roots && are_in_range(ks, &w.at) && zeros_behind(w, ks.len())
}

/// The finest level of the grid of some coordinates that are halved in turn: there the narrowest is 2 wide, and each
/// was
/// halved as often.
pub fn finest_level(ks: &[Coordinate]) -> u32
    requires coordinates { AreCoordinates ks.now }
    ensures { result ≡ length ks.now * full_turns ks.now }
{
    ks.len() as u32 * full_turns(ks)
}

/// The centre of a cell: the middles of its boxes, which are whole numbers, under the cell's root.
pub fn centre_of(ks: &[Coordinate], c: &Cell) -> Witness
    requires coordinates { AreCoordinates ks.now }
    requires boxes { HaveBoxes ks.now c.now }
    ensures { (roots : ℕ) → result ≡ centre_of (grid_of roots ks.now) ks.now c.now }
{
    middles_under(ks, c)
}

// The middles of a cell's boxes under its root.
#[inline]
fn middles_under(ks: &[Coordinate], c: &Cell) -> Witness
    requires coordinates { AreCoordinates ks.now }
    requires boxes { HaveBoxes ks.now c.now }
    ensures { result ≡ witness_of c.now.root (middles_in (length ks.now) c.now 0 ks.now) }
{
    Witness {
        root: c.root,
        at: middles(ks, c),
    }
}

// The middles of a cell's boxes, and 0 after them.
fn middles(ks: &[Coordinate], c: &Cell) -> [i64; MOST_DIMS]
    requires coordinates { AreCoordinates ks.now }
    requires boxes { HaveBoxes ks.now c.now }
    ensures { result ≡ middles_in (length ks.now) c.now 0 ks.now ++ replicate (MOST_DIMS - length ks.now) (pos 0) }
{
    let dims = ks.len() as u32;
    let mut at = [0; MOST_DIMS];
    for n in 0..ks.len() {
        at[n] = coordinate_middle(&ks[n], n as u32, dims, c);
    }
    at
}

// Whether each number lies in the range of its coordinate.
fn are_in_range(ks: &[Coordinate], numbers: &[i64]) -> bool
    requires coordinates { AreCoordinates ks.now }
    requires numbers { length ks.now ≤ length numbers.now }
    ensures { result ≡ are_in_range ks.now numbers.now }
{
    for n in 0..ks.len() {
        if !is_between(&ks[n], numbers[n]) {
            return false;
        }
    }
    true
}

// Whether a number lies in the range of a coordinate.
#[inline]
fn is_between(k: &Coordinate, x: i64) -> bool
    requires { IsCoordinate k.now }
    ensures { result ≡ (int_le k.now.low x && int_le x (high k.now)) }
{
    k.low <= x && x <= high(k)
}

// Where the range of a coordinate ends.
#[inline]
fn high(k: &Coordinate) -> i64
    requires { IsCoordinate k.now }
    ensures { result ≡ high k.now }
{
    k.low + reach(k.bits) as i64
}

// How many full turns leave each coordinate at least 2 wide.
fn full_turns(ks: &[Coordinate]) -> u32
    ensures value { result ≡ full_turns ks.now }
    ensures few { result ≤ 60 }
{
    let mut turns = MOST_HALVINGS;
    for k in ks {
        turns = turns.min(k.bits.saturating_sub(1));
    }
    turns
}
