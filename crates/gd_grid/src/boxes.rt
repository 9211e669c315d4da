// The boxes of a cell.
ghost use Rattle.std.specs.Prelude.{◌≡◌, ◌≤◌, ◌+◌, ◌*◌, ◌/◌, ◌^◌, ◌+ℤ◌, ◌≤ℤ◌, get_or, pos, unsigned_abs};
ghost use Rattle.gd_grid.specs.Coordinates.{high_after, low_after, middle_after, width_after};
ghost use Rattle.gd_grid.specs.Coordinates.{COORDINATE_SIZE, END_SIZE};
ghost use Rattle.gd_grid.specs.Turns.{HasBox, turns};

use crate::coordinate::{Coordinate, Ends, power};
use crate::turns::halvings_in_turn;
use gd_cells::Cell;

/// The box of a coordinate in a cell, where `dims` coordinates are halved in turn. `number` is the coordinate's, from
/// 0.
#[inline]
pub fn coordinate_box(k: &Coordinate, number: u32, dims: u32, c: &Cell) -> Ends
    requires { HasBox k.now number dims c.now }
    ensures lo { result.lo ≡ low_after k.now (turns dims number c.now.level) (get_or c.now.index number 0) }
    ensures hi { result.hi ≡ high_after k.now (turns dims number c.now.level) (get_or c.now.index number 0) }
    ensures ordered { result.lo ≤ℤ result.hi }
    ensures above { k.now.low ≤ℤ result.lo }
    ensures below { result.hi ≤ℤ (k.now.low +ℤ pos (2 ^ k.now.bits)) }
    ensures lo_size { unsigned_abs result.lo ≤ END_SIZE }
    ensures hi_size { unsigned_abs result.hi ≤ END_SIZE }
{
    box_at(
        k.low,
        c.index[number as usize],
        width_of(k, number, dims, c),
    )
}

/// The middle of a coordinate's box in a cell: a whole number of its scale.
#[inline]
pub fn coordinate_middle(k: &Coordinate, number: u32, dims: u32, c: &Cell) -> i64
    requires { HasBox k.now number dims c.now }
    ensures value { result ≡ middle_after k.now (turns dims number c.now.level) (get_or c.now.index number 0) }
    ensures above { k.now.low ≤ℤ result }
    ensures below { result ≤ℤ (k.now.low +ℤ pos (2 ^ k.now.bits)) }
    ensures size { unsigned_abs result ≤ END_SIZE }
{
    middle_at(
        k.low,
        c.index[number as usize],
        width_of(k, number, dims, c),
    )
}

// How wide the coordinate's boxes are at the cell's level.
#[inline]
fn width_of(k: &Coordinate, number: u32, dims: u32, c: &Cell) -> u64
    requires { HasBox k.now number dims c.now }
    ensures value { result ≡ width_after k.now (turns dims number c.now.level) }
    ensures room { get_or c.now.index number 0 * result + result ≤ 2 ^ k.now.bits }
    ensures size { 2 ^ k.now.bits ≤ COORDINATE_SIZE }
{
    power(k.bits - halvings_in_turn(dims, number, c.level))
}

// The box with a number, counted from 0, of boxes of a width.
#[inline]
fn box_at(low: i64, index: u64, width: u64) -> Ends
    requires low { unsigned_abs low ≤ COORDINATE_SIZE }
    requires room { index * width + width ≤ COORDINATE_SIZE }
    ensures lo { result.lo ≡ low +ℤ pos (index * width) }
    ensures hi { result.hi ≡ low +ℤ pos (index * width) +ℤ pos width }
{
    let lo = low + (index * width) as i64;
    Ends {
        lo,
        hi: lo + width as i64,
    }
}

// Its middle.
#[inline]
fn middle_at(low: i64, index: u64, width: u64) -> i64
    requires low { unsigned_abs low ≤ COORDINATE_SIZE }
    requires room { index * width + width ≤ COORDINATE_SIZE }
    ensures { result ≡ low +ℤ pos (index * width) +ℤ pos (width / 2) }
{
    low + (index * width) as i64 + (width / 2) as i64
}
