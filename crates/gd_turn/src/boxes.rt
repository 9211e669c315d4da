// The box of a cell of placements.
ghost use Rattle.std.specs.Prelude.{◌≡◌, ◌+◌, ◌*◌, ◌<◌, ◌≤◌, unsigned_abs};
ghost use Rattle.gd_base.specs.Limits.{LARGE_COORDINATE, LARGE_SHIFT, TURN};
ghost use Rattle.gd_cells.specs.Grid.{IsCell};
ghost use Rattle.gd_grid.specs.Cells.{coordinate_at};
ghost use Rattle.gd_quat.specs.Formulas.{ends, rotation_ends, vector_ends};
ghost use Rattle.gd_turn.specs.Boxes.{EnclosesPlacements, IsBoxOf, IsCellBox, ends_in, offset_ends, three_from};
ghost use Rattle.gd_turn.specs.Boxes.{turn_ends_in};
ghost use Rattle.gd_turn.specs.Ranges.{AreRanges, cells_of, coordinates_of, face_of, length_about, ratio, turn_of};

use crate::ranges::{CellBox, Ranges, TurnRange};
use gd_base::scales::FINE;
use gd_cells::Cell;
use gd_grid::{Coordinate, about, coordinate_box};
use gd_interval::{Iv, between};
use gd_quat::{RotationBox, VecBox, leading_at, point_box};
use gd_vec::V3;

/// An offset that the ranges don't have.
const ORIGIN: V3 = V3 { x: 0, y: 0, z: 0 };

/// The placements of a cell, as a box: 1 at the component that leads in the cell's root, the ratios of the three others
/// in ascending order, and the shifts and offsets (docs/FORMATS.md).
pub fn cell_box(r: &Ranges, c: &Cell) -> CellBox
    requires ranges { AreRanges r.now }
    requires cell { IsCell (cells_of r.now) c.now }
    ensures ends { IsBoxOf r.now c.now result }
    ensures fits { IsCellBox result }
    ensures encloses { EnclosesPlacements r.now c.now result }
{
    box_of(r, c)
}

// The box by its ends.
#[inline]
fn box_of(r: &Ranges, c: &Cell) -> CellBox
    requires ranges { AreRanges r.now }
    requires cell { IsCell (cells_of r.now) c.now }
    ensures { IsBoxOf r.now c.now result }
{
    CellBox {
        turn: turn_box(r, c),
        shift: three_from(r, 3, c),
        first: offset_box(r, 1, c),
        second: offset_box(r, 2, c),
    }
}

// The box of the rotations.
#[inline]
fn turn_box(r: &Ranges, c: &Cell) -> RotationBox
    requires ranges { AreRanges r.now }
    requires cell { IsCell (cells_of r.now) c.now }
    ensures { rotation_ends result ≡ turn_ends_in r.now c.now }
{
    let first = interval(r, 0, c);
    let second = interval(r, 1, c);
    let third = interval(r, 2, c);
    leading_at(face_of(r.turn, c.root), first, second, third)
}

// The component that leads in the cells of a root, from 0.
#[inline]
pub fn face_of(turn: TurnRange, root: u32) -> u32
    requires { 1 ≤ root }
    ensures { result ≡ face_of turn root }
{
    match turn {
        TurnRange::All => root - 1,
        TurnRange::Within(_) => 0,
    }
}

// The box of an offset by its number, 1 or 2. One that the ranges don't have is 0.
#[inline]
fn offset_box(r: &Ranges, number: u32, c: &Cell) -> VecBox
    requires ranges { AreRanges r.now }
    requires cell { IsCell (cells_of r.now) c.now }
    requires first { 1 ≤ number }
    requires last { number ≤ 2 }
    ensures { vector_ends result ≡ offset_ends r.now c.now number }
{
    if number <= r.offsets {
        three_from(r, 3 * number + 3, c)
    } else {
        point_box(&ORIGIN)
    }
}

// The boxes of three coordinates.
#[inline]
fn three_from(r: &Ranges, from: u32, c: &Cell) -> VecBox
    requires ranges { AreRanges r.now }
    requires cell { IsCell (cells_of r.now) c.now }
    requires from { from + 3 ≤ 3 * r.now.offsets + 6 }
    ensures { vector_ends result ≡ three_from r.now c.now from }
{
    VecBox {
        x: interval(r, from, c),
        y: interval(r, from + 1, c),
        z: interval(r, from + 2, c),
    }
}

// The box of a coordinate by its number.
#[inline]
fn interval(r: &Ranges, number: u32, c: &Cell) -> Iv
    requires ranges { AreRanges r.now }
    requires cell { IsCell (cells_of r.now) c.now }
    requires number { number < 3 * r.now.offsets + 6 }
    ensures { ends result ≡ ends_in r.now c.now number }
{
    let found = coordinate_box(&coordinate(r, number), number, 3 * r.offsets + 6, c);
    between(i128::from(found.lo), i128::from(found.hi))
}

// A coordinate by its number.
#[inline]
fn coordinate(r: &Ranges, number: u32) -> Coordinate
    requires ranges { AreRanges r.now }
    requires number { number < 3 * r.now.offsets + 6 }
    ensures { result ≡ coordinate_at (coordinates_of r.now) number }
{
    match number {
        0 | 1 | 2 => ratio(r.turn),
        3 => length_about(r.shift, r.centre.x),
        4 => length_about(r.shift, r.centre.y),
        5 => length_about(r.shift, r.centre.z),
        _ => length_about(r.shift, 0),
    }
}

// The range of a ratio.
#[inline]
pub fn ratio(turn: TurnRange) -> Coordinate
    requires { turn_of turn ≤ TURN }
    ensures { result ≡ ratio turn }
{
    about(0, 30 - turn_of(turn))
}

// Ratios lie within 2^-k.
#[inline]
fn turn_of(turn: TurnRange) -> u32
    ensures { result ≡ turn_of turn }
{
    match turn {
        TurnRange::All => 0,
        TurnRange::Within(k) => k,
    }
}

// The range of a shift about an entry of the centre, in units, or of an offset about 0.
#[inline]
pub fn length_about(shift: u32, centre: i64) -> Coordinate
    requires shift { shift ≤ LARGE_SHIFT }
    requires centre { unsigned_abs centre ≤ LARGE_COORDINATE }
    ensures { result ≡ length_about shift centre }
{
    about(centre * FINE, shift + 16)
}
