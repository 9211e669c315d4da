// A box of placements as a condition looks through it: in 64 bits, and with all that is added made one.
ghost use Rattle.std.specs.Prelude.{◌≡◌, ◌+◌, ◌^◌, ◌≤◌, ◌*ℤ◌, pos, unsigned_abs};
ghost use Rattle.gd_base.specs.Scales.{FINE};
ghost use Rattle.gd_quat.specs.Boxes.{Fits, VectorFits};
ghost use Rattle.gd_quat.specs.Formulas.{alone, difference, ends, moved_formula, vector_ends};
ghost use Rattle.gd_vec.specs.Vector.{IsWithin};
ghost use Rattle.gd_zone.specs.Boxes.{IsPlaced, placed_ends};
ghost use Rattle.gd_zone.specs.Conditions.{IsSurface};
ghost use Rattle.gd_zone.specs.Shorts.{IsLens, NOWHERE, moves_of, offset_shift, point_of};
ghost use Rattle.gd_zone.specs.Values.{from_point};

use crate::condition::{Condition, Demand, Surface};
use crate::placed::Placed;
use crate::shape::Lens;
use crate::short::{short_matrix, short_vec};
use gd_base::scales;
use gd_interval::{Iv, point, sub};
use gd_quat::{VecBox, moved};
use gd_vec::V3;

/// The lens of a condition. For a spread along a direction nothing is added, since it cancels.
#[inline]
pub fn lens_of(condition: &Condition, placed: &Placed) -> Lens
    requires surface { IsSurface condition.now.surface }
    requires placed { IsPlaced placed.now }
    ensures { IsLens (placed_ends placed.now).matrix (moves_of condition.now.surface condition.now.demand
        (placed_ends placed.now) condition.now.offset) result }
{
    lens_by(placed, &moves(condition, placed))
}

/// The lens that adds `by`.
#[inline]
pub fn lens_by(placed: &Placed, by: &VecBox) -> Lens
    requires placed { IsPlaced placed.now }
    requires by { VectorFits (2 ^ 47) by.now }
    ensures { IsLens (placed_ends placed.now).matrix (vector_ends by.now) result }
{
    Lens {
        matrix: short_matrix(&placed.matrix),
        by: short_vec(by),
    }
}

// What the turned points of a condition are moved by.
#[inline]
fn moves(condition: &Condition, placed: &Placed) -> VecBox
    requires surface { IsSurface condition.now.surface }
    requires placed { IsPlaced placed.now }
    ensures ends { vector_ends result ≡ moves_of condition.now.surface condition.now.demand
        (placed_ends placed.now) condition.now.offset }
    ensures size { VectorFits (2 ^ 47) result }
{
    match (condition.surface, condition.demand) {
        (Surface::Plane { .. }, Demand::Spread { .. }) => nowhere(),
        _ => from_surface(&condition.surface, placed, condition.offset),
    }
}

#[inline]
fn nowhere() -> VecBox
    ensures ends { vector_ends result ≡ NOWHERE }
    ensures size { VectorFits (2 ^ 47) result }
{
    VecBox {
        x: point(0),
        y: point(0),
        z: point(0),
    }
}

/// The translation with an offset, less the point of a surface.
#[inline]
pub fn from_surface(surface: &Surface, placed: &Placed, offset: u32) -> VecBox
    requires surface { IsSurface surface.now }
    requires placed { IsPlaced placed.now }
    ensures ends { vector_ends result ≡ from_point (offset_shift (placed_ends placed.now) offset)
        (point_of surface.now) }
    ensures size { VectorFits (2 ^ 47) result }
{
    let shift = offset_shift(placed, offset);
    match surface {
        Surface::Plane { point, .. } => less(&shift, point),
        Surface::Axis { point, .. } => less(&shift, point),
        Surface::Ball { point } => less(&shift, point),
    }
}

// The translation with the offset of a number.
#[inline]
fn offset_shift(placed: &Placed, offset: u32) -> VecBox
    requires placed { IsPlaced placed.now }
    ensures ends { vector_ends result ≡ offset_shift (placed_ends placed.now) offset }
    ensures size { VectorFits (2 ^ 46) result }
{
    match offset {
        1 => shifted(&placed.shift, &placed.first),
        2 => shifted(&placed.shift, &placed.second),
        _ => placed.shift,
    }
}

// The sum of a translation and an offset.
#[inline]
fn shifted(x: &VecBox, by: &VecBox) -> VecBox
    requires x { VectorFits (2 ^ 45) x.now }
    requires by { VectorFits (2 ^ 45) by.now }
    ensures ends { vector_ends result ≡ moved_formula (vector_ends x.now) (vector_ends by.now) }
    ensures size { VectorFits (2 ^ 46) result }
{
    moved(x, by)
}

// The box less a point in units.
#[inline]
fn less(x: &VecBox, a: &V3) -> VecBox
    requires x { VectorFits (2 ^ 46) x.now }
    requires a { IsWithin (2 ^ 26) a.now }
    ensures ends { vector_ends result ≡ from_point (vector_ends x.now) a.now }
    ensures size { VectorFits (2 ^ 47) result }
{
    VecBox {
        x: less_entry(x.x, a.x),
        y: less_entry(x.y, a.y),
        z: less_entry(x.z, a.z),
    }
}

// An entry less a coordinate in units.
#[inline]
fn less_entry(x: Iv, a: i64) -> Iv
    requires x { Fits (2 ^ 46) x }
    requires a { unsigned_abs a ≤ 2 ^ 26 }
    ensures ends { ends result ≡ difference (ends x) (alone (pos FINE *ℤ a)) }
    ensures size { Fits (2 ^ 47) result }
{
    sub(x, point(fine(a)))
}

// A coordinate in fine units.
#[inline]
fn fine(a: i64) -> i128
    requires { unsigned_abs a ≤ 2 ^ 26 }
    ensures value { result ≡ pos FINE *ℤ a }
    ensures size { unsigned_abs result ≤ 2 ^ 42 }
{
    i128::from(scales::FINE) * i128::from(a)
}
