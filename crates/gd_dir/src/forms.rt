// The boxes of the cells of each form.
ghost use Rattle.std.specs.Prelude.{◌≡◌, ◌≤◌, unsigned_abs};
ghost use Rattle.gd_base.specs.Limits.{LARGE_SHIFT};
ghost use Rattle.gd_base.specs.Scales.{ONE};
ghost use Rattle.gd_cells.specs.Grid.{IsCell};
ghost use Rattle.gd_dir.specs.Boxes.{IsBox};
ghost use Rattle.gd_dir.specs.FormBoxes.{EnclosesForm, circle_box, form_box, high_ratio, line_box, low_ratio};
ghost use Rattle.gd_dir.specs.FormBoxes.{offset_at, ratios_box};
ghost use Rattle.gd_dir.specs.Forms.{cells_of, leading_axis, ratio};
ghost use Rattle.gd_dir.specs.declared.shape.FormShape.TheVariants as form;
ghost use Rattle.gd_grid.specs.Turns.{HasBox};
ghost use Rattle.gd_vec.specs.Vector.{IsWithin};

use crate::boxes::{ORIGIN, direction, face_box};
use crate::shape::{DirBox, FormShape};
use gd_cells::Cell;
use gd_grid::{Ends, about, coordinate_box};
use gd_vec::V3;

/// The directions, in 2^-30, and the offsets, in fine units of 2^-16, of a cell of a form (docs/FORMATS.md). Offsets go
/// from -2^shift to 2^shift units and stand at the two axes other than the leading one, in ascending order. `d` is the
/// direction of a circle's section, and only a circle reads it.
pub fn dir_box(shape: FormShape, d: &V3, shift: u32, c: &Cell) -> DirBox
    requires d { IsWithin ONE d.now }
    requires shift { shift ≤ LARGE_SHIFT }
    requires cell { IsCell (cells_of shape shift) c.now }
    ensures ends { result ≡ form_box shape d.now shift c.now }
    ensures fits { IsBox result }
    ensures encloses { EnclosesForm shape d.now shift result c.now }
{
    box_of(shape, d, shift, c)
}

// The box by the form.
fn box_of(shape: FormShape, d: &V3, shift: u32, c: &Cell) -> DirBox
    requires d { IsWithin ONE d.now }
    requires shift { shift ≤ LARGE_SHIFT }
    requires cell { IsCell (cells_of shape shift) c.now }
    ensures { result ≡ form_box shape d.now shift c.now }
{
    match shape {
        FormShape::Flat => face_box(c),
        FormShape::Line | FormShape::Cylinder => line_box(shift, c),
        FormShape::Circle => circle_box(d, shift, c),
    }
}

// The box of a line or a cylinder: two ratios and two offsets.
fn line_box(shift: u32, c: &Cell) -> DirBox
    requires shift { shift ≤ LARGE_SHIFT }
    requires cell { IsCell (cells_of form.Line shift) c.now }
    ensures { result ≡ line_box form.Line shift c.now }
{
    let offset = about(0, shift + 16);
    let third = coordinate_box(&offset, 2, 4, c);
    let fourth = coordinate_box(&offset, 3, 4, c);
    DirBox {
        offset_lo: offset_at(c.root, third.lo, fourth.lo),
        offset_hi: offset_at(c.root, third.hi, fourth.hi),
        ..ratios_box(c)
    }
}

// The box of its two ratios, without offsets.
fn ratios_box(c: &Cell) -> DirBox
    requires first_root { 1 ≤ c.now.root }
    requires last_root { c.now.root ≤ 3 }
    requires first { HasBox ratio 0 4 c.now }
    requires second { HasBox ratio 1 4 c.now }
    ensures { result ≡ ratios_box c.now }
{
    let first = ratio_box(0, c);
    let second = ratio_box(1, c);
    DirBox {
        lead: c.root,
        lo: direction(c.root, first.lo, second.lo),
        hi: direction(c.root, first.hi, second.hi),
        offset_lo: ORIGIN,
        offset_hi: ORIGIN,
    }
}

// The box of a ratio of a line or a cylinder, by its number.
#[inline]
fn ratio_box(number: u32, c: &Cell) -> Ends
    requires { HasBox ratio number 4 c.now }
    ensures lo { result.lo ≡ low_ratio number c.now }
    ensures hi { result.hi ≡ high_ratio number c.now }
    ensures lo_size { unsigned_abs result.lo ≤ ONE }
    ensures hi_size { unsigned_abs result.hi ≤ ONE }
{
    coordinate_box(&about(0, 30), number, 4, c)
}

// The box of a circle: its direction, and two offsets.
fn circle_box(d: &V3, shift: u32, c: &Cell) -> DirBox
    requires shift { shift ≤ LARGE_SHIFT }
    requires cell { IsCell (cells_of form.Circle shift) c.now }
    ensures { result ≡ circle_box d.now shift c.now }
{
    let lead = leading_axis(d);
    let offset = about(0, shift + 16);
    let first = coordinate_box(&offset, 0, 2, c);
    let second = coordinate_box(&offset, 1, 2, c);
    DirBox {
        lead,
        lo: *d,
        hi: *d,
        offset_lo: offset_at(lead, first.lo, second.lo),
        offset_hi: offset_at(lead, first.hi, second.hi),
    }
}

/// The offset of two entries, in fine units, at the axes other than a leading one, in ascending order: it is 0 along
/// that.
#[inline]
pub fn offset_at(axis: u32, first: i64, second: i64) -> V3
    ensures value { result ≡ offset_at axis first second }
{
    match axis {
        1 => V3 {
            x: 0,
            y: first,
            z: second,
        },
        2 => V3 {
            x: first,
            y: 0,
            z: second,
        },
        _ => V3 {
            x: first,
            y: second,
            z: 0,
        },
    }
}

/// The first axis, 1 to 3, along which a direction has its greatest entry in size.
pub fn leading_axis(d: &V3) -> u32
    ensures value { result ≡ leading_axis d.now }
{
    let (x, y, z) = (d.x.unsigned_abs(), d.y.unsigned_abs(), d.z.unsigned_abs());
    if y <= x && z <= x {
        1
    } else if z <= y {
        2
    } else {
        3
    }
}
