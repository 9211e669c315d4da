// Whether a form about an axis is refuted over drawn boxes of axes, for the points of `conditions`.
ghost use Rattle.std.specs.Prelude.{◌≤◌};
ghost use Rattle.gd_axis.specs.AxisBoxes.{IsFormBox};
ghost use Rattle.gd_base.specs.Limits.{TOLERANCE};
ghost use Rattle.gd_dir.specs.Boxes.{IsBox};

use crate::conditions::{DIRECTION, FIRST};
use crate::directions::draw_ratio;
use crate::draws::Draws;
use gd_axis::{AxisBox, Judged, line_evidence_in, ring_evidence_in};
use gd_base::scales;
use gd_cells::Evidence;
use gd_dir::{DirBox, FormShape};
use gd_vec::V3;
use std::alloc::{AllocError, Global};

/// A box of axes of a form.
#[derive(Clone, Copy)]
pub struct Axes {
    shape: FormShape,
    b: DirBox,
    ghost fits: { IsFormBox shape b },
}

/// A form and its tolerance in units.
#[derive(Clone, Copy)]
pub struct Form {
    pub shape: FormShape,
    pub tolerance: u32,
    ghost tolerable: { tolerance ≤ TOLERANCE },
}

/// The form of a name, or `None` where none has it.
pub fn form_named(name: &str) -> Option<Form> {
    Some(match name {
        "line" => Form {
            shape: FormShape::Line,
            tolerance: 124_000,
        },
        "circle" => Form {
            shape: FormShape::Circle,
            tolerance: 28_000,
        },
        "cylinder" => Form {
            shape: FormShape::Cylinder,
            tolerance: 70_000,
        },
        _ => return None,
    })
}

/// Some boxes of a form, which depend on their count alone.
pub fn draw_axes(alloc: Global, shape: FormShape, count: u32) -> Result<Vec<Axes>, AllocError> {
    let mut draws = Draws::seeded();
    let mut all = Vec::new(alloc);
    for _ in 0..count {
        all.push(drawn(&mut draws, shape))?;
    }
    Ok(all)
}

fn drawn(draws: &mut Draws, shape: FormShape) -> Axes {
    match shape {
        FormShape::Circle => Axes {
            shape: FormShape::Circle,
            b: section_box(draws),
        },
        FormShape::Cylinder => Axes {
            shape: FormShape::Cylinder,
            b: free_box(draws),
        },
        _ => Axes {
            shape: FormShape::Line,
            b: free_box(draws),
        },
    }
}

// Directions that lead along z, with offsets of at most 16,384 units.
fn free_box(draws: &mut Draws) -> DirBox
    ensures { IsBox result }
{
    let (x, y) = (draw_ratio(draws), draw_ratio(draws));
    let (u, v) = (draw_ratio(draws), draw_ratio(draws));
    DirBox {
        lead: 3,
        lo: V3 {
            x: x.lo,
            y: y.lo,
            z: scales::ONE,
        },
        hi: V3 {
            x: x.hi,
            y: y.hi,
            z: scales::ONE,
        },
        offset_lo: V3 {
            x: u.lo,
            y: v.lo,
            z: 0,
        },
        offset_hi: V3 {
            x: u.hi,
            y: v.hi,
            z: 0,
        },
    }
}

// The direction of a section, with such offsets. It leads along y.
fn section_box(draws: &mut Draws) -> DirBox
    ensures { IsFormBox FormShape.Circle result }
{
    let (u, v) = (draw_ratio(draws), draw_ratio(draws));
    DirBox {
        lead: 2,
        lo: DIRECTION,
        hi: DIRECTION,
        offset_lo: V3 {
            x: u.lo,
            y: 0,
            z: v.lo,
        },
        offset_hi: V3 {
            x: u.hi,
            y: 0,
            z: v.hi,
        },
    }
}

#[inline(always)]
fn evidence_in(over: &AxisBox<'_>, judged: &Judged<'_>, tolerance: u32) -> Option<Evidence>
    requires { tolerance ≤ TOLERANCE }
{
    match over.shape {
        FormShape::Line => line_evidence_in(over, judged, tolerance),
        _ => ring_evidence_in(over, judged, tolerance),
    }
}

/// One turn, from a checksum to the next: the first evidence against each box.
#[inline(never)]
pub fn judge_axes(judged: &Judged<'_>, all: &[Axes], tolerance: u32, start: i128) -> i128
    requires { tolerance ≤ TOLERANCE }
{
    let mut sum = start;
    for axes in all {
        let over = AxisBox {
            shape: axes.shape,
            b: &axes.b,
            own: FIRST,
        };
        sum = match evidence_in(&over, judged, tolerance) {
            None => sum.wrapping_add(1),
            Some(e) => (sum ^ i128::from(e.a)).wrapping_add(i128::from(e.b)),
        };
    }
    sum
}
