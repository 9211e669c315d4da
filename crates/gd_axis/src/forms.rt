// The forms about an axis by their shapes.
ghost use Rattle.std.specs.Prelude.{◌≡◌, ◌≤◌};
ghost use Rattle.gd_base.specs.Limits.{TOLERANCE};
ghost use Rattle.gd_axis.specs.AxisTask.{form_evidence, form_holds, form_refuted};

use crate::axis_box::AxisBox;
use crate::judged::Judged;
use crate::line::{is_line, is_line_refuted_at, line_evidence_in};
use crate::ring::{is_ring, is_ring_refuted_at, ring_evidence_in};
use gd_cells::Evidence;
use gd_dir::FormShape;

// The first evidence that refutes a box.
pub fn form_evidence_in(over: &AxisBox<'_>, judged: &Judged<'_>, tolerance: u32) -> Option<Evidence>
    requires tolerance { tolerance ≤ TOLERANCE }
    ensures { result ≡ form_evidence over.now.shape judged.now.points.table.now.rows judged.now.numbers.now
        tolerance over.now.b.now over.now.own }
{
    match over.shape {
        FormShape::Flat => None,
        FormShape::Line => line_evidence_in(over, judged, tolerance),
        FormShape::Circle => ring_evidence_in(over, judged, tolerance),
        FormShape::Cylinder => ring_evidence_in(over, judged, tolerance),
    }
}

// Whether this evidence refutes a box.
pub fn is_form_refuted_at(
    over: &AxisBox<'_>,
    judged: &Judged<'_>,
    tolerance: u32,
    evidence: &Evidence,
) -> bool
    requires tolerance { tolerance ≤ TOLERANCE }
    ensures { result ≡ form_refuted over.now.shape judged.now.points.table.now.rows judged.now.numbers.now
        tolerance over.now.b.now over.now.own evidence.now }
{
    match over.shape {
        FormShape::Flat => false,
        FormShape::Line => is_line_refuted_at(over, judged, tolerance, evidence),
        FormShape::Circle => is_ring_refuted_at(over, judged, tolerance, evidence),
        FormShape::Cylinder => is_ring_refuted_at(over, judged, tolerance, evidence),
    }
}

// Whether a form is met at each axis of a box, by its written test.
pub fn form_is_met(over: &AxisBox<'_>, judged: &Judged<'_>, tolerance: u32) -> bool
    requires tolerance { tolerance ≤ TOLERANCE }
    ensures { result ≡ form_holds over.now.shape judged.now.points.table.now.rows judged.now.numbers.now
        tolerance over.now.b.now over.now.own }
{
    match over.shape {
        FormShape::Flat => false,
        FormShape::Line => is_line(over, judged, tolerance),
        FormShape::Circle => is_ring(over, judged, tolerance),
        FormShape::Cylinder => is_ring(over, judged, tolerance),
    }
}
