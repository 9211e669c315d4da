// The boxes of witnesses of a form about an axis.
ghost use Rattle.std.specs.Prelude.{◌≡◌, ◌≤◌, true, unsigned_abs};
ghost use Rattle.gd_axis.specs.AxisBoxes.{IsFormBox};
ghost use Rattle.gd_axis.specs.AxisTask.{number_of, place_box};
ghost use Rattle.gd_axis.specs.Sizes.{DIRECTION_SIZE};
ghost use Rattle.gd_base.specs.Scales.{ONE};
ghost use Rattle.gd_dir.specs.FormBoxes.{offset_at};
ghost use Rattle.gd_dir.specs.Forms.{coordinates_of, roots_of};
ghost use Rattle.gd_dir.specs.declared.shape.FormShape.TheVariants as form;
ghost use Rattle.gd_grid.specs.Cells.{is_in_range};
ghost use Rattle.gd_vec.specs.Vector.{IsWithin};

use gd_cells::Witness;
use gd_dir::{DirBox, FormShape, direction, leading_axis, offset_at};
use gd_vec::V3;

// The box of a direction and an offset alone.
#[inline]
fn box_alone(lead: u32, n: &V3, offset: &V3) -> DirBox
    ensures { result ≡ record { lead = lead; lo = n.now; hi = n.now; offset_lo = offset.now; offset_hi = offset.now } }
{
    DirBox {
        lead,
        lo: *n,
        hi: *n,
        offset_lo: *offset,
        offset_hi: *offset,
    }
}

// The box of a witness of a circle.
fn circle_place(d: &V3, witness: &Witness) -> DirBox
    ensures { result ≡ place_box form.Circle d.now witness.now }
{
    let lead = leading_axis(d);
    box_alone(lead, d, &offset_at(lead, witness.at[0], witness.at[1]))
}

// The box of a witness of a line or a cylinder.
fn line_place(d: &V3, witness: &Witness) -> DirBox
    requires first_root { 1 ≤ witness.now.root }
    requires last_root { witness.now.root ≤ 3 }
    requires first { unsigned_abs (number_of witness.now 0) ≤ ONE }
    requires second { unsigned_abs (number_of witness.now 1) ≤ ONE }
    ensures { result ≡ place_box form.Line d.now witness.now }
{
    let n = direction(witness.root, witness.at[0], witness.at[1]);
    box_alone(
        witness.root,
        &n,
        &offset_at(witness.root, witness.at[2], witness.at[3]),
    )
}

// The box of a witness in range, by the form.
fn place_of(shape: FormShape, d: &V3, shift: u32, witness: &Witness) -> DirBox
    requires axis { shape ≡ form.Flat → ⊥ }
    requires ranges { is_in_range (roots_of shape) (coordinates_of shape shift) witness.now ≡ true }
    ensures { result ≡ place_box shape d.now witness.now }
{
    match shape {
        FormShape::Flat => circle_place(d, witness),
        FormShape::Line => line_place(d, witness),
        FormShape::Circle => circle_place(d, witness),
        FormShape::Cylinder => line_place(d, witness),
    }
}

/// The box of a witness in range of a form about an axis.
pub fn form_place(shape: FormShape, d: &V3, shift: u32, witness: &Witness) -> DirBox
    requires axis { shape ≡ form.Flat → ⊥ }
    requires shift { shift ≤ 28 }
    requires short { IsWithin DIRECTION_SIZE d.now }
    requires ranges { is_in_range (roots_of shape) (coordinates_of shape shift) witness.now ≡ true }
    ensures ends { result ≡ place_box shape d.now witness.now }
    ensures fits { IsFormBox shape result }
{
    place_of(shape, d, shift, witness)
}
