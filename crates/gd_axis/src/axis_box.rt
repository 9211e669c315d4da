// A box of axes.
ghost use Rattle.std.specs.Prelude.{◌^◌};
ghost use Rattle.gd_axis.specs.AxisBoxes.{IsFormBox};
ghost use Rattle.gd_axis.specs.Sizes.{POINT_SIZE};
ghost use Rattle.gd_vec.specs.Vector.{IsWithin};

use gd_dir::{DirBox, FormShape};
use gd_vec::V3;

/// The axes over which a form is judged: a box of directions and offsets, and the form's own point, in units, from
/// which the offsets are taken.
#[derive(Clone, Copy)]
pub struct AxisBox<'a> {
    pub shape: FormShape,
    pub b: &'a DirBox,
    pub own: V3,
    ghost fits: { IsFormBox shape b.now },
    ghost near: { IsWithin POINT_SIZE own },
}
