// The images of a point under the placements of a box.
ghost use Rattle.std.specs.Prelude.{◌≡◌, ℕ};
ghost use Rattle.gd_quat.specs.Boxes.{EnclosesImages, IsNarrow, VECTOR_SIZE};
ghost use Rattle.gd_quat.specs.Formulas.{image_formula, rotation_ends, vector_ends};
ghost use Rattle.gd_turn.specs.Boxes.{ImageWidth, IsCellBox};
ghost use Rattle.gd_vec.specs.Vector.{IsWithin};

use crate::ranges::CellBox;
use gd_quat::{VecBox, matrix, moved, turned};
use gd_vec::V3;

/// The box of the exact images of a point under every placement of a box, in fine units of 2^-16 unit. `v` is the point
/// less the part's first point, in units. Offsets of features are left out.
pub fn cell_image(b: &CellBox, v: &V3) -> VecBox
    requires b { IsCellBox b.now }
    requires v { IsWithin VECTOR_SIZE v.now }
    ensures ends { vector_ends result ≡ image_formula (rotation_ends b.now.turn) (vector_ends b.now.shift) v.now }
    ensures encloses { EnclosesImages b.now.turn b.now.shift v.now result }
    ensures width { (w : ℕ) → IsNarrow w b.now.turn → ImageWidth w v.now b.now.shift result }
{
    let m = matrix(&b.turn);
    moved(&turned(&m, v), &b.shift)
}
