// Straightness, circularity and cylindricity as a task over the cells of directions and offsets.
ghost use Rattle.std.specs.Prelude.{◌≡◌, ◌<◌, ◌≤◌, ◌%◌, ◌^◌, IfSome, get_or};
ghost use Rattle.gd_axis.specs.Sizes.{DIRECTION_SIZE, POINT_SIZE};
ghost use Rattle.gd_base.specs.Limits.{TOLERANCE};
ghost use Rattle.gd_dir.specs.FormPlaces.{dims_of};
ghost use Rattle.gd_dir.specs.declared.shape.FormShape.TheVariants.{Flat, Line};
ghost use Rattle.gd_axis.specs.AxisTask.{AxisLiesIn, MeetsForm, asked_of, axis_at, axis_questions};
ghost use Rattle.gd_flat.specs.FlatTests.{point_at};
ghost use Rattle.gd_axis.specs.Laws.AxisTask.{axis_laws};
ghost use Rattle.gd_vec.specs.Vector.{IsWithin};

use crate::axis_box::AxisBox;
use crate::forms::{form_evidence_in, form_is_met, is_form_refuted_at};
use crate::judged::Judged;
use crate::places::form_place;
use gd_cells::{Cell, Evidence, Task, Witness, split_cell};
use gd_dir::{
    FormShape, dir_box, form_centre, form_dims, form_finest_level, form_roots, is_form_in_range,
};
use gd_vec::V3;

/// A form about an axis as a task: a line, a circle or a cylinder. `direction` is that of a circle's section. `own` is
/// the form's own point, in units, from which the offsets of axes are taken: for a line the first of its points.
/// Offsets go to 2^`shift` units, and the tolerance is in units. A witness is a root, two ratios in 2^-30 and two
/// offsets in fine units of 2^-16; a circle has two offsets alone.
#[derive(Clone, Copy)]
pub struct AxisTask<'a> {
    pub shape: FormShape,
    pub direction: V3,
    pub own: V3,
    pub shift: u32,
    pub tolerance: u32,
    pub judged: Judged<'a>,
    ghost axis: { shape ≡ Flat → ⊥ },
    ghost tolerable: { tolerance ≤ TOLERANCE },
    ghost short: { IsWithin DIRECTION_SIZE direction },
    ghost own_near: { IsWithin POINT_SIZE own },
    ghost shift_near: { shift ≤ 28 },
    ghost line_shift: { shape ≡ Line → tolerance ≤ 2 ^ shift },
    ghost line_own: { shape ≡ Line → own ≡ point_at judged.points.table.now.rows (get_or judged.numbers.now 0 0) },
}

impl<'a> Task for AxisTask<'a> {
    ghost questions = { λ s. axis_questions (asked_of s.shape s.direction s.own s.shift s.tolerance
        s.judged.points.table.now.rows s.judged.numbers.now) };

    ghost feasible = { λ s a. MeetsForm (asked_of s.shape s.direction s.own s.shift s.tolerance
        s.judged.points.table.now.rows s.judged.numbers.now) a };

    ghost inside = { λ s a c. AxisLiesIn (asked_of s.shape s.direction s.own s.shift s.tolerance
        s.judged.points.table.now.rows s.judged.numbers.now) a c };

    ghost assignment = { λ s w. axis_at (asked_of s.shape s.direction s.own s.shift s.tolerance
        s.judged.points.table.now.rows s.judged.numbers.now) w };

    fn roots(&self) -> u32 {
        form_roots(self.shape)
    }

    fn dims(&self) -> u32 {
        form_dims(self.shape)
    }

    fn numbers(&self) -> u32 {
        form_dims(self.shape)
    }

    fn finest_level(&self) -> u32 {
        form_finest_level(self.shape, self.shift)
    }

    fn points(&self) -> usize {
        self.judged.numbers.len()
    }

    fn split(&self, cell: &Cell) -> (Cell, Cell) {
        split_cell(cell, turn_of(self.shape, cell.level))
    }

    fn refutes(&self, cell: &Cell) -> Option<Evidence> {
        let b = dir_box(self.shape, &self.direction, self.shift, cell);
        let over = AxisBox {
            shape: self.shape,
            b: &b,
            own: self.own,
        };
        form_evidence_in(&over, &self.judged, self.tolerance)
    }

    fn refutes_at(&self, cell: &Cell, evidence: &Evidence) -> bool {
        let b = dir_box(self.shape, &self.direction, self.shift, cell);
        let over = AxisBox {
            shape: self.shape,
            b: &b,
            own: self.own,
        };
        is_form_refuted_at(&over, &self.judged, self.tolerance, evidence)
    }

    fn centre(&self, cell: &Cell) -> Witness {
        form_centre(self.shape, self.shift, cell)
    }

    fn in_range(&self, witness: &Witness) -> bool {
        is_form_in_range(self.shape, self.shift, witness)
    }

    fn holds(&self, witness: &Witness) -> bool {
        let b = form_place(self.shape, &self.direction, self.shift, witness);
        let over = AxisBox {
            shape: self.shape,
            b: &b,
            own: self.own,
        };
        form_is_met(&over, &self.judged, self.tolerance)
    }

    ghost laws = { λ t. axis_laws
        (asked_of t.shape t.direction t.own t.shift t.tolerance t.judged.points.table.now.rows t.judged.numbers.now)
        (record {
          near = t.shift_near;
          line_shift = t.line_shift;
          line_own = t.line_own;
          some = t.judged.named;
          below = t.judged.below;
          few = t.judged.points.few;
        }) };
}

// Which coordinate the step below a level halves.
#[inline]
#[tactic(auto, using(crate::proofs::PlaceFacts::some_dims))]
fn turn_of(shape: FormShape, level: u32) -> usize
    ensures { result ≡ level % dims_of shape }
{
    (level % form_dims(shape)) as usize
}
