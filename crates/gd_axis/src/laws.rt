ghost use Rattle.gd_axis.specs.AxisLaws.{LineEvidenceRefutes, LineHoldsIsSound, LineNoneRefutes, LineRefutedIsEmpty};
ghost use Rattle.gd_axis.specs.AxisLaws.{RingEvidenceRefutes, RingHoldsIsSound, RingNoneRefutes, RingRefutedIsEmpty};
ghost use Rattle.gd_axis.specs.Zones.{CylinderIsNear, RingHasRadius};

/// What the inequalities of a form about an axis mean: a cylinder holds a point exactly where a point of the axis is
/// near it, and a radius exists exactly where the distances differ by at most the tolerance. It does nothing when it
/// runs; a proof cites its clauses.
#[inline(always)]
pub fn zones_are_meant()
    ensures cylinder { CylinderIsNear }
    ensures radius { RingHasRadius }
{}

/// What the written tests of a form about an axis mean, for all axes that a box holds. It does nothing when it runs; a
/// proof cites its clauses.
#[inline(always)]
pub fn axis_tests_are_sound()
    ensures line_holds { LineHoldsIsSound }
    ensures line_refuted { LineRefutedIsEmpty }
    ensures line_first { LineEvidenceRefutes }
    ensures line_none { LineNoneRefutes }
    ensures ring_holds { RingHoldsIsSound }
    ensures ring_refuted { RingRefutedIsEmpty }
    ensures ring_first { RingEvidenceRefutes }
    ensures ring_none { RingNoneRefutes }
{}
