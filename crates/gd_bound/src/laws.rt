ghost use Rattle.gd_bound.specs.Laws.{EvidenceRefutes, FirstRefutes, NoneRefutes, RefutedIsEmpty};

/// What refuting evidence means over a box of placements: the condition is refuted by its written test, and no
/// placement of the box meets it; the first evidence refutes, and where there is none, nothing does. It does nothing
/// when it runs; a proof cites its clauses.
#[inline(always)]
pub fn bounds_are_sound()
    ensures evidence { EvidenceRefutes }
    ensures empty { RefutedIsEmpty }
    ensures first { FirstRefutes }
    ensures none { NoneRefutes }
{}
