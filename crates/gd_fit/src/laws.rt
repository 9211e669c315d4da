ghost use Rattle.gd_fit.specs.Meant.{HeldPlacesFit, NoneFits, NumbersStand, RefutedIsUnmet};

/// What the answers of a group's task mean for placements: a place in range that holds is a placement in range that
/// meets all conditions at once, and where evidence refutes a cell, no placement in it meets the condition that the
/// evidence names. It does nothing when it runs; a proof cites its clauses.
#[inline(always)]
pub fn fits_are_meant()
    ensures held { HeldPlacesFit }
    ensures refuted { RefutedIsUnmet }
    ensures none { NoneFits }
    ensures numbers { NumbersStand }
{}
