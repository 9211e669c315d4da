ghost use Rattle.gd_zone.specs.Refutations.{RefutedIsUnmet};
ghost use Rattle.gd_zone.specs.Tests.{TestsAreSound};

/// What the written tests of a condition mean over a box of placements: where it holds, it is met at every placement of
/// the box, and where it is refuted, at none. It does nothing when it runs; a proof cites its clauses.
#[inline(always)]
pub fn tests_are_sound()
    ensures holds { TestsAreSound }
    ensures refuted { RefutedIsUnmet }
{}
