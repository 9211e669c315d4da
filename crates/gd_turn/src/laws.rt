ghost use Rattle.gd_turn.specs.Covers.{BoxesNest, CellsMakeGrid, CentresAreInRange, HalvesCover, RootsCover};
ghost use Rattle.gd_turn.specs.Places.{WitnessesArePlacements};

/// What the cells of ranges are: those of a grid, which cover every placement that is in range, whose boxes lie within
/// one another, and whose centres are in range. It does nothing when it runs; a proof cites its clauses.
#[inline(always)]
pub fn placements_cover()
    ensures cells { CellsMakeGrid }
    ensures roots { RootsCover }
    ensures halves { HalvesCover }
    ensures boxes { BoxesNest }
    ensures centres { CentresAreInRange }
    ensures places { WitnessesArePlacements }
{}
