ghost use Rattle.gd_grid.specs.Laws.{BoxesAreInRange, BoxesInTurn, BoxesNest, CellsHaveBoxes, CentresAreInRange};
ghost use Rattle.gd_grid.specs.Laws.{CoordinatesMakeGrid};
ghost use Rattle.gd_grid.specs.Laws.{HalvesCover, InRangeMeans, OthersStay, RootsCover, TurnsAreHalvings};

/// What the boxes of cells are, for every list of coordinates and every grid that halves them: the roots cover the
/// range,
/// the halves of a cell cover it, their boxes lie in its boxes, and centres are in range. It does nothing when it
/// runs; a
/// proof cites its clauses.
#[inline(always)]
pub fn cells_cover()
    ensures grids { CoordinatesMakeGrid }
    ensures turns { TurnsAreHalvings }
    ensures closed { BoxesInTurn }
    ensures found { CellsHaveBoxes }
    ensures roots { RootsCover }
    ensures halves { HalvesCover }
    ensures others { OthersStay }
    ensures nest { BoxesNest }
    ensures range { BoxesAreInRange }
    ensures centres { CentresAreInRange }
    ensures places { InRangeMeans }
{}
