ghost use Rattle.gd_dir.specs.Covers.{BoxesNest, FacesCover, GridHasFaceCells, HalvesCover};
ghost use Rattle.gd_dir.specs.FormBoxes.{FormBoxesNest, FormHalvesCover, FormRootsCover, NoLineIsLost};
ghost use Rattle.gd_dir.specs.FormPlaces.{WitnessesAreCandidates};

/// What the cells of three faces are: the cells of the grid, which cover every direction, and whose boxes lie within
/// one another.
/// It does nothing when it runs; a proof cites its clauses.
#[inline(always)]
pub fn faces_cover()
    ensures cells { GridHasFaceCells }
    ensures roots { FacesCover }
    ensures halves { HalvesCover }
    ensures boxes { BoxesNest }
{}

/// What the cells of each form are: they cover every candidate of the form whose offset is in range, their boxes lie
/// within one another, and the range of a line's offsets loses no line. It does nothing when it runs; a proof cites its
/// clauses.
#[inline(always)]
pub fn forms_cover()
    ensures roots { FormRootsCover }
    ensures halves { FormHalvesCover }
    ensures boxes { FormBoxesNest }
    ensures lines { NoLineIsLost }
    ensures places { WitnessesAreCandidates }
{}
