ghost use Rattle.gd_quat.specs.Laws.{ImagesAreHeld, KeepsHand, KeepsProducts, KeepsRows, MatricesNest, MovedNest};
ghost use Rattle.gd_quat.specs.Laws.{TurnedNest};

/// What a rotation's matrix of numerators keeps, where N is the sum of the four squares: the products of vectors times
/// N^2, so lengths and right angles, and the hand. It does nothing when it runs; a proof cites its clauses.
#[inline(always)]
pub fn rotations_keep_shape()
    ensures products { KeepsProducts }
    ensures rows { KeepsRows }
    ensures hand { KeepsHand }
{}

/// The boxes of a matrix, of a vector that it turns, and of its sum with a translation hold the image under every
/// placement of the boxes that they were made of; and smaller boxes give a box inside. It does nothing when it runs; a
/// proof cites its clauses.
#[inline(always)]
pub fn boxes_hold_and_nest()
    ensures images { ImagesAreHeld }
    ensures matrices { MatricesNest }
    ensures turned { TurnedNest }
    ensures moved { MovedNest }
{}
