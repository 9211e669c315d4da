// The boxes of a cell's two ratios, in 2^-30.
ghost use Rattle.std.specs.Prelude.{◌≡◌, ◌≤◌, ◌<◌, ◌+ℤ◌, ◌≤ℤ◌, pos, unsigned_abs};
ghost use Rattle.gd_base.specs.Scales.{ONE};
ghost use Rattle.gd_cells.specs.Grid.{halvings};
ghost use Rattle.gd_dir.specs.Faces.{IsFaceCell, high_end, faces, low_end, middle, width_of};

use gd_base::scales;
use gd_cells::Cell;

/// The width of a ratio's box on a whole face, from -1 to 1.
const FACE_WIDTH: u64 = 1 << 31;

// The ends of a ratio's box.
#[derive(Clone, Copy)]
pub struct RatioBox {
    pub lo: i64,
    pub hi: i64,
}

// How often the steps before a level halved a ratio: the first ratio (0) is halved first.
#[inline]
fn halvings_of(ratio: u32, level: u32) -> u32
    requires ratio { ratio < 2 }
    requires level { level ≤ 60 }
    ensures value { result ≡ halvings faces ratio level }
    ensures few { result ≤ 30 }
{
    (level + 1 - ratio) / 2
}

// How wide the boxes of a ratio are at a level.
#[inline]
fn width(ratio: u32, level: u32) -> u64
    requires ratio { ratio < 2 }
    requires level { level ≤ 60 }
    ensures value { result ≡ width_of ratio level }
{
    FACE_WIDTH >> halvings_of(ratio, level)
}

// The box of a cell's ratio, the first (0) or the second (1).
#[inline]
pub fn ratio_box(ratio: u32, c: &Cell) -> RatioBox
    requires ratio { ratio < 2 }
    requires cell { IsFaceCell c.now }
    ensures lo { result.lo ≡ low_end ratio c.now }
    ensures hi { result.hi ≡ high_end ratio c.now }
    ensures ordered { result.lo ≤ℤ result.hi }
    ensures lo_size { unsigned_abs result.lo ≤ ONE }
    ensures hi_size { unsigned_abs result.hi ≤ ONE }
{
    let width = width(ratio, c.level);
    let lo = (c.index[ratio as usize] * width) as i64 - scales::ONE;
    RatioBox {
        lo,
        hi: lo + width as i64,
    }
}

// The middle of a cell's ratio.
#[inline]
pub fn ratio_middle(ratio: u32, c: &Cell) -> i64
    requires ratio { ratio < 2 }
    requires cell { IsFaceCell c.now }
    ensures value { result ≡ middle ratio c.now }
    ensures size { unsigned_abs result ≤ ONE }
{
    let width = width(ratio, c.level);
    (c.index[ratio as usize] * width + width / 2) as i64 - scales::ONE
}
