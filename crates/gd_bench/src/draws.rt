ghost use Rattle.std.specs.Prelude.{◌≤◌, ◌^◌, pos, ◌≤ℤ◌, ◌<ℤ◌, unsigned_abs};

use gd_interval::{Iv, between};
use std::alloc::{AllocError, Global};

/// Numbers that depend on the seed alone, and look as if they were drawn by chance.
#[derive(Drop)]
pub struct Draws {
    state: u64,
}

impl Draws {
    /// The numbers of the seed.
    pub fn seeded() -> Draws {
        Draws { state: 7 }
    }

    /// The next number: 0 or more, and below 2^31.
    pub fn small(&mut self) -> i64
        ensures sign { pos 0 ≤ℤ result }
        ensures size { result <ℤ pos (2 ^ 31) }
    {
        self.state = self
            .state
            .wrapping_mul(6_364_136_223_846_793_005)
            .wrapping_add(1_442_695_040_888_963_407);
        (self.state >> 33) as i64
    }

    /// A number from two draws: 0 or more, and below 2^62.
    pub fn wide(&mut self) -> i128
        ensures sign { pos 0 ≤ℤ result }
        ensures size { result <ℤ pos (2 ^ 62) }
    {
        let high = self.small();
        let low = self.small();
        i128::from(high) * 2_147_483_648 + i128::from(low)
    }

    /// An interval on any side of 0 whose ends are at most 2^62 in size.
    pub fn interval(&mut self) -> Iv
        ensures lo { unsigned_abs result.lo ≤ 2 ^ 62 }
        ensures hi { unsigned_abs result.hi ≤ 2 ^ 62 }
    {
        let lo = self.wide() - 2_305_843_009_213_693_952;
        let width = self.wide() / 2;
        between(lo, lo + width)
    }
}

/// What is made from drawn numbers.
pub trait Drawn {
    fn draw(draws: &mut Draws) -> Self;
}

/// A list that depends on its count alone.
pub fn draw_all<T: Drawn + Drop>(alloc: Global, count: u32) -> Result<Vec<T>, AllocError> {
    let mut draws = Draws::seeded();
    let mut all = Vec::new(alloc);
    for _ in 0..count {
        all.push(T::draw(&mut draws))?;
    }
    Ok(all)
}
