// The ranges of numbers, by the version of the file.
ghost use Rattle.std.specs.Prelude.{◌≡◌};
ghost use Rattle.gd_tables.specs.Ranges.{ranges_of};

use gd_base::limits;

/// The ranges of a version's numbers; lengths are in units of 0.1 micrometre. Each goes from 0, or to both sides.
#[derive(Clone, Copy, Debug, PartialEq, Eq)]
pub struct Ranges {
    /// Entries of `centre` and of `point`, to both sides.
    pub place: u32,
    /// `shift`, and its default.
    pub shift: u32,
    pub radius: u32,
    /// `mmc`, `lmc` and `boundary`.
    pub diameter: u32,
}

const VERSION_1: Ranges = Ranges {
    place: limits::COORDINATE as u32,
    shift: limits::SHIFT,
    radius: limits::RADIUS,
    diameter: limits::DIAMETER,
};

/// The ranges of a version that is known.
pub fn ranges_of(version: i64) -> Option<Ranges>
    ensures { result ≡ ranges_of version }
{
    if version == 1 { Some(VERSION_1) } else { None }
}
