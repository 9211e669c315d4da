//! The limits of input and certificates. Lengths are in units of 0.1 micrometre. Clauses cite `specs/Limits.antt`, which
//! has the same numbers.

/// The greatest size of a coordinate, in units: 0.8 metre to each side.
pub const COORDINATE: i64 = 8_000_000;

/// The most points of a file.
pub const POINTS: usize = 200_000;

/// The greatest group number of a point.
pub const GROUP: u32 = 999;

/// The greatest tolerance, in units.
pub const TOLERANCE: u32 = 16_000_000;

/// The greatest budget: how many cells one search may split.
pub const BUDGET: u32 = 1_000_000;

/// The most bytes of a file that is loaded, 2^27.
pub const FILE_BYTES: usize = 134_217_728;

/// The most bytes of a name.
pub const NAME_BYTES: usize = 32;

/// The greatest size of an entry of a nominal direction.
pub const ENTRY: u32 = 1_000;

/// The greatest exponent of a range of angles: ratios lie within 2^-20 then.
pub const TURN: u32 = 20;

/// The greatest exponent of a range of shifts, in units.
pub const SHIFT: u32 = 25;

/// The greatest nominal radius, in units.
pub const RADIUS: u32 = 8_000_000;

/// The greatest nominal diameter, of a feature or of a boundary, in units.
pub const DIAMETER: u32 = 16_000_000;

/// The greatest slack of a contact, and the slack of a datum that states none, in units.
pub const SLACK: u32 = 10_000;

pub const USUAL_SLACK: u32 = 10;

/// The most tables of features, of datums and of frames in a frame file.
pub const FEATURES: usize = 1_024;

pub const DATUMS: usize = 64;

pub const FRAMES: usize = 256;

/// The most features of one frame.
pub const FRAME_FEATURES: usize = 64;

/// The most datum words of one frame.
pub const WORDS: usize = 3;

/// The most local offsets of a group.
pub const OFFSETS: u32 = 2;

/// The most conditions of a group.
pub const CONDITIONS: u32 = 4_096;

/// The most groups that a certificate states.
pub const GROUPS: u32 = 300_000;

/// The most bytes of the name of a requirement in a certificate.
pub const REQUIREMENT_BYTES: usize = 48;
