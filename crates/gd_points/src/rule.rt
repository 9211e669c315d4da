// The rules of a points file, and the faults where they are broken.
ghost use Rattle.std.specs.Prelude.{◌≡◌};
ghost use Rattle.gd_points.specs.Rules.{code_of, fault};

use gd_base::{InputFault, ReadFault};

/// A rule of the points file (docs/FORMATS.md, "Points file").
/// The first rule that a file breaks is reported, row by row and in a row from left to right.
#[derive(Clone, Copy, Debug, PartialEq, Eq)]
pub enum Rule {
    /// The first record is the header: the fields `feature`, `group`, `x`, `y` and `z`.
    Header,
    /// Each later record, a point, has five fields.
    Fields,
    /// There are at most 200,000 points.
    TooManyPoints,
    /// Field 1 is a name: 1 to 32 ASCII letters, digits, `_` and `-`.
    Name,
    /// Fields 2 to 5 are whole numbers: blanks, a sign or none, digits, blanks.
    Number,
    /// A group is from 0 to 999, and a coordinate from -8,000,000 to 8,000,000 units of 0.1 micrometre.
    Range,
    /// There is a point.
    NoPoints,
    /// The file has at most 134,217,728 bytes. It is broken before a record is read, so its place is row 0, column 0.
    TooLong,
}

impl Rule {
    /// The number that the program prints where the rule is broken. It never changes.
    pub fn code(self) -> u32
        ensures { result ≡ code_of self }
    {
        match self {
            Rule::Header => 10,
            Rule::Fields => 11,
            Rule::Name => 12,
            Rule::Number => 13,
            Rule::Range => 14,
            Rule::TooManyPoints => 15,
            Rule::NoPoints => 16,
            Rule::TooLong => 17,
        }
    }

    /// The fault of a row, counted from 1, and of a column from 1, or 0 for the whole row. Row 0 is the whole file.
    pub fn fault(self, row: u32, column: u32) -> InputFault
        ensures { result ≡ fault self row column }
    {
        InputFault {
            code: self.code(),
            row,
            column,
        }
    }

    /// That fault as the answer of a reader.
    pub(crate) fn broken_at(self, row: u32, column: u32) -> ReadFault
        ensures { result ≡ ReadFault.Input (fault self row column) }
    {
        ReadFault::Input(self.fault(row, column))
    }
}
