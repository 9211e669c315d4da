// The rules of a frame file, and the faults where they are broken.
ghost use Rattle.std.specs.Prelude.{◌≡◌};
ghost use Rattle.gd_keys.specs.Rules.{code_of, fault};
ghost use Rattle.gd_keys.specs.declared.rule.KeyFault.TheVariants as key_fault;

use gd_base::{InputFault, Memory, ReadFault};
use std::alloc::{AllocError, AllocFailed};

/// A rule of the frame file (docs/FORMATS.md, "The frame file"). The first rule that a file breaks is reported.
#[derive(Clone, Copy, Debug, PartialEq, Eq)]
pub enum Rule {
    /// The bytes are a TOML document in UTF-8.
    Document,
    /// The version is one that is known.
    Version,
    /// Each key is one of those of its table.
    Listed,
    /// A key that is needed stands there, and so does a number that a frame needs of a feature or a datum.
    Needed,
    /// A value, and each element of a list, is of the kind of its key: a whole number, a text, a truth value or a table.
    Kind,
    /// A number, a text, a length or a count is in its range.
    Range,
    /// A feature's name is that of a feature.
    Feature,
    /// A datum's name is that of a datum.
    Datum,
    /// A name stands once: in its list of tables, or in one list of names.
    Once,
    /// A datum's feature has contact groups enough for its place.
    Contacts,
    /// A direction isn't all zero.
    Direction,
    /// What a frame states may be stated together.
    Combination,
    /// A group of conditions has at most two local offsets.
    Offsets,
    /// A group has at most 4,096 conditions.
    Conditions,
}

/// Why a value was not read: the rule that it breaks, or want of memory.
#[derive(Clone, Copy, Debug, PartialEq, Eq)]
pub enum KeyFault {
    Rule(Rule),
    Memory,
}

impl Rule {
    /// The number that the program prints where the rule is broken. It never changes.
    pub fn code(self) -> u32
        ensures { result ≡ code_of self }
    {
        match self {
            Rule::Document => 20,
            Rule::Version => 21,
            Rule::Listed => 22,
            Rule::Needed => 23,
            Rule::Kind => 24,
            Rule::Range => 25,
            Rule::Feature => 26,
            Rule::Datum => 27,
            Rule::Once => 28,
            Rule::Contacts => 29,
            Rule::Direction => 30,
            Rule::Combination => 31,
            Rule::Offsets => 32,
            Rule::Conditions => 34,
        }
    }

    /// The fault of a table: `row` counts the tables of its list from 1, and `column` is 1 for features, 2 for datums
    /// and 3 for frames. Both are 0 for the top level.
    pub fn broken_at(self, row: u32, column: u32) -> ReadFault
        ensures { result ≡ ReadFault.Input (fault self row column) }
    {
        ReadFault::Input(InputFault {
            code: self.code(),
            row,
            column,
        })
    }
}

impl From<Rule> for KeyFault {
    ghost from_gives = { λ broken e. e ≡ key_fault.Rule broken };

    fn from(broken: Rule) -> Self {
        KeyFault::Rule(broken)
    }
}

impl From<Memory> for KeyFault {
    ghost from_gives = { λ _ e. e ≡ key_fault.Memory };

    fn from(_: Memory) -> Self {
        KeyFault::Memory
    }
}

impl From<AllocError> for KeyFault {
    ghost from_gives = { λ _ e. e ≡ key_fault.Memory };

    fn from(_: AllocError) -> Self {
        KeyFault::Memory
    }
}

impl<T: Drop> From<AllocFailed<T>> for KeyFault {
    ghost from_gives = { λ _ e. e ≡ key_fault.Memory };

    fn from(_: AllocFailed<T>) -> Self {
        KeyFault::Memory
    }
}
