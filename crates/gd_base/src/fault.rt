// Why an input was refused.
ghost use Rattle.std.specs.Prelude.{◌≡◌};
ghost use Rattle.gd_base.specs.declared.fault.ReadFault.TheVariants as read_fault;

use std::alloc::{AllocError, AllocFailed};

/// Memory ran out. It is the one answer that any call which takes memory may give at any time.
#[derive(Clone, Copy, Debug, PartialEq, Eq)]
pub struct Memory;

impl From<AllocError> for Memory {
    fn from(_: AllocError) -> Self {
        Memory
    }
}

impl<T: Drop> From<AllocFailed<T>> for Memory {
    fn from(_: AllocFailed<T>) -> Self {
        Memory
    }
}

/// The first fault of an input file, and its place. `docs/FORMATS.md` lists the codes.
///
/// `row` counts the records from 1, `column` the fields of a record from 1. Both are 0 where a fault has no such place.
#[derive(Clone, Copy, Debug, PartialEq, Eq)]
pub struct InputFault {
    pub code: u32,
    pub row: u32,
    pub column: u32,
}

/// Why an input file was not read: its first fault, or want of memory.
#[derive(Clone, Copy, Debug, PartialEq, Eq)]
pub enum ReadFault {
    Input(InputFault),
    Memory,
}

impl From<Memory> for ReadFault {
    ghost from_gives = { λ _ e. e ≡ read_fault.Memory };

    fn from(_: Memory) -> Self {
        ReadFault::Memory
    }
}

impl From<AllocError> for ReadFault {
    ghost from_gives = { λ _ e. e ≡ read_fault.Memory };

    fn from(_: AllocError) -> Self {
        ReadFault::Memory
    }
}

impl<T: Drop> From<AllocFailed<T>> for ReadFault {
    ghost from_gives = { λ _ e. e ≡ read_fault.Memory };

    fn from(_: AllocFailed<T>) -> Self {
        ReadFault::Memory
    }
}
