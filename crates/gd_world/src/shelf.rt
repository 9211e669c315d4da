// The trait of what names hold, and why its calls are refused.
ghost use Rattle.std.specs.Prelude.{◌≡◌, ◌+◌, ◌≤◌, ◌<◌, ℕ, [], Bool, true, Some, None, length, OnOk, OnErr, IsSomeAnd};
ghost use Rattle.std.specs.Prelude.{IsErrOf};
ghost use Rattle.gd_base.specs.Limits.{FILE_BYTES};
ghost use Rattle.gd_base.specs.Causes.{Rose};
ghost use Rattle.gd_world.specs.declared.shelf.LoadFault.TheVariants as load_fault;
ghost use Rattle.gd_world.specs.declared.shelf.StoreFault.TheVariants as store_fault;
ghost use Rattle.gd_world.specs.Shelf.{Files, SameFiles, Puts, PutsPrefix, Word, LoadWord, StoreWord};

use gd_base::Memory;
use std::alloc::{AllocError, Global};

/// Why a load gave nothing.
#[derive(Clone, Copy, Debug, PartialEq, Eq)]
pub enum LoadFault {
    /// The name isn't there, or reading it failed. The count of faults has risen.
    Failed,
    /// The file has more than 134,217,728 bytes.
    TooLong,
    /// Memory ran out.
    Memory,
}

impl From<AllocError> for LoadFault {
    ghost from_gives = { λ _ e. e ≡ load_fault.Memory };

    fn from(_: AllocError) -> Self {
        LoadFault::Memory
    }
}

/// Why a store was not done.
#[derive(Clone, Copy, Debug, PartialEq, Eq)]
pub enum StoreFault {
    /// Writing failed, and a prefix of the bytes may stand there. The count of faults has risen.
    Failed,
    /// Memory ran out, and nothing was written.
    Memory,
}

impl From<AllocError> for StoreFault {
    ghost from_gives = { λ _ e. e ≡ store_fault.Memory };

    fn from(_: AllocError) -> Self {
        StoreFault::Memory
    }
}

impl From<Memory> for StoreFault {
    ghost from_gives = { λ _ e. e ≡ store_fault.Memory };

    fn from(_: Memory) -> Self {
        StoreFault::Memory
    }
}

/// Names that hold bytes.
///
/// A shelf keeps a count of its faults and the failed word: the name of the last call that answered
/// `Failed`, empty before the first, and whether that call was a store.
pub trait Shelf {
    /// Whether it tells what its names hold. Memory does and the system's files don't.
    ghost tells: { Bool };

    /// What each name holds, where it tells.
    ghost holds: { Self → Files };

    /// How often it has failed. The count stops at 2^64 - 1.
    ghost faults: { Self → ℕ };

    /// The name of the last call that answered `Failed`, and whether that was a store.
    ghost failed: { Self → Word };

    /// How many calls were counted. A call counts one at most; memory counts each, and the system's files count none.
    ghost calls: { Self → ℕ };

    /// Reads all that a name holds into `into`, in place of what stood there. `Failed` comes for a
    /// name that isn't there and for a fault, `TooLong` for more than 134,217,728 bytes, `Memory` where
    /// there is no room. After each of them `into` is empty.
    fn load(&mut self, alloc: Global, name: &str, into: &mut Vec<u8>) -> Result<(), LoadFault>
        ensures bytes { tells ≡ true → OnOk result (holds self.old name.now ≡ Some into.new.items) }
        ensures short { OnOk result (length into.new.items ≤ FILE_BYTES) }
        ensures long { tells ≡ true → IsErrOf result LoadFault.TooLong
            → IsSomeAnd (holds self.old name.now) (λ bytes. FILE_BYTES < length bytes) }
        ensures missing { tells ≡ true → holds self.old name.now ≡ None → ¬ IsErrOf result LoadFault.Memory
            → IsErrOf result LoadFault.Failed }
        ensures refused { OnErr result (into.new.items ≡ []) }
        ensures same { SameFiles (holds self.old) (holds self.new) }
        ensures later { faults self.old ≤ faults self.new }
        ensures rose { IsErrOf result LoadFault.Failed → Rose (faults self.old) (faults self.new) }
        ensures steady { ¬ IsErrOf result LoadFault.Failed → faults self.new ≡ faults self.old }
        ensures word { LoadWord (failed self.old) (failed self.new) name.now result }
        ensures calls { calls self.new ≤ calls self.old + 1 };

    /// Makes a name hold these bytes, in place of what it held. `Failed` comes for a fault: the name
    /// then holds its old bytes or a prefix of the new ones. After `Memory` each name holds what it held.
    fn store(&mut self, alloc: Global, name: &str, bytes: &[u8]) -> Result<(), StoreFault>
        ensures ok { tells ≡ true → OnOk result (Puts (holds self.old) (holds self.new) name.now bytes.now) }
        ensures prefix { tells ≡ true → IsErrOf result StoreFault.Failed
            → PutsPrefix (holds self.old) (holds self.new) name.now bytes.now }
        ensures memory { IsErrOf result StoreFault.Memory → SameFiles (holds self.old) (holds self.new) }
        ensures later { faults self.old ≤ faults self.new }
        ensures rose { IsErrOf result StoreFault.Failed → Rose (faults self.old) (faults self.new) }
        ensures steady { ¬ IsErrOf result StoreFault.Failed → faults self.new ≡ faults self.old }
        ensures word { StoreWord (failed self.old) (failed self.new) name.now result }
        ensures calls { calls self.new ≤ calls self.old + 1 };
}
