// The trait of where text goes, and why a put is refused.
ghost use Rattle.std.specs.Prelude.{◌≡◌, ◌+◌, ◌≤◌, ◌++◌, ℕ, List, Bool, true, take, OnOk, IsErrOf};
ghost use Rattle.gd_base.specs.Causes.{Rose};
ghost use Rattle.gd_world.specs.declared.sink.PutFault.TheVariants as put_fault;

use std::alloc::{AllocError, Global};

/// Why a put was not done.
#[derive(Clone, Copy, Debug, PartialEq, Eq)]
pub enum PutFault {
    /// Writing failed, and a prefix of the bytes may have been written. The count of faults has risen.
    Failed,
    /// Memory ran out, and nothing was written.
    Memory,
}

impl From<AllocError> for PutFault {
    ghost from_gives = { λ _ e. e ≡ put_fault.Memory };

    fn from(_: AllocError) -> Self {
        PutFault::Memory
    }
}

/// Where text goes.
pub trait Sink {
    /// Whether it tells what was written. Memory does and the standard output doesn't.
    ghost tells: { Bool };

    /// What was written, where it tells.
    ghost written: { Self → List ℕ };

    /// How often it has failed. The count stops at 2^64 - 1.
    ghost faults: { Self → ℕ };

    /// How many puts were counted. A put counts one at most; memory counts each, and the standard output counts none.
    ghost calls: { Self → ℕ };

    /// Appends these bytes. `Failed` comes for a fault: a prefix of the bytes was then appended. After
    /// `Memory` nothing was.
    fn put(&mut self, alloc: Global, bytes: &[u8]) -> Result<(), PutFault>
        ensures ok { tells ≡ true → OnOk result (written self.new ≡ written self.old ++ bytes.now) }
        ensures prefix { tells ≡ true → IsErrOf result PutFault.Failed
            → (n : ℕ) × (written self.new ≡ written self.old ++ take n bytes.now) }
        ensures memory { IsErrOf result PutFault.Memory → written self.new ≡ written self.old }
        ensures later { faults self.old ≤ faults self.new }
        ensures rose { IsErrOf result PutFault.Failed → Rose (faults self.old) (faults self.new) }
        ensures steady { ¬ IsErrOf result PutFault.Failed → faults self.new ≡ faults self.old }
        ensures calls { calls self.new ≤ calls self.old + 1 };
}
