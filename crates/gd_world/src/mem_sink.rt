// A sink in memory, whose puts fail where a list says so.
ghost use Rattle.std.specs.Prelude.{◌≡◌, ◌≤◌, ◌++◌, ◌/◌, ◌+◌, ◌∷◌, ℕ, [], true, false, take, length, OnOk, IsErrOf};
ghost use Rattle.gd_world.specs.Memory.{is_due, one_more, PutCause};

use crate::{PutFault, Sink};
use std::alloc::Global;

/// A sink in memory. Puts are numbered from 1, and one whose number stands in `fail` fails. It then
/// appends the first half of its bytes, rounded down.
#[derive(Drop)]
pub struct MemSink {
    /// What was written.
    pub bytes: Vec<u8>,
    /// The numbers of the puts that fail.
    pub fail: Vec<u64>,
    /// How many puts were made. The count stops at 2^64 - 1.
    pub calls: u64,
    /// How many puts failed. The count stops at 2^64 - 1.
    pub faults: u64,
}

impl MemSink {
    /// An empty sink, of which no put fails. It takes no memory.
    pub fn new(alloc: Global) -> MemSink
        ensures bytes { result.bytes.items ≡ [] }
        ensures fail { result.fail.items ≡ [] }
        ensures counts { (result.calls ≡ 0) × (result.faults ≡ 0) }
    {
        MemSink {
            bytes: Vec::new(alloc),
            fail: Vec::new(alloc),
            calls: 0,
            faults: 0,
        }
    }
}

impl Sink for MemSink {
    ghost tells = { true };

    ghost written = { λ s. s.bytes.items };

    ghost faults = { λ s. s.faults };

    ghost calls = { λ s. s.calls };

    fn put(&mut self, _alloc: Global, bytes: &[u8]) -> Result<(), PutFault>
        ensures ok { OnOk result (self.new.bytes.items ≡ self.old.bytes.items ++ bytes.now) }
        ensures prefix { IsErrOf result PutFault.Failed
            → self.new.bytes.items ≡ self.old.bytes.items ++ take (length bytes.now / 2) bytes.now }
        ensures memory { IsErrOf result PutFault.Memory → self.new.bytes.items ≡ self.old.bytes.items }
        ensures cause { PutCause (is_due self.old.fail.items self.old.calls) result }
        ensures sure { self.old.fail.items ≡ [] → ¬ IsErrOf result PutFault.Failed }
        ensures calls { self.new.calls ≤ self.old.calls + 1 }
        ensures counted { self.new.calls ≡ one_more self.old.calls }
        ensures later { self.old.faults ≤ self.new.faults }
        ensures rose { IsErrOf result PutFault.Failed → self.new.faults ≡ one_more self.old.faults }
        ensures steady { ¬ IsErrOf result PutFault.Failed → self.new.faults ≡ self.old.faults }
        ensures fail { self.new.fail ≡ self.old.fail }
    {
        self.calls = self.calls.saturating_add(1);
        let is_due = self.fail.as_slice().contains(&self.calls);
        let taken = if is_due {
            &bytes[..bytes.len() / 2]
        } else {
            bytes
        };
        self.bytes.extend_from_slice(taken)?;
        if is_due {
            self.faults = self.faults.saturating_add(1);
            return Err(PutFault::Failed);
        }
        Ok(())
    }
}
