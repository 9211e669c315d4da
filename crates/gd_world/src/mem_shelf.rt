// A shelf in memory, whose calls fail where a list says so.
ghost use Rattle.std.specs.Prelude.{◌≡◌, ◌⊎◌, ◌≤◌, ◌<◌, ◌+◌, ◌∷◌, ℕ, [], true, false, Some, None, take, length, OnOk, OnErr};
ghost use Rattle.std.specs.Prelude.{IsSomeAnd, IsErrOf};
ghost use Rattle.gd_base.specs.Limits.{FILE_BYTES};
ghost use Rattle.gd_world.specs.Memory.{is_due, one_more, LoadCause, StoreCause};
ghost use Rattle.gd_world.specs.Shelf.{held, Puts, LoadWord, StoreWord};

use crate::entries::{copy_held, first_of, put_first};
use crate::{LoadFault, Shelf, StoreFault};
use gd_base::{Memory, Name2};
use std::alloc::Global;

/// A shelf in memory. Loads and stores are calls, numbered from 1 in one row, and a call whose number
/// stands in `fail` fails. A store that fails leaves the first `prefix` bytes of the new ones, or all
/// where there are fewer.
#[derive(Drop)]
pub struct MemShelf {
    /// Names with what they hold. The first entry of a name counts.
    pub files: Vec<(Name2, Vec<u8>)>,
    /// The numbers of the calls that fail.
    pub fail: Vec<u64>,
    /// How many bytes a store that fails leaves.
    pub prefix: u64,
    /// How many calls were made. The count stops at 2^64 - 1.
    pub calls: u64,
    /// How many calls failed. The count stops at 2^64 - 1.
    pub faults: u64,
    /// The name of the last call that failed, empty before the first.
    pub failed: Vec<u8>,
    /// Whether that call was a store.
    pub storing: bool,
}

impl MemShelf {
    /// A shelf with no names, of which no call fails. It takes no memory.
    pub fn new(alloc: Global) -> MemShelf
        ensures files { result.files.items ≡ [] }
        ensures fail { result.fail.items ≡ [] }
        ensures counts { (result.calls ≡ 0) × (result.faults ≡ 0) × (result.prefix ≡ 0) }
        ensures word { (result.failed.items ≡ []) × (result.storing ≡ false) }
    {
        MemShelf {
            files: Vec::new(alloc),
            fail: Vec::new(alloc),
            prefix: 0,
            calls: 0,
            faults: 0,
            failed: Vec::new(alloc),
            storing: false,
        }
    }

    /// Makes a name hold these bytes, in place of what it held. That is no call: it isn't counted and
    /// doesn't fail. After `Memory` each name holds what it held.
    pub fn add(&mut self, name: Name2, bytes: Vec<u8>) -> Result<(), Memory>
        ensures ok { OnOk result (Puts (held self.old.files.items) (held self.new.files.items) name bytes.items) }
        ensures err { OnErr result (self.new.files.items ≡ self.old.files.items) }
        ensures others { self.new ≡ record self.old { files = self.new.files } }
    {
        put_first(&mut self.files, name, bytes)
    }

    // Counts a call, and says whether it fails.
    fn is_next_due(&mut self) -> bool
        ensures counted { self.new ≡ record self.old { calls = one_more self.old.calls } }
        ensures due { result ≡ is_due self.old.fail.items self.old.calls }
    {
        self.calls = self.calls.saturating_add(1);
        self.fail.as_slice().contains(&self.calls)
    }

    // Counts a fault, and keeps its word.
    fn note(&mut self, word: Vec<u8>, storing: bool)
        ensures later { self.old.faults ≤ self.new.faults }
        ensures noted { self.new
            ≡ record self.old { faults = one_more self.old.faults; failed = word; storing = storing } }
    {
        self.faults = self.faults.saturating_add(1);
        self.failed = word;
        self.storing = storing;
    }
}

// The first `count` bytes, or all where there are fewer.
fn prefix_of(bytes: &[u8], count: u64) -> &[u8]
    ensures { result.now ≡ take count bytes.now }
{
    if count < bytes.len() as u64 {
        &bytes[..count as usize]
    } else {
        bytes
    }
}

impl Shelf for MemShelf {
    ghost tells = { true };

    ghost holds = { λ s. held s.files.items };

    ghost faults = { λ s. s.faults };

    ghost failed = { λ s. (s.failed.items, s.storing) };

    ghost calls = { λ s. s.calls };

    fn load(&mut self, alloc: Global, name: &str, into: &mut Vec<u8>) -> Result<(), LoadFault>
        ensures bytes { OnOk result (held self.old.files.items name.now ≡ Some into.new.items) }
        ensures short { OnOk result (length into.new.items ≤ FILE_BYTES) }
        ensures long { IsErrOf result LoadFault.TooLong
            → IsSomeAnd (held self.old.files.items name.now) (λ bytes. FILE_BYTES < length bytes) }
        ensures cause { LoadCause (is_due self.old.fail.items self.old.calls)
            (held self.old.files.items name.now) result }
        ensures refused { OnErr result (into.new.items ≡ []) }
        ensures same { self.new ≡ record self.old {
          calls = self.new.calls;
          faults = self.new.faults;
          failed = self.new.failed;
          storing = self.new.storing;
        } }
        ensures calls { self.new.calls ≤ self.old.calls + 1 }
        ensures counted { ¬ IsErrOf result LoadFault.Memory → self.new.calls ≡ one_more self.old.calls }
        ensures uncounted { IsErrOf result LoadFault.Memory
            → (self.new.calls ≡ self.old.calls) ⊎ (self.new.calls ≡ one_more self.old.calls) }
        ensures later { self.old.faults ≤ self.new.faults }
        ensures rose { IsErrOf result LoadFault.Failed → self.new.faults ≡ one_more self.old.faults }
        ensures steady { ¬ IsErrOf result LoadFault.Failed → self.new.faults ≡ self.old.faults }
        ensures word { LoadWord (self.old.failed.items, self.old.storing)
            (self.new.failed.items, self.new.storing) name.now result }
    {
        into.clear();
        let word = Vec::from_slice(alloc, name.as_bytes())?;
        if self.is_next_due() {
            self.note(word, false);
            return Err(LoadFault::Failed);
        }
        match first_of(self.files.as_slice(), name.as_bytes()) {
            None => {
                self.note(word, false);
                Err(LoadFault::Failed)
            }
            Some(bytes) => copy_held(bytes.as_slice(), into),
        }
    }

    fn store(&mut self, alloc: Global, name: &str, bytes: &[u8]) -> Result<(), StoreFault>
        ensures ok { OnOk result (Puts (held self.old.files.items) (held self.new.files.items) name.now bytes.now) }
        ensures prefix { IsErrOf result StoreFault.Failed → Puts (held self.old.files.items)
            (held self.new.files.items) name.now (take self.old.prefix bytes.now) }
        ensures memory { IsErrOf result StoreFault.Memory → self.new.files.items ≡ self.old.files.items }
        ensures cause { StoreCause (is_due self.old.fail.items self.old.calls) result }
        ensures same { self.new ≡ record self.old {
          files = self.new.files;
          calls = self.new.calls;
          faults = self.new.faults;
          failed = self.new.failed;
          storing = self.new.storing;
        } }
        ensures calls { self.new.calls ≤ self.old.calls + 1 }
        ensures counted { ¬ IsErrOf result StoreFault.Memory → self.new.calls ≡ one_more self.old.calls }
        ensures uncounted { IsErrOf result StoreFault.Memory
            → (self.new.calls ≡ self.old.calls) ⊎ (self.new.calls ≡ one_more self.old.calls) }
        ensures later { self.old.faults ≤ self.new.faults }
        ensures rose { IsErrOf result StoreFault.Failed → self.new.faults ≡ one_more self.old.faults }
        ensures steady { ¬ IsErrOf result StoreFault.Failed → self.new.faults ≡ self.old.faults }
        ensures word { StoreWord (self.old.failed.items, self.old.storing)
            (self.new.failed.items, self.new.storing) name.now result }
    {
        let word = Vec::from_slice(alloc, name.as_bytes())?;
        let owner = Name2::of(alloc, name)?;
        let is_due = self.is_next_due();
        let taken = if is_due {
            prefix_of(bytes, self.prefix)
        } else {
            bytes
        };
        put_first(&mut self.files, owner, Vec::from_slice(alloc, taken)?)?;
        if is_due {
            self.note(word, true);
            return Err(StoreFault::Failed);
        }
        Ok(())
    }
}
