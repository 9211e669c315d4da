// A shelf in memory of which no call fails.
ghost use Rattle.std.specs.Prelude.{◌≡◌, ◌+◌, ◌≤◌, ◌<◌, ℕ, [], true, false, Some, length, OnOk, OnErr, IsSomeAnd, IsErrOf};
ghost use Rattle.gd_base.specs.Limits.{FILE_BYTES};
ghost use Rattle.gd_world.specs.Shelf.{held_or, Puts, SameFiles};

use crate::entries::{copy_held, first_of, put_first};
use crate::{LoadFault, Shelf, StoreFault};
use gd_base::Name2;
use std::alloc::Global;

/// A shelf in memory on which each name holds something and no call fails. Its count of faults stays
/// 0 and its failed word empty, of kind load.
#[derive(Drop)]
pub struct SureShelf {
    /// Names with what they hold. The first entry of a name counts.
    pub files: Vec<(Name2, Vec<u8>)>,
    /// What a name without an entry holds.
    pub default: Vec<u8>,
}

impl SureShelf {
    /// A shelf of these files. It takes no memory.
    pub fn with(files: Vec<(Name2, Vec<u8>)>, default: Vec<u8>) -> SureShelf
        ensures { result ≡ record { files = files; default = default } }
    {
        SureShelf { files, default }
    }
}

impl Shelf for SureShelf {
    ghost tells = { true };

    ghost holds = { λ s. held_or s.default.items s.files.items };

    ghost faults = { λ s. 0 };

    ghost failed = { λ s. ([], false) };

    ghost calls = { λ s. 0 };

    fn load(&mut self, _alloc: Global, name: &str, into: &mut Vec<u8>) -> Result<(), LoadFault>
        ensures bytes { OnOk result
            (held_or self.old.default.items self.old.files.items name.now ≡ Some into.new.items) }
        ensures short { OnOk result (length into.new.items ≤ FILE_BYTES) }
        ensures long { IsErrOf result LoadFault.TooLong
            → IsSomeAnd (held_or self.old.default.items self.old.files.items name.now)
            (λ bytes. FILE_BYTES < length bytes) }
        ensures sure { ¬ IsErrOf result LoadFault.Failed }
        ensures refused { OnErr result (into.new.items ≡ []) }
        ensures same { self.new ≡ self.old }
    {
        into.clear();
        match first_of(self.files.as_slice(), name.as_bytes()) {
            Some(bytes) => copy_held(bytes.as_slice(), into),
            None => copy_held(self.default.as_slice(), into),
        }
    }

    fn store(&mut self, alloc: Global, name: &str, bytes: &[u8]) -> Result<(), StoreFault>
        ensures ok { OnOk result (Puts (held_or self.old.default.items self.old.files.items)
            (held_or self.new.default.items self.new.files.items) name.now bytes.now) }
        ensures sure { ¬ IsErrOf result StoreFault.Failed }
        ensures memory { OnErr result (self.new.files.items ≡ self.old.files.items) }
        ensures default { self.new.default ≡ self.old.default }
    {
        let owner = Name2::of(alloc, name)?;
        Ok(put_first(&mut self.files, owner, Vec::from_slice(alloc, bytes)?)?)
    }
}
