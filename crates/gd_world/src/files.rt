// The files of the system. No clause tells what they hold.
ghost use Rattle.std.specs.Prelude.{◌≡◌, ◌+◌, ◌≤◌, ℕ, [], false, None, length, OnOk};
ghost use Rattle.gd_base.specs.Limits.{FILE_BYTES};
ghost use Rattle.gd_world.specs.Memory.{one_more};

use crate::streams::{read_all, write_all};
use crate::{LoadFault, Shelf, StoreFault};
use std::alloc::Global;
use std::fs;
use std::rt::Files;

/// The files of the system, whose names are paths.
///
/// A store makes the file or cuts it to nothing, and then writes. A directory, a missing file and a
/// name with a zero byte are faults, as is a write that takes nothing of a piece that isn't empty.
#[derive(Drop)]
pub struct FileShelf<'a, R: Files> {
    rt: &'a R,
    faults: u64,
    failed: Vec<u8>,
    storing: bool,
}

impl<'a, R: Files> FileShelf<'a, R> {
    /// The files that the runtime reaches. It takes no memory.
    pub fn new(rt: &'a R, alloc: Global) -> FileShelf<'a, R>
        ensures count { result.faults ≡ 0 }
        ensures word { (result.failed.items ≡ []) × (result.storing ≡ false) }
    {
        FileShelf {
            rt,
            faults: 0,
            failed: Vec::new(alloc),
            storing: false,
        }
    }

    // Counts a fault, and keeps its word.
    fn note(&mut self, word: Vec<u8>, storing: bool)
        ensures later { self.old.faults ≤ self.new.faults }
        ensures count { self.new.faults ≡ one_more self.old.faults }
        ensures word { (self.new.failed ≡ word) × (self.new.storing ≡ storing) }
    {
        self.faults = self.faults.saturating_add(1);
        self.failed = word;
        self.storing = storing;
    }
}

// Reads the file of a name. After an error, what was read so far stands in `into`.
fn read_file<R: Files>(
    rt: &R,
    alloc: Global,
    name: &str,
    into: &mut Vec<u8>,
) -> Result<(), LoadFault>
    requires { into.old.items ≡ [] }
    ensures { OnOk result (length into.new.items ≤ FILE_BYTES) }
{
    match fs::open(rt, name) {
        Ok(mut file) => read_all(alloc, &mut file, into),
        Err(_) => Err(LoadFault::Failed),
    }
}

// Writes the file of a name, and says whether that was done.
fn write_file<R: Files>(rt: &R, name: &str, bytes: &[u8]) -> bool {
    match fs::create(rt, name) {
        Ok(mut file) => write_all(&mut file, bytes),
        Err(_) => false,
    }
}

impl<'a, R: Files> Shelf for FileShelf<'a, R> {
    ghost tells = { false };

    ghost holds = { λ s name. None };

    ghost faults = { λ s. s.faults };

    ghost failed = { λ s. (s.failed.items, s.storing) };

    ghost calls = { λ s. 0 };

    fn load(&mut self, alloc: Global, name: &str, into: &mut Vec<u8>) -> Result<(), LoadFault> {
        into.clear();
        let word = Vec::from_slice(alloc, name.as_bytes())?;
        let done = read_file(self.rt, alloc, name, into);
        if done.is_err() {
            into.clear();
        }
        if let Err(LoadFault::Failed) = done {
            self.note(word, false);
        }
        done
    }

    fn store(&mut self, alloc: Global, name: &str, bytes: &[u8]) -> Result<(), StoreFault> {
        let word = Vec::from_slice(alloc, name.as_bytes())?;
        if !write_file(self.rt, name, bytes) {
            self.note(word, true);
            return Err(StoreFault::Failed);
        }
        Ok(())
    }
}
