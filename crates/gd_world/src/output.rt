// The standard output. No clause tells what it receives.
ghost use Rattle.std.specs.Prelude.{◌≡◌, ◌+◌, [], false};

use crate::streams::write_all;
use crate::{PutFault, Sink};
use std::alloc::Global;
use std::io;

/// The standard output. A put that can't write all its bytes is a fault.
#[derive(Drop)]
pub struct StdSink<'a, R: Print> {
    rt: &'a R,
    faults: u64,
}

impl<'a, R: Print> StdSink<'a, R> {
    /// The output that the runtime reaches. It takes no memory.
    pub fn new(rt: &'a R) -> StdSink<'a, R>
        ensures { result.faults ≡ 0 }
    {
        StdSink { rt, faults: 0 }
    }
}

impl<'a, R: Print> Sink for StdSink<'a, R> {
    ghost tells = { false };

    ghost written = { λ s. [] };

    ghost faults = { λ s. s.faults };

    ghost calls = { λ s. 0 };

    fn put(&mut self, _alloc: Global, bytes: &[u8]) -> Result<(), PutFault> {
        if !write_all(&mut io::writer(self.rt), bytes) {
            self.faults = self.faults.saturating_add(1);
            return Err(PutFault::Failed);
        }
        Ok(())
    }
}
