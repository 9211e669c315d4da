// Why bytes are no certificate.
ghost use Rattle.std.specs.Prelude.{◌≡◌};
ghost use Rattle.gd_cert.specs.Reading.{fault};
ghost use Rattle.gd_cert.specs.declared.fault.CertReadFault.TheVariants as read_fault;

use crate::rule::Rule;
use gd_base::Memory;
use std::alloc::{AllocError, AllocFailed};

/// The first wrong line of a certificate, from 1, and what is wrong with it (`docs/FORMATS.md` lists the codes).
#[derive(Clone, Copy, Debug, PartialEq, Eq)]
pub struct CertFault {
    pub line: u32,
    pub code: u32,
}

impl CertFault {
    /// The fault of a file that is longer than 134,217,728 bytes: bytes stand after the end of each certificate that may be
    /// in it. Its place is line 0, since no line is read.
    pub fn too_long() -> CertFault
        ensures { result ≡ fault 0 46 }
    {
        Rule::Behind.fault(0)
    }
}

/// Why a certificate was not read: its first fault, or want of memory.
#[derive(Clone, Copy, Debug, PartialEq, Eq)]
pub enum CertReadFault {
    Cert(CertFault),
    Memory,
}

impl From<Memory> for CertReadFault {
    ghost from_gives = { λ _ e. e ≡ read_fault.Memory };

    fn from(_: Memory) -> Self {
        CertReadFault::Memory
    }
}

impl From<AllocError> for CertReadFault {
    ghost from_gives = { λ _ e. e ≡ read_fault.Memory };

    fn from(_: AllocError) -> Self {
        CertReadFault::Memory
    }
}

impl<T: Drop> From<AllocFailed<T>> for CertReadFault {
    ghost from_gives = { λ _ e. e ≡ read_fault.Memory };

    fn from(_: AllocFailed<T>) -> Self {
        CertReadFault::Memory
    }
}
