// The rules of a certificate's lines, and the faults where they are broken.
ghost use Rattle.std.specs.Prelude.{◌≡◌};
ghost use Rattle.gd_cert.specs.Reading.{fault};
ghost use Rattle.gd_cert.specs.Rules.{code_of};
ghost use Rattle.gd_cert.specs.declared.rule.LineFault.TheVariants as line_fault;

use crate::fault::{CertFault, CertReadFault};
use gd_base::Memory;
use std::alloc::{AllocError, AllocFailed};

/// A rule of the certificate (docs/FORMATS.md, "Certificate"). The first line that breaks one is reported.
#[derive(Clone, Copy, Debug, PartialEq, Eq)]
pub(crate) enum Rule {
    /// Line 1 is `gdcert 1`.
    Title,
    /// Lines 2 to 4 are the head, with numbers in range.
    Head,
    /// The line is of the kind that comes next, and a group has the next number.
    Expected,
    /// Numbers are spelled plainly and are small enough.
    Number,
    /// The line of a known kind has its count of words, and a word of a list is one of that list.
    Words,
    /// Each line ends, `end` too.
    Cut,
    /// Nothing follows `end`.
    Behind,
}

/// Why a line was not taken: the rule that it breaks, or want of memory.
#[derive(Clone, Copy, Debug)]
pub(crate) enum LineFault {
    Rule(Rule),
    Memory,
}

impl Rule {
    /// The number that the program prints where the rule is broken. It never changes.
    pub(crate) fn code(self) -> u32
        ensures { result ≡ code_of self }
    {
        match self {
            Rule::Title => 40,
            Rule::Head => 41,
            Rule::Expected => 42,
            Rule::Number => 43,
            Rule::Words => 44,
            Rule::Cut => 45,
            Rule::Behind => 46,
        }
    }

    /// The fault of a line, counted from 1. Line 0 is the whole file.
    pub(crate) fn fault(self, line: u32) -> CertFault
        ensures { result ≡ fault line (code_of self) }
    {
        CertFault {
            line,
            code: self.code(),
        }
    }

    /// That fault as the answer of a reader.
    pub(crate) fn broken_at(self, line: u32) -> CertReadFault
        ensures { result ≡ CertReadFault.Cert (fault line (code_of self)) }
    {
        CertReadFault::Cert(self.fault(line))
    }
}

impl From<Rule> for LineFault {
    ghost from_gives = { λ broken e. e ≡ line_fault.Rule broken };

    fn from(broken: Rule) -> Self {
        LineFault::Rule(broken)
    }
}

impl From<Memory> for LineFault {
    ghost from_gives = { λ _ e. e ≡ line_fault.Memory };

    fn from(_: Memory) -> Self {
        LineFault::Memory
    }
}

impl From<AllocError> for LineFault {
    ghost from_gives = { λ _ e. e ≡ line_fault.Memory };

    fn from(_: AllocError) -> Self {
        LineFault::Memory
    }
}

impl<T: Drop> From<AllocFailed<T>> for LineFault {
    ghost from_gives = { λ _ e. e ≡ line_fault.Memory };

    fn from(_: AllocFailed<T>) -> Self {
        LineFault::Memory
    }
}
