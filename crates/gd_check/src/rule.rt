// The rules of a right certificate.
ghost use Rattle.std.specs.Prelude.{◌≡◌};
ghost use Rattle.gd_cert.specs.Reading.{fault};
ghost use Rattle.gd_check.specs.Rules.{code_of};

use gd_cert::CertFault;

/// What the lines of a right certificate keep (docs/FORMATS.md, "Certificate").
/// Where the line of a cell breaks two rules, `FinestLevel` is reported before `Open`; where a witness does, `Place`
/// before `Witness`.
#[derive(Clone, Copy, Debug, PartialEq, Eq)]
pub enum Rule {
    /// The evidence refutes its cell.
    Evidence,
    /// The witness holds.
    Witness,
    /// The witness has as many numbers as the task's, and is in range.
    Place,
    /// Each cell has a line.
    NoLine,
    /// Each line has a cell.
    NoCell,
    /// The head is that of the requirement as it is written, where no probe can be decided.
    Head,
    /// There are as many groups as tasks, and as the fourth line states.
    Groups,
    /// A reject leaves no cell undecided. An open group leaves the cells that nothing refutes and whose centres don't
    /// hold, at its level alone, and halves such cells above it; its counts and its reason are those of the verdict for
    /// the budget.
    Open,
    /// No cell of the finest level is halved.
    FinestLevel,
}

impl Rule {
    /// The number that the program prints where the rule is broken. It never changes.
    pub fn code(self) -> u32
        ensures { result ≡ code_of self }
    {
        match self {
            Rule::Evidence => 50,
            Rule::Witness => 51,
            Rule::Place => 52,
            Rule::NoLine => 53,
            Rule::NoCell => 54,
            Rule::Head | Rule::Groups => 55,
            Rule::Open => 56,
            Rule::FinestLevel => 57,
        }
    }

    /// The fault of a line, counted from 1, that breaks the rule.
    pub fn broken_at(self, line: u32) -> CertFault
        ensures { result ≡ fault line (code_of self) }
    {
        CertFault {
            line,
            code: self.code(),
        }
    }
}
