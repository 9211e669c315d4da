// The inputs of a command, and what is read of them.
ghost use Rattle.std.specs.Prelude.{◌≡◌, true, Some, is_some};

use gd_cert::Cert;
use gd_frames::FrameFile;
use gd_points::PointTable;

/// What a file is read as.
#[derive(Clone, Copy, Debug, PartialEq, Eq)]
pub enum InputKind {
    /// A points file.
    Points,
    /// A frame file, beside the points that were read before it.
    Frames,
    /// A certificate.
    Certificate,
}

/// A file that a command reads: what it is read as, and its word.
#[derive(Clone, Copy)]
pub struct Input<'a> {
    pub kind: InputKind,
    pub word: &'a str,
}

/// What was read of the inputs so far.
#[derive(Drop)]
pub struct Inputs {
    pub table: Option<PointTable>,
    pub frames: Option<FrameFile>,
    pub certificate: Option<Cert>,
}

impl Inputs {
    /// The table of the points file.
    pub fn table(&self) -> &PointTable
        requires { is_some self.now.table ≡ true }
        ensures { self.now.table ≡ Some result.now }
    {
        self.table.as_ref().unwrap()
    }

    /// The frame file.
    pub fn frames(&self) -> &FrameFile
        requires { is_some self.now.frames ≡ true }
        ensures { self.now.frames ≡ Some result.now }
    {
        self.frames.as_ref().unwrap()
    }

    /// The certificate.
    pub fn certificate(&self) -> &Cert
        requires { is_some self.now.certificate ≡ true }
        ensures { self.now.certificate ≡ Some result.now }
    {
        self.certificate.as_ref().unwrap()
    }
}
