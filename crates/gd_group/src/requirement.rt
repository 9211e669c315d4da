// A requirement of a frame file.

/// What of a frame a requirement is.
#[derive(Clone, Copy, Debug, PartialEq, Eq)]
pub enum Part {
    /// The frame itself.
    Whole,
    /// The lower segment of a composite position frame.
    Lower,
    /// One section of a circularity frame, by its group number.
    Section(u32),
}

/// A requirement: what of which frame.
#[derive(Clone, Copy, Debug, PartialEq, Eq)]
pub struct Requirement {
    /// The place of the frame in `FrameFile::frames`.
    pub frame: u32,
    pub part: Part,
}
