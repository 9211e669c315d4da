// What a check answers.

/// Whether a certificate is right, or else its first wrong line, from 1, and what is wrong there (`docs/FORMATS.md`
/// lists the codes).
#[derive(Clone, Copy, Debug, PartialEq, Eq)]
pub enum CheckAnswer {
    Valid,
    Invalid { line: u32, code: u32 },
}
