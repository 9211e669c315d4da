// The reader of a certificate.
ghost use Rattle.std.specs.Prelude.{◌≡◌, ◌≤◌, IfOk, Ok, length};
ghost use Rattle.gd_base.specs.Causes.{Gives};
ghost use Rattle.gd_base.specs.Limits.{FILE_BYTES};
ghost use Rattle.gd_cert.specs.Bounds.{IsInBounds};
ghost use Rattle.gd_cert.specs.Certificates.{Certificate, certificate_of};
ghost use Rattle.gd_cert.specs.Drafts.{draft_of};
ghost use Rattle.gd_cert.specs.Reading.{cert_cause, drafted, on_line, reading, with_line};
ghost use Rattle.gd_cert.specs.Text.{KeepsLines, text};
ghost use Rattle.gd_cert.specs.Words.{words_of};

use crate::cert::Cert;
use crate::draft::CertDraft;
use crate::fault::CertReadFault;
use crate::rule::LineFault;
use crate::word::{cut, split_words};
use std::alloc::Global;

/// The certificate whose text the bytes are (docs/FORMATS.md, "Certificate"), or the first fault of the bytes, with its line and code 40 to 46.
pub fn read_cert(alloc: Global, bytes: &[u8]) -> Result<Cert, CertReadFault>
    requires { length bytes.now ≤ FILE_BYTES }
    // What is read is spelled so, each byte of it, and each group keeps the line of its word.
    ensures found { IfOk result (λ c. IsInBounds (certificate_of c) × (bytes.now ≡ text (certificate_of c))) }
    ensures lines { IfOk result KeepsLines }
    // What is spelled so is read, but for want of memory.
    ensures only { (c : Certificate) → IsInBounds c → bytes.now ≡ text c → Gives cert_cause certificate_of result (Ok c) }
    // Which fault it is.
    ensures exact { Gives cert_cause certificate_of result (reading bytes.now) }
{
    match read_draft(alloc, bytes) {
        Ok(draft) => Ok(draft.into_cert()),
        Err(fault) => Err(fault),
    }
}

// What all the lines tell.
#[tactic(auto, unfolding(crate::specs::Reading::drafted))]
fn read_draft(alloc: Global, bytes: &[u8]) -> Result<CertDraft, CertReadFault>
    requires { length bytes.now ≤ FILE_BYTES }
    ensures { Gives cert_cause draft_of result (drafted bytes.now) }
{
    let mut draft = CertDraft::new(alloc);
    let mut words = Vec::new(alloc);
    let mut line = 1;
    let mut rest = bytes;
    while let Some((text, more)) = cut(rest, b'\n') {
        match take_text(alloc, &mut draft, &mut words, line, text) {
            Ok(()) => {}
            Err(fault) => return Err(fault),
        }
        line += 1;
        rest = more;
    }
    match draft.last_fault(rest) {
        None => Ok(draft),
        Some(broken) => Err(broken.broken_at(line)),
    }
}

// Takes one more line, whose number is `line`. The words of the line before go from `words`.
fn take_text<'a>(
    alloc: Global,
    draft: &mut CertDraft,
    words: &mut Vec<&'a [u8]>,
    line: u32,
    text: &'a [u8],
) -> Result<(), CertReadFault>
    ensures { Gives cert_cause (λ x. draft_of draft.new) result (on_line line (with_line line (words_of text.now) (draft_of draft.old))) }
{
    split_words(text, words)?;
    match draft.take_line(alloc, line, words.as_slice()) {
        Ok(()) => Ok(()),
        Err(LineFault::Memory) => Err(CertReadFault::Memory),
        Err(LineFault::Rule(broken)) => Err(broken.broken_at(line)),
    }
}
