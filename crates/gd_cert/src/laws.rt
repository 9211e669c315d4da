// The laws of certificates' texts, one function a law, so that a caller's proof can name them. They do nothing when they run.
ghost use Rattle.std.specs.Prelude.{◌≡◌};
ghost use Rattle.gd_cert.specs.Bounds.{IsInBounds};
ghost use Rattle.gd_cert.specs.Certificates.{Certificate};
ghost use Rattle.gd_cert.specs.Text.{text};

/// Certificates that differ have texts that differ.
pub fn texts_differ()
    ensures { (c d : Certificate) → IsInBounds c → IsInBounds d → text c ≡ text d → c ≡ d }
{}
