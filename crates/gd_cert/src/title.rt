// The first line of a certificate, which tells the format and its version. It is made and read here alone.
ghost use Rattle.std.specs.Prelude.{◌≡◌, ◌++◌, OnOk};
ghost use Rattle.gd_cert.specs.Drafts.{texts};
ghost use Rattle.gd_cert.specs.Lines.{title_in};
ghost use Rattle.gd_cert.specs.Text.{line_text, title};

use crate::word::is;
use gd_base::Memory;

/// The name of the format.
const FORMAT: &[u8] = b"gdcert";

/// The version that is written, and the one that is read.
const VERSION: &[u8] = b"1";

/// Appends the first line to a text.
pub(crate) fn put_title(text: &mut Vec<u8>) -> Result<(), Memory>
    ensures { OnOk result (text.new.items ≡ text.old.items ++ line_text title) }
{
    text.extend_from_slice(FORMAT)?;
    text.push(b' ')?;
    text.extend_from_slice(VERSION)?;
    text.push(b'\n')?;
    Ok(())
}

/// Whether the words are those of the first line.
pub(crate) fn is_title(words: &[&[u8]]) -> bool
    ensures { result ≡ title_in (texts words.now) }
{
    match words {
        [name, number] => is(name, FORMAT) && is(number, VERSION),
        _ => false,
    }
}
