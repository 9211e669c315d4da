// Bytes that are parted by separators.
ghost use Rattle.std.specs.Prelude.{◌≡◌, ◌==◌, OnOk};
ghost use Rattle.std.specs.List.{position};
ghost use Rattle.gd_cert.specs.Drafts.{CutsAt, TellsAlike, texts};
ghost use Rattle.gd_cert.specs.Words.{is_word, words_of};

use gd_base::Memory;
use gd_cells::MOST_DIMS;

// The most words of a line: `w`, a root and the numbers of a witness.
const MOST_WORDS: usize = 2 + MOST_DIMS;

/// Whether a word is this one.
pub(crate) fn is(word: &[u8], other: &[u8]) -> bool
    ensures { result ≡ is_word word.now other.now }
{
    word == other
}

// The place of the first separator. Lines and words are short, so a plain loop finds it sooner than a search by many bytes at once.
#[inline(always)]
fn place_of(separator: u8, bytes: &[u8]) -> Option<usize>
    ensures { result ≡ position (λ b. b == separator) bytes.now }
{
    bytes.iter().position(|byte| *byte == separator)
}

/// What stands before the first separator, and what stands behind it.
#[inline(always)]
pub(crate) fn cut(bytes: &[u8], separator: u8) -> Option<(&[u8], &[u8])>
    ensures { CutsAt separator bytes.now result }
{
    match place_of(separator, bytes) {
        None => None,
        Some(at) => Some((&bytes[..at], &bytes[at + 1..])),
    }
}

/// Replaces `words` by the words of a line, which single spaces part.
/// What follows the 14th is left as one word, since no line has more than 14.
pub(crate) fn split_words<'a>(line: &'a [u8], words: &mut Vec<&'a [u8]>) -> Result<(), Memory>
    ensures { OnOk result (TellsAlike (texts words.new.items) (words_of line.now)) }
{
    words.clear();
    let mut rest = line;
    while words.len() < MOST_WORDS {
        let Some((word, more)) = cut(rest, b' ') else {
            break;
        };
        words.push(word)?;
        rest = more;
    }
    words.push(rest)?;
    Ok(())
}
