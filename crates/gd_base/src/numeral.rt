// Whole numbers as words spell them.
ghost use Rattle.std.specs.Prelude.{◌≡◌, ◌<◌, ◌≤◌, ◌+◌, ◌*◌, ◌-◌, ◌^◌, true, length};
ghost use Rattle.gd_base.specs.Numerals.{IsNumberIn, begins_plain, digits_from, is_digit};

// The most digits whose number surely fits 64 bits.
const DIGITS: usize = 19;

/// The number up to `limit` that a word spells: `0`, or decimal digits of which the first is no zero.
/// It is none for every other word, one with a sign or a leading zero among them. `docs/FORMATS.md` has the rule.
#[inline]
pub fn plain_number(word: &[u8], limit: u64) -> Option<u64>
    requires { limit < 10 ^ 19 }
    ensures { IsNumberIn word.now limit result }
{
    if DIGITS < word.len() || !begins_plain(word) {
        return None;
    }
    let number = read_digits(word)?;
    if number <= limit { Some(number) } else { None }
}

/// Whether a byte is one of `0` to `9`.
#[inline(always)]
pub fn is_digit(byte: u8) -> bool
    ensures { result ≡ is_digit byte }
{
    byte.is_ascii_digit()
}

// Whether a word is neither empty nor begins with a zero that something follows.
#[inline(always)]
fn begins_plain(word: &[u8]) -> bool
    ensures { result ≡ begins_plain word.now }
{
    !matches!(word, [] | [b'0', _, ..])
}

// A number with one digit more.
#[inline(always)]
fn with_digit(number: u64, byte: u8) -> u64
    requires small { number < 10 ^ 18 }
    requires digit { is_digit byte ≡ true }
    ensures { result ≡ 10 * number + (byte - 48) }
{
    10 * number + u64::from(byte - b'0')
}

// The number that digits write, or none where another byte stands among them.
#[inline(always)]
fn read_digits(word: &[u8]) -> Option<u64>
    requires { length word.now ≤ 19 }
    ensures { result ≡ digits_from 0 word.now }
{
    let mut number = 0;
    for byte in word {
        if !is_digit(*byte) {
            return None;
        }
        number = with_digit(number, *byte);
    }
    Some(number)
}

#[cfg(test)]
mod tests {
    use super::*;

    #[test]
    fn numbers(rt: HostRuntime) {
        let cases = [
            ("0", Some(0)),
            ("7", Some(7)),
            ("1000000", Some(1_000_000)),
            ("1000001", None),
            ("", None),
            ("00", None),
            ("07", None),
            ("+7", None),
            ("-0", None),
            ("7 ", None),
            ("1e3", None),
            ("18446744073709551617", None),
        ];
        for (text, number) in cases {
            assert_eq!(rt; plain_number(text.as_bytes(), 1_000_000), number, "{text}");
        }
    }
}
