// Whole numbers as fields spell them.
ghost use Rattle.std.specs.Prelude.{◌≡◌, ◌*◌, ◌+◌, ◌-◌, ◌≤◌, min, option_map};
ghost use Rattle.std.specs.List.{list_all};
ghost use Rattle.gd_points.specs.Numbers.{is_blank, is_digit, after, size_of, number_of, cut};

// A size from this one on is read as this one: no range of a field reaches it.
const LARGE: u64 = 1_000_000_000;

#[inline(always)]
fn is_blank(byte: u8) -> bool
    ensures { result ≡ is_blank byte }
{
    byte == b' ' || byte == b'\t'
}

#[inline(always)]
fn is_digit(byte: u8) -> bool
    ensures { result ≡ is_digit byte }
{
    matches!(byte, b'0'..=b'9')
}

fn are_blanks(bytes: &[u8]) -> bool
    ensures { result ≡ list_all is_blank bytes.now }
{
    bytes.iter().all(|b| is_blank(*b))
}

// What follows the blanks at the start.
#[inline(always)]
fn after_blanks(field: &[u8]) -> &[u8]
    ensures { result.now ≡ after is_blank field.now }
{
    for (i, byte) in field.iter().enumerate() {
        if !is_blank(*byte) {
            return &field[i..];
        }
    }
    &field[field.len()..]
}

// A size with one digit more.
#[inline(always)]
fn with_digit(size: u32, byte: u8) -> u32
    requires small { size ≤ 1000000000 }
    requires digit { 48 ≤ byte }
    ensures { result ≡ min 1000000000 (10 * size + (byte - 48)) }
{
    (10 * u64::from(size) + u64::from(byte - b'0')).min(LARGE) as u32
}

// The size that one digit or more and then blanks spell.
#[inline(always)]
fn read_size(text: &[u8]) -> Option<u32>
    ensures { result ≡ option_map (min 1000000000) (size_of text.now) }
{
    let mut size = 0;
    for (i, byte) in text.iter().enumerate() {
        if !is_digit(*byte) {
            return if 0 < i && are_blanks(&text[i..]) {
                Some(size)
            } else {
                None
            };
        }
        size = with_digit(size, *byte);
    }
    if text.is_empty() { None } else { Some(size) }
}

/// The whole number that a field spells, its size cut at 1,000,000,000.
pub fn read_number(field: &[u8]) -> Option<i64>
    ensures { result ≡ option_map cut (number_of field.now) }
{
    match after_blanks(field) {
        [b'-', size @ ..] => Some(-i64::from(read_size(size)?)),
        [b'+', size @ ..] => Some(i64::from(read_size(size)?)),
        size => Some(i64::from(read_size(size)?)),
    }
}
