//! Numbers that words write in decimal.

ghost use Rattle.std.specs.Prelude.{◌≡◌};
ghost use Rattle.srcp_text.specs.Words.{number_of, plain_number_of, has_leading_zero};

/// Returns the number that a word writes in decimal, if the number is at most `max`. The word is one ASCII digit or
/// more, and leading zeros are allowed. Returns `None` for any other word.
#[inline(always)]
pub fn read_number(word: &[u8], max: u32) -> Option<u32>
    ensures { result ≡ number_of max word.now }
{
    let number = number_within(word, u64::from(max))?;
    Some(number as u32)
}

/// Returns the number that a word writes without leading zeros, if the number is at most `max`. Each number has one
/// such word, as `put_number` writes. Returns `None` for any other word.
pub fn read_plain(word: &[u8], max: u64) -> Option<u64>
    ensures { result ≡ plain_number_of max word.now }
{
    if word.len() > 1 && word[0] == b'0' {
        return None;
    }
    number_within(word, max)
}

/// Returns the number that a word of digits writes, leading zeros allowed, if the number is at most `max`.
#[inline(always)]
fn number_within(word: &[u8], max: u64) -> Option<u64>
    ensures { result ≡ number_of max word.now }
{
    if word.is_empty() {
        return None;
    }
    let mut number: u64 = 0;
    for byte in word {
        if !byte.is_ascii_digit() {
            return None;
        }
        let digit = u64::from(byte - b'0');
        if number > max / 10 || digit > max - 10 * number {
            return None;
        }
        number = 10 * number + digit;
    }
    Some(number)
}
