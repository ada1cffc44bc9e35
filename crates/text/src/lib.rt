//! Words and numbers of one line of a script. Words stand apart by one space; a number is decimal or, after 0x, hexadecimal.

#![tactic(auto)]

ghost use Rattle.std.specs.Prelude.{◌≡◌, ◌≤◌};
ghost use Rattle.text.specs.Text.{word_at, word_count, digit_in, numeral, number_of, argument_of, arguments_of};

/// The word of this number, counted from 0; empty past the last.
pub fn word(s: &[u8], k: usize) -> &[u8]
    ensures { result.now ≡ word_at k s.now }
{
    s.split(|b| *b == b' ').nth(k).unwrap_or_default()
}

/// How many words there are: an empty line has one, which is empty.
pub fn count(s: &[u8]) -> usize
    ensures { result ≡ word_count s.now }
{
    s.iter().filter(|b| **b == b' ').count() + 1
}

/// The value of a digit, 0 to 9, A to F or a to f; none for any other byte.
pub fn digit(b: u8) -> Option<u32>
    ensures { result ≡ digit_in 16 b }
{
    char::from(b).to_digit(16)
}

// The number whose digits a word is. `from_str_radix` would take a + before them.
fn digits(s: &[u8], base: u32) -> Option<u64>
    requires lower_bound { 2 ≤ base }
    requires upper_bound { base ≤ 16 }
    ensures { result ≡ numeral base s.now }
{
    let mut v: u64 = 0;
    for b in s {
        let d = char::from(*b).to_digit(base)?;
        v = v.checked_mul(u64::from(base))?.checked_add(u64::from(d))?;
    }
    Some(v)
}

/// The number that a word stands for: decimal, or hexadecimal after 0x; none where it is empty, malformed or larger than 64 bits.
pub fn number(s: &[u8]) -> Option<u64>
    ensures { result ≡ number_of s.now }
{
    if s.is_empty() {
        return None;
    }
    match s.strip_prefix(b"0x") {
        Some(rest) if !rest.is_empty() => digits(rest, 16),
        _ => digits(s, 10),
    }
}

/// A word as a number.
pub fn argument(s: &[u8], k: usize) -> Option<u64>
    ensures { result ≡ argument_of k s.now }
{
    number(word(s, k))
}

/// The numbers behind the name of a call: none unless there are as many as expected and each is well formed.
pub fn arguments<const N: usize>(s: &[u8]) -> Option<[u64; N]>
    ensures { result ≡ arguments_of N s.now }
{
    if count(s) - 1 != N {
        return None;
    }
    let mut numbers = [0; N];
    for (i, number) in numbers.iter_mut().enumerate() {
        *number = argument(s, i + 1)?;
    }
    Some(numbers)
}
