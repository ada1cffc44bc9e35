//! Byte strings of a script in hexadecimal digits, two to a byte; - for none.
//!
//! `bytes` and `spell` fill a part of any length, and a word may be `-`: the library `hex` refuses both.

#![tactic(auto)]

ghost use Rattle.std.specs.Prelude.{◌≡◌, unwrap_or};
ghost use Rattle.text.specs.Text.{all_digits};
ghost use Rattle.hexadecimal.specs.Hex.{counted, pair_of, byte_of, BytesOf, letter_of, spelled_at, SpellingOf};

fn all_digits(s: &[u8]) -> bool
    ensures { result ≡ all_digits 16 s.now }
{
    s.iter().all(|b| text::digit(*b).is_some())
}

/// How many bytes a word stands for: none unless it is - or digits, two to a byte.
pub fn count(s: &[u8]) -> Option<usize>
    ensures { result ≡ counted s.now }
{
    if s == b"-".as_slice() {
        return Some(0);
    }
    if s.is_empty() || s.len() % 2 != 0 || !all_digits(s) {
        return None;
    }
    Some(s.len() / 2)
}

// The byte of two digits, the higher first; none where one is none.
fn pair(high: u8, low: u8) -> Option<u8>
    ensures { unwrap_or result 0 ≡ pair_of high low }
{
    Some((text::digit(high)? * 16 + text::digit(low)?) as u8)
}

// The byte of this number, counted from 0; 0 past the last.
fn byte(s: &[u8], i: usize) -> u8
    ensures { result ≡ byte_of s.now i }
{
    if i < s.len() / 2 {
        return pair(s[2 * i], s[2 * i + 1]).unwrap_or(0);
    }
    0
}

/// The bytes that a word stands for, as many as fit; 0 past the last.
pub fn bytes(s: &[u8], out: &mut [u8])
    ensures { BytesOf s.now out.new }
{
    for (i, b) in out.iter_mut().enumerate() {
        *b = byte(s, i);
    }
}

fn letter(v: u8) -> u8
    ensures { result ≡ letter_of v }
{
    match v {
        0..=9 => b'0' + v,
        10..=15 => b'a' - 10 + v,
        _ => b'?',
    }
}

// The digit of this number, counted from 0, two to a byte.
fn digit(s: &[u8], k: usize) -> u8
    ensures { result ≡ spelled_at s.now k }
{
    match s.get(k / 2) {
        Some(b) if k % 2 == 0 => letter(b / 16),
        Some(b) => letter(b % 16),
        None => b'?',
    }
}

/// The digits of bytes, in lower case, as many as fit; ? past the last.
pub fn spell(s: &[u8], out: &mut [u8])
    ensures { SpellingOf s.now out.new }
{
    for (k, d) in out.iter_mut().enumerate() {
        *d = digit(s, k);
    }
}
