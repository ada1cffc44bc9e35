//! Numbers in a slice of bytes, and whether a range is inside one. Nothing that reads or writes a slice has a `requires`: bytes past the end
//! read as 0, and a number that does not fit inside is not written.

#![tactic(auto)]

ghost use Rattle.std.specs.Prelude.{◌≡◌, min, ◌+◌, ◌*◌, ◌^◌, ◌≤◌};
ghost use Rattle.rules.specs.Bytes.{le, le_at, swap16, swapped, inside};
ghost use Rattle.wire.specs.Put.{put};

mod number;

pub use number::Number;

fn wide(b: u8) -> u64
    ensures { result ≡ b }
{
    b as u64
}

// The little-endian number of the first n bytes, eight at most. From the last byte to the first, so that no power of 256 is kept.
fn front(s: &[u8], n: usize) -> u64
    ensures { result ≡ le (min n 8) s.now }
{
    let mut k = numbers::min(numbers::min(n, 8), s.len());
    let mut v = 0;
    while 0 < k {
        k -= 1;
        v = v * 256 + wide(s[k]);
    }
    v
}

/// The little-endian number of n bytes at a position, eight at most.
pub fn number_at(s: &[u8], at: usize, n: usize) -> u64
    ensures { result ≡ le_at (min n 8) s.now at }
{
    if at <= s.len() { front(&s[at..], n) } else { 0 }
}

/// A MAC, which stands in wire order: its first byte is the lowest. It has six bytes, as no type has.
pub fn le48(s: &[u8], at: usize) -> u64
    ensures { result ≡ le_at 6 s.now at }
{
    number_at(s, at, 6)
}

/// A big-endian number of two bytes, by the rule that has its own name for their exchange.
pub fn be16(s: &[u8], at: usize) -> u16
    ensures { result ≡ swap16 (le_at 2 s.now at) }
{
    let v: u16 = le(s, at);
    v % 256 * 256 + v / 256
}

/// The little-endian number at a position, as its type tells how many bytes it has.
pub fn le<T: Number>(s: &[u8], at: usize) -> T
    ensures { T.value result ≡ le_at T.WIDTH s.now at }
{
    T::narrowed(number_at(s, at, T::WIDTH as usize))
}

/// The big-endian number at a position, as its type tells how many bytes it has.
pub fn be<T: Number>(s: &[u8], at: usize) -> T
    ensures { T.value result ≡ swapped T.WIDTH (le_at T.WIDTH s.now at) }
{
    T::narrowed(turned(number_at(s, at, T::WIDTH as usize), T::WIDTH))
}

/// The number whose n bytes are those of v the other way round: the lowest of these becomes the highest.
pub fn turned(v: u64, n: u8) -> u64
    requires { n ≤ 8 }
    ensures { result ≡ swapped n v }
{
    let mut rest = v;
    let mut turned = 0;
    for _done in 0..n {
        turned = turned * 256 + rest % 256;
        rest = rest / 256;
    }
    turned
}

/// A number of 16 bytes by its two halves: the rows of the C interface and a frame's headers hold an address as two words.
#[derive(Clone, Copy)]
pub struct Halves {
    pub high: u64,
    pub low: u64,
}

pub const ZERO: Halves = Halves { high: 0, low: 0 };

/// The big-endian number of 16 bytes at a position.
pub fn be128(s: &[u8], at: usize) -> Halves
    ensures { result.high * 2 ^ 64 + result.low ≡ swapped 16 (le_at 16 s.now at) }
{
    if s.len() < at {
        return ZERO;
    }
    let value = &s[at..];
    Halves {
        high: be(value, 0),
        low: be(value, 8),
    }
}

/// Whether n bytes from a position on are inside, by the true end of the range.
pub fn inside(s: &[u8], at: u64, n: u64) -> bool
    ensures { result ≡ inside at n s.now }
{
    match at.checked_add(n) {
        Some(end) => end <= s.len() as u64,
        None => false,
    }
}

/// Writes v as n little-endian bytes from a position on, where these are inside, and nothing where not.
pub fn put(s: &mut [u8], at: usize, n: usize, v: u64)
    ensures { s.new ≡ put at n v s.old }
{
    if inside(s, at as u64, n as u64) {
        let mut rest = v;
        for i in at..at + n {
            s[i] = (rest % 256) as u8;
            rest = rest / 256;
        }
    }
}

/// Writes a number of two bytes.
pub fn put16(s: &mut [u8], at: usize, v: u16)
    ensures { s.new ≡ put at 2 v s.old }
{
    put(s, at, 2, v as u64);
}
