//! What the index of a region says of a type, and what a value holds. Every function is equal to a rule of `rules`.

#![tactic(auto)]

ghost use Rattle.std.specs.Prelude.{◌≡◌, min, ◌<◌, ◌+◌, ◌*◌, ◌^◌};
ghost use Rattle.rules.specs.Bytes.{swapped, part};
ghost use Rattle.rules.specs.Region.{lookup};
ghost use Rattle.rules.specs.Fields.{is_at, is_absent, number_in, nest_in};
ghost use Rattle.tlv.specs.Index.{Indexed};
ghost use Rattle.rules.specs.Limits.{field_types};

use rules::Found;
use tlv::{Places, reader};
use wire::Halves;

/// What the region holds of a type, at a width; width 0 is a nest, of any length. `header` is how many header bytes a length counts.
pub fn found(s: &[u8], header: usize, places: &Places, t: u32, width: u8) -> Found
    requires { (Indexed header s.now places.now) × (t < field_types) }
    ensures { result ≡ lookup header s.now t width }
{
    let place = places[t as usize];
    if place < 8 {
        if place == 0 {
            return Found::Absent;
        }
        return Found::Fault;
    }
    let size = reader::value_size(header, wire::le(s, place - 4));
    if (width == 0) | (size == width as usize) {
        Found::At(place, size)
    } else {
        Found::Fault
    }
}

/// One value of the type stands there, at the width.
#[tactic(auto, unfolding(rules::specs::Fields::is_at))]
pub fn is_at(f: Found) -> bool
    ensures { result ≡ is_at f }
{
    matches!(f, Found::At(_, _))
}

/// Nothing of the type stands there, at any width.
#[tactic(auto, unfolding(rules::specs::Fields::is_absent))]
pub fn is_absent(f: Found) -> bool
    ensures { result ≡ is_absent f }
{
    matches!(f, Found::Absent)
}

/// The number in a value, 0 where there is none; of eight bytes at most.
#[tactic(auto, unfolding(rules::specs::Fields::number_in))]
pub fn number_in(s: &[u8], width: u8, f: Found) -> u64
    ensures value { result ≡ number_in s.now (min width 8) f }
    ensures fits { result < 256 ^ min width 8 }
{
    match f {
        Found::At(a, _) => wire::number_at(s, a, width as usize),
        Found::Absent => 0,
        Found::Fault => 0,
    }
}

/// The big-endian number in a value of 16 bytes, 0 where there is none.
#[tactic(auto, unfolding(rules::specs::Fields::number_in, rules::specs::Bytes::swapped))]
pub fn wide_in(s: &[u8], f: Found) -> Halves
    ensures { result.high * 2 ^ 64 + result.low ≡ swapped 16 (number_in s.now 16 f) }
{
    match f {
        Found::At(a, _) => wire::be128(s, a),
        Found::Absent => wire::ZERO,
        Found::Fault => wire::ZERO,
    }
}

// The n bytes from a position, or as many as there are.
fn part_of(s: &[u8], at: usize, n: usize) -> &[u8]
    ensures { result.now ≡ part n s.now at }
{
    if s.len() < at {
        return &s[0..0];
    }
    if s.len() - at < n {
        return &s[at..];
    }
    &s[at..at + n]
}

/// The region in a value, empty where there is none.
#[tactic(auto, unfolding(rules::specs::Fields::nest_in))]
pub fn nest_in(s: &[u8], f: Found) -> &[u8]
    ensures { result.now ≡ nest_in s.now f }
{
    match f {
        Found::At(a, n) => part_of(s, a, n),
        Found::Absent => &s[0..0],
        Found::Fault => &s[0..0],
    }
}
