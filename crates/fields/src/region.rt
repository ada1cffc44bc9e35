//! The fields of a region, such as a payload or the CMD_INFO in one.

ghost use Rattle.std.specs.Prelude.{◌≡◌, ◌+◌, ◌*◌, ◌^◌, ◌≤◌, ◌<◌};
ghost use Rattle.rules.specs.Limits.{field_types};
ghost use Rattle.rules.specs.Bytes.{swapped, swap16};
ghost use Rattle.rules.specs.Region.{lookup};
ghost use Rattle.rules.specs.Fields.{rule_of, field, given, is_absent, value, nest_in, fields_right};
ghost use Rattle.rules.specs.Decode.{header_of};
ghost use Rattle.tlv.specs.Index.{Indexed};
ghost use Rattle.fields.specs.Region.{Region, region_of};

use rules::{Found, Terms};
use std::marker::Model;
use tlv::{Malformed, Places};
use wire::Halves;

/// A well-formed region under the terms of a device or a journal, with where the value of each type starts. It is lent and never copied.
#[derive(Drop)]
pub struct Fields<'a> {
    terms: Terms,
    header: usize,
    region: &'a [u8],
    places: Places,
}

impl<'a> Model for Fields<'a> {
    ghost Value = { Region };

    ghost view = { λ f. record { terms = f.terms; bytes = f.region.now } };

    ghost invariant = { λ f. (f.header ≡ header_of f.terms) × (Indexed f.header f.region.now f.places) };
}

impl<'a> Fields<'a> {
    /// Goes over a region once.
    ///
    /// # Errors
    ///
    /// The region is not well formed.
    pub fn new(terms: Terms, region: &'a [u8]) -> Result<Fields<'a>, Malformed>
        ensures { result ≡ region_of terms region.now }
    {
        let header = tlv::header_bytes(terms.version);
        let places = tlv::index_of(region, header)?;
        Ok(Fields {
            terms,
            header,
            region,
            places,
        })
    }

    /// The terms that the region is read under.
    pub fn terms(&self) -> Terms
        ensures { result ≡ self.now.terms }
    {
        self.terms
    }

    /// How many header bytes a length counts under its terms.
    pub fn header(&self) -> usize
        ensures { result ≡ header_of self.now.terms }
    {
        self.header
    }

    /// What the region holds of a type, at a width; width 0 is a nest, of any length.
    pub fn get(&self, t: u32, width: u8) -> Found
        requires { t < field_types }
        ensures { result ≡ lookup (header_of self.now.terms) self.now.bytes t width }
    {
        found::found(self.region, self.header, &self.places, t, width)
    }

    /// What the region holds of a field, at the width of its row.
    pub fn field(&self, t: u32) -> Found
        requires { t < field_types }
        ensures { result ≡ field (header_of self.now.terms) self.now.bytes t }
    {
        crate::field(self.region, self.header, &self.places, t)
    }

    /// The field stands there once, at its width.
    pub fn given(&self, t: u32) -> bool
        requires { t < field_types }
        ensures { result ≡ given (header_of self.now.terms) self.now.bytes t }
    {
        crate::given(self.region, self.header, &self.places, t)
    }

    /// Nothing of the field stands there, at any width.
    pub fn absent(&self, t: u32) -> bool
        requires { t < field_types }
        ensures { result ≡ is_absent (field (header_of self.now.terms) self.now.bytes t) }
    {
        crate::absent(self.region, self.header, &self.places, t)
    }

    // The number of a field of eight bytes at most.
    fn number(&self, t: u32) -> u64
        requires { (t < field_types) × ((rule_of t).width ≤ 8) }
        ensures value { result ≡ value (header_of self.now.terms) self.now.bytes t }
        ensures fits { result < 256 ^ (rule_of t).width }
    {
        crate::number(self.region, self.header, &self.places, t)
    }

    /// The number of a field of eight bytes at most, 0 where it is not given.
    pub fn value(&self, t: u32) -> u64
        requires { (t < field_types) × ((rule_of t).width ≤ 8) }
        ensures { result ≡ value (header_of self.now.terms) self.now.bytes t }
    {
        crate::value(self.region, self.header, &self.places, t)
    }

    /// The number of a field of four bytes at most.
    pub fn word(&self, t: u32) -> u32
        requires { (t < field_types) × ((rule_of t).width ≤ 4) }
        ensures { result ≡ value (header_of self.now.terms) self.now.bytes t }
    {
        self.number(t) as u32
    }

    /// The number of a field of two bytes at most.
    pub fn half(&self, t: u32) -> u16
        requires { (t < field_types) × ((rule_of t).width ≤ 2) }
        ensures { result ≡ value (header_of self.now.terms) self.now.bytes t }
    {
        self.number(t) as u16
    }

    /// The number of a field of two bytes that is big-endian, as a VLAN or an ETHERTYPE.
    #[tactic(auto, unfolding(rules::specs::Bytes::swap16))]
    pub fn be16(&self, t: u32) -> u16
        requires { (t < field_types) × ((rule_of t).width ≤ 8) }
        ensures { result ≡ swap16 (value (header_of self.now.terms) self.now.bytes t) }
    {
        let v = self.value(t);
        (v % 256 * 256 + v / 256 % 256) as u16
    }

    /// The number of a field of four bytes that is big-endian.
    pub fn be32(&self, t: u32) -> u32
        requires { (t < field_types) × ((rule_of t).width ≡ 4) }
        ensures { result ≡ swapped 4 (value (header_of self.now.terms) self.now.bytes t) }
    {
        wire::turned(self.value(t), 4) as u32
    }

    /// The number of a field of 16 bytes, which is big-endian, 0 where it is not given.
    pub fn be128(&self, t: u32) -> Halves
        requires { (t < field_types) × ((rule_of t).width ≡ 16) }
        ensures { result.high * 2 ^ 64 + result.low ≡ swapped 16 (value (header_of self.now.terms) self.now.bytes t) }
    {
        crate::wide_value(self.region, self.header, &self.places, t)
    }

    /// The region in a field, empty where there is none.
    pub fn nest(&self, t: u32) -> &'a [u8]
        requires { t < field_types }
        ensures { result.now ≡ nest_in self.now.bytes (field (header_of self.now.terms) self.now.bytes t) }
    {
        found::nest_in(self.region, self.field(t))
    }

    /// No field is missing, repeated or of another width for who reads the region. No type past POP_VLAN is listed.
    pub fn right_for(&self, who: u16) -> bool
        ensures { result ≡ fields_right (header_of self.now.terms) self.now.bytes who }
    {
        crate::fields_right(self.region, self.header, &self.places, who)
    }
}
