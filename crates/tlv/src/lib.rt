//! Regions of TLVs: a reader of them, one at a time, and an index of a region, in one pass: where the value of each type starts.

#![tactic(auto)]

ghost use Rattle.std.specs.Prelude.{◌≡◌, IfOk, IfErr, is_ok};
ghost use Rattle.rules.specs.declared.Status.TheVariants.{Einval};
ghost use Rattle.rules.specs.Version.{header_bytes};
ghost use Rattle.rules.specs.Region.{well_formed};
ghost use Rattle.tlv.specs.Index.{marked, noted, Indexed};

use rules::{FIELD_TYPES, Status, Tlv};

pub mod reader;

pub use reader::{Malformed, Tlvs};

/// How many of its TLV's header bytes a length counts in a version: all 8 from version 2 on, none before.
#[tactic(auto, unfolding(rules::specs::Version::header_bytes, rules::specs::Version::header_counted))]
pub fn header_bytes(version: u16) -> usize
    ensures { result ≡ header_bytes version }
{
    if 2 <= version { 8 } else { 0 }
}

/// Where the values of a region start, by their types below 44: 0 where the region has no value of that type, 1 where it has more than
/// one, else where its value starts, which is at 8 or later.
pub type Places = [usize; FIELD_TYPES];

/// A region that is not well formed, with the index of the TLVs in front of its fault.
#[derive(Clone, Copy, Debug, PartialEq, Eq)]
pub struct Partial {
    pub places: Places,
}

impl From<Partial> for Malformed {
    ghost from_gives = { λ _ malformed. malformed ≡ record {} };

    fn from(_: Partial) -> Malformed {
        Malformed
    }
}

impl From<Partial> for Status {
    ghost from_gives = { λ _ status. status ≡ Einval };

    fn from(_: Partial) -> Status {
        Status::Einval
    }
}

#[tactic(auto, unfolding(crate::specs::Index::marked))]
fn marked(place: usize, start: usize) -> usize
    ensures { result ≡ marked place start }
{
    if place == 0 { start } else { 1 }
}

// What a TLV adds to the places so far. A type past those is in no table and is skipped.
#[tactic(auto, unfolding(crate::specs::Index::noted))]
fn note(places: &mut Places, tlv: Tlv)
    ensures { places.new ≡ noted places.old tlv }
{
    let kind = tlv.kind;
    if kind < FIELD_TYPES as u32 {
        let t = kind as usize;
        places[t] = marked(places[t], tlv.start);
    }
}

/// The index of a region whose lengths count so many header bytes.
///
/// # Errors
///
/// The region is not well formed: whole TLVs do not cover it exactly. The error has the index of those in front of the fault.
pub fn index_of(region: &[u8], header: usize) -> Result<Places, Partial>
    ensures right { IfOk result (λ places. Indexed header region.now places) }
    ensures partial { IfErr result (λ partial. Indexed header region.now partial.places) }
    ensures whole { is_ok result ≡ well_formed header region.now }
{
    let mut places = [0; FIELD_TYPES];
    for tlv in Tlvs::new(header, region) {
        match tlv {
            Ok(tlv) => note(&mut places, tlv),
            Err(_) => return Err(Partial { places }),
        }
    }
    Ok(places)
}
