//! The TLVs of a region, one at a time. `header` is how many of its TLV's header bytes a length counts.

ghost use Rattle.std.specs.Prelude.{◌≡◌, ◌≤◌, ◌<◌, ◌^◌, List, Result, length};
ghost use Rattle.std.specs.Iterator.{YieldsFirstBy, item_count};
ghost use Rattle.rules.specs.declared.Tlv.{Tlv};
ghost use Rattle.rules.specs.declared.Status.TheVariants.{Einval};
ghost use Rattle.rules.specs.Region.{value_size, filled, step_at, after};
ghost use Rattle.tlv.specs.declared.reader.Malformed.{Malformed};
ghost use Rattle.tlv.specs.Reading.{front, left};

use rules::{Status, Step, Tlv};
use std::marker::Model;

/// Bytes of a region that are no whole TLV. A command with such a region is answered EINVAL.
#[derive(Clone, Copy, Debug, PartialEq, Eq)]
pub struct Malformed;

impl From<Malformed> for Status {
    ghost from_gives = { λ _ status. status ≡ Einval };

    fn from(_: Malformed) -> Status {
        Status::Einval
    }
}

/// The length of a value, from its TLV's length field, which counts the header.
#[tactic(auto, unfolding(rules::specs::Region::value_size))]
pub fn value_size(header: usize, field: u16) -> usize
    requires { header ≤ field }
    ensures { result ≡ value_size header field }
{
    field as usize - header
}

#[tactic(auto, unfolding(rules::specs::Region::filled))]
fn filled(n: usize) -> usize
    requires { filled n < 2 ^ 64 }
    ensures { result ≡ filled n }
{
    (n + 7) / 8 * 8
}

// The TLV at a position, if it stands there whole with its fill. The position is compared with the last one that has a header's bytes behind
// it: so the compiler knows that these are inside, and reads them with no test of each.
fn front(header: usize, region: &[u8], at: usize) -> Result<Tlv, Malformed>
    ensures { result ≡ front header region.now at }
{
    let last = region.len().checked_sub(8).ok_or(Malformed)?;
    let room = last.checked_sub(at).ok_or(Malformed)?;
    let size = usize::from(wire::le::<u16>(region, at + 4))
        .checked_sub(header)
        .ok_or(Malformed)?;
    if room < filled(size) {
        return Err(Malformed);
    }
    Ok(Tlv {
        kind: wire::le(region, at),
        start: at + 8,
        size,
    })
}

/// The TLVs of a region from a position on. Bytes that are no whole TLV are an error, and the last item.
#[derive(Clone, Drop)]
pub struct Tlvs<'a> {
    header: usize,
    region: &'a [u8],
    at: usize,
}

impl<'a> Model for Tlvs<'a> {
    ghost Value = { List (Result Tlv Malformed) };

    ghost view = { λ r. left r.header r.region.now r.at };

    ghost invariant = { λ r. r.at ≤ length r.region.now };
}

impl<'a> Tlvs<'a> {
    /// All TLVs of a region.
    pub fn new(header: usize, region: &'a [u8]) -> Tlvs<'a>
        ensures { result ≡ left header region.now 0 }
    {
        Tlvs {
            header,
            region,
            at: 0,
        }
    }
}

impl<'a> Iterator for Tlvs<'a> {
    type Item = Result<Tlv, Malformed>;

    ghost next_gives = { YieldsFirstBy (λ tlv. tlv) (λ rest. rest) };

    ghost remaining = { item_count (λ rest. rest) };

    fn next(&mut self) -> Option<Result<Tlv, Malformed>> {
        if self.at == self.region.len() {
            return None;
        }
        match front(self.header, self.region, self.at) {
            Ok(tlv) => {
                self.at = tlv.start + filled(tlv.size);
                Some(Ok(tlv))
            }
            Err(e) => {
                self.at = self.region.len();
                Some(Err(e))
            }
        }
    }
}

// Where the next step is made, after one at a position.
fn after(at: usize, step: Step) -> usize
    requires { after at step < 2 ^ 64 }
    ensures { result ≡ after at step }
{
    match step {
        Step::Next(tlv) => tlv.start + filled(tlv.size),
        Step::End | Step::Fault => at,
    }
}

/// A borrowed region and a position in it, for who goes over its TLVs by steps: it is passed by value, and a step leaves it where it was.
#[derive(Clone, Copy)]
pub struct Reader<'a> {
    payload: &'a [u8],
    at: usize,
}

/// The reader at a position, which may lie past the region's end.
pub fn new<'a>(payload: &'a [u8], at: usize) -> Reader<'a>
    ensures { (result.payload ≡ payload.entry) × (result.at ≡ at) }
{
    Reader { payload, at }
}

/// The TLV at the position, the end or a fault.
pub fn next<'a>(r: Reader<'a>, header: usize) -> Step
    ensures { result ≡ step_at header r.entry.payload.now r.entry.at }
{
    if r.at == r.payload.len() {
        return Step::End;
    }
    match front(header, r.payload, r.at) {
        Ok(tlv) => Step::Next(tlv),
        Err(_) => Step::Fault,
    }
}

/// The reader past the step that was read at its position.
pub fn skip<'a>(r: Reader<'a>, step: Step) -> Reader<'a>
    requires { after r.at step < 2 ^ 64 }
    ensures { (result.payload ≡ r.entry.payload) × (result.at ≡ after r.entry.at step) }
{
    Reader {
        payload: r.payload,
        at: after(r.at, step),
    }
}
