// What is read of a frame: whether it is one, and what the tables look at in it. Bytes past its end read as 0.

#![tactic(auto)]

ghost use Rattle.std.specs.Prelude.{◌+◌, ◌≤◌, ◌≡◌, leb, length, get_or};
ghost use Rattle.rules.specs.Choose.{choose};
ghost use Rattle.rules.specs.Bytes.{le_at, swap16};
ghost use Rattle.rules.specs.Address.{is_ipv6, address_bits, address_in};
ghost use Rattle.rules.specs.Frame.{is_tagged, is_frame, frame_vlan, headers_of};
ghost use Rattle.deciding.specs.Way.{headers_in};
ghost use Rattle.headers.specs.Address.{address_at};

use deciding::Headers;
use wire::Halves;

fn byte(f: &[u8], i: usize) -> u8
    ensures { result ≡ get_or f.now i 0 }
{
    if i < f.len() { f[i] } else { 0 }
}

fn is_tagged(f: &[u8]) -> bool
    ensures { result ≡ is_tagged f.now }
{
    (byte(f, 12) == 0x81) & (byte(f, 13) == 0x00)
}

pub fn is_frame(f: &[u8]) -> bool
    ensures { result ≡ is_frame f.now }
{
    (14 <= f.len()) & (f.len() <= 9216) & (!is_tagged(f) | (18 <= f.len()))
}

// Bytes 14 and 15, which stand big-endian.
fn tag(f: &[u8]) -> u16
    ensures { result ≡ swap16 (le_at 2 f.now 14) }
{
    wire::be16(f, 14)
}

// The low 12 bits of a tagged frame's tag.
fn frame_vlan(f: &[u8]) -> u16
    ensures { result ≡ frame_vlan f.now }
{
    if is_tagged(f) {
        return tag(f) & 0xfff;
    }
    0
}

// Where the EtherType stands, and what follows it: behind the tag where there is one.
fn type_at(f: &[u8]) -> usize
    ensures { (result ≡ choose (is_tagged f.now) 16 12) × (result ≤ 16) }
{
    if is_tagged(f) { 16 } else { 12 }
}

// The destination address of the EtherType's header, which begins at a position, in the upper bits of two words.
fn address_of(f: &[u8], ethertype: u16, at: usize) -> Halves
    requires { at ≤ 18 }
    ensures { address_in (address_bits ethertype) result.high result.low ≡ address_at f.now ethertype at }
{
    if addresses::is_ipv6(ethertype) {
        return wire::be128(f, at + 24);
    }
    Halves {
        high: wire::be::<u32>(f, at + 16) as u64 * 4294967296,
        low: 0,
    }
}

// Whether the frame has the whole of that header.
fn has_header(f: &[u8], ethertype: u16, at: usize) -> bool
    requires { at ≤ 18 }
    ensures { result ≡ leb (at + choose (is_ipv6 ethertype) 40 20) (length f.now) }
{
    if addresses::is_ipv6(ethertype) {
        return at + 40 <= f.len();
    }
    at + 20 <= f.len()
}

// What the tables look at in a frame.
pub fn headers_of(f: &[u8]) -> Headers
    ensures { headers_in result ≡ headers_of f.now }
{
    let at = type_at(f);
    let ethertype = wire::be16(f, at);
    let address = address_of(f, ethertype, at + 2);
    Headers {
        mac: wire::le48(f, 0),
        address_high: address.high,
        address_low: address.low,
        vlan: frame_vlan(f),
        ethertype: ethertype,
        routable: has_header(f, ethertype, at + 2),
    }
}
