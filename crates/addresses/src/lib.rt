//! Addresses and prefixes (rules, specs/Address.antt). An address of 32 or 128 bits stands in the upper bits of two words of 64, so that one
//! comparison of first bits serves both widths; a mask is known by its length.

#![tactic(auto)]

ghost use Rattle.std.specs.Prelude.{◌≡◌, min, ◌+◌, ◌*◌, ◌-◌, ◌/◌, ◌^◌, ◌≤◌};
ghost use Rattle.rules.specs.Address.{prefix_mask, prefix_length, agree, is_ipv6, is_routed_type, address_bits, address_in, is_unicast};

mod address;

pub use address::Address;

const IPV4: u16 = 0x0800;

const IPV6: u16 = 0x86dd;

// ---- The two families

/// Whether the EtherType is that of IPv6.
#[tactic(auto, unfolding(rules::specs::Address::is_ipv6))]
pub fn is_ipv6(ethertype: u16) -> bool
    ensures { result ≡ is_ipv6 ethertype }
{
    ethertype == IPV6
}

/// Whether the EtherType is one of the two families.
#[tactic(auto, unfolding(rules::specs::Address::is_routed_type))]
pub fn is_routed_type(ethertype: u16) -> bool
    ensures { result ≡ is_routed_type ethertype }
{
    (ethertype == IPV4) | is_ipv6(ethertype)
}

/// Whether an address is one of a single host, by its first byte.
#[tactic(auto, unfolding(rules::specs::Address::is_unicast))]
pub fn is_unicast(ethertype: u16, high: u64) -> bool
    ensures { result ≡ is_unicast ethertype high }
{
    let first = high / 0x100000000000000;
    if is_ipv6(ethertype) {
        return first != 0xff;
    }
    first < 224
}

// ---- Masks

// The number whose lowest bits are ones.
fn ones(count: u32) -> u128
    requires { count ≤ 128 }
    ensures { result ≡ 2 ^ count - 1 }
{
    if count == 128 {
        u128::MAX
    } else {
        (1 << count) - 1
    }
}

// The length of a mask, or one more than it has bits where it is no prefix mask.
fn length_of<A: Address>(mask: A) -> u8
    ensures { result ≡ prefix_length A.BITS (A.number mask) }
{
    let length = mask.leading_ones();
    if mask.to_u128() == ones(A::BITS) - ones(A::BITS - length) {
        length as u8
    } else {
        A::BITS as u8 + 1
    }
}

/// The length of an IPv4 mask, or 33 where it is no prefix mask.
pub fn ipv4_length(mask: u32) -> u8
    ensures { result ≡ prefix_length 32 mask }
{
    length_of(mask)
}

/// The length of an IPv6 mask in two words, or 129 where it is no prefix mask.
pub fn ipv6_length(high: u64, low: u64) -> u8
    ensures { result ≡ prefix_length 128 (high * 2 ^ 64 + low) }
{
    length_of((high as u128) * 0x10000000000000000 + low as u128)
}

// ---- Comparing

// The first n bits of a word.
fn first_bits(word: u64, n: u8) -> u64
    requires { n ≤ 64 }
    ensures { result ≡ word / 2 ^ (64 - n) }
{
    if n == 0 {
        return 0;
    }
    word >> (64 - n)
}

/// How many bits an address of the family has.
#[tactic(auto, unfolding(rules::specs::Address::address_bits, rules::specs::Address::address_bytes))]
pub fn width_of(ethertype: u16) -> u8
    ensures { result ≡ address_bits ethertype }
{
    if is_ipv6(ethertype) { 128 } else { 32 }
}

fn shorter(a: u8, b: u8) -> u8
    ensures { result ≡ min a b }
{
    if a < b { a } else { b }
}

/// Whether two addresses agree under the mask of a length. Each is in two words, as the rows of the C interface and a frame's headers hold it.
pub fn agree(
    ethertype: u16,
    prefix: u8,
    high: u64,
    low: u64,
    other_high: u64,
    other_low: u64,
) -> bool
    ensures { result ≡ agree (address_bits ethertype) prefix (address_in (address_bits ethertype) high low) (address_in (address_bits ethertype) other_high other_low) }
{
    let n = shorter(prefix, width_of(ethertype));
    if n <= 64 {
        return first_bits(high, n) == first_bits(other_high, n);
    }
    if high != other_high {
        return false;
    }
    first_bits(low, n - 64) == first_bits(other_low, n - 64)
}
