//! Flows of table 30: an address and its mask, of the family that ETHERTYPE names.

ghost use Rattle.std.specs.Prelude.{◌≡◌};
ghost use Rattle.rules.specs.Decode.{header_of, ethertype_in, other_absent, pair_alone, route_of, flow_user};

use fields::Fields;
use rules::Match;

pub fn route_of(info: &Fields<'_>, ethertype: u16) -> Match
    ensures { result ≡ route_of (header_of info.now.terms) info.now.bytes ethertype }
{
    let has_group = info.given(fields::GROUP_ID);
    let group_id = info.word(fields::GROUP_ID);
    if addresses::is_ipv6(ethertype) {
        let address = info.be128(fields::DST_IPV6);
        let mask = info.be128(fields::DST_IPV6_MASK);
        return Match::UnicastRouting {
            ethertype: ethertype,
            address_high: address.high,
            address_low: address.low,
            prefix: addresses::ipv6_length(mask.high, mask.low),
            has_group: has_group,
            group_id: group_id,
        };
    }
    let address = info.be32(fields::DST_IP);
    let mask = info.be32(fields::DST_IP_MASK);
    Match::UnicastRouting {
        ethertype: ethertype,
        address_high: address as u64 * 0x100000000,
        address_low: 0,
        prefix: addresses::ipv4_length(mask),
        has_group: has_group,
        group_id: group_id,
    }
}

// The other pair of fields is absent.
#[tactic(auto, unfolding(rules::specs::Decode::other_absent))]
fn other_absent(info: &Fields<'_>, ethertype: u16) -> bool
    ensures { result ≡ other_absent (header_of info.now.terms) info.now.bytes ethertype }
{
    if addresses::is_ipv6(ethertype) {
        return info.absent(fields::DST_IP) & info.absent(fields::DST_IP_MASK);
    }
    info.absent(fields::DST_IPV6) & info.absent(fields::DST_IPV6_MASK)
}

/// Of a flow of table 30, the other pair is absent.
#[tactic(auto, unfolding(rules::specs::Decode::pair_alone))]
pub fn pair_alone(info: &Fields<'_>, t: u64, ethertype: u16) -> bool
    requires { ethertype ≡ ethertype_in (header_of info.now.terms) info.now.bytes }
    ensures { result ≡ pair_alone (header_of info.now.terms) info.now.bytes t }
{
    if t != 30 {
        return true;
    }
    other_absent(info, ethertype)
}

/// Who reads its fields, by the family of its addresses.
#[tactic(auto, unfolding(rules::specs::Decode::flow_user))]
pub fn user(ethertype: u16) -> u16
    ensures { result ≡ flow_user 30 ethertype }
{
    if addresses::is_ipv6(ethertype) {
        fields::FLOW_30_V6
    } else {
        fields::FLOW_30_V4
    }
}
