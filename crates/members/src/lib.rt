//! The members in GROUP_IDS: in order, counted, distinct, of type 0 and of the group's VLAN.

#![tactic(auto)]

ghost use Rattle.std.specs.Prelude.{◌≡◌, ◌≤◌, take};
ghost use Rattle.rules.specs.Members.{elem, member_right, members_in};
ghost use Rattle.members.specs.Listed.{listed};
ghost use Rattle.members.specs.Taking.{taken};
ghost use Rattle.rules.specs.Limits.{max_ports};

use rules::{MAX_MEMBERS, Members, Tlv};
use tlv::Tlvs;

const NO_MEMBERS: Members = [0; MAX_MEMBERS];

// The first n numbers have this one among them. All are compared: a search that stops early takes twice as long on lists that are right.
fn contains(lows: &Members, n: usize, low: u16) -> bool
    requires { n ≤ max_ports }
    ensures { result ≡ elem low (take n lows.now) }
{
    let mut there = false;
    for other in &lows[..n] {
        there = there | (*other == low);
    }
    there
}

// The TLV after n members is a member of a group with this VLAN; `there`: its low bits are among those before it.
#[tactic(auto, unfolding(rules::specs::Members::member_right))]
fn member_right(vlan: u16, n: usize, x: Tlv, id: u32, there: bool) -> bool
    ensures { result ≡ member_right vlan n x id there }
{
    if MAX_MEMBERS <= n {
        return false;
    }
    let kind = n as u32 + 1;
    let rule = fields::rule_of(kind);
    (x.kind == kind)
        & (x.size == rule.member_width as usize)
        & (group_id::type_of(id) == 0)
        & (group_id::vlan_of(id) == vlan)
        & !there
}

// The low bits of the TLV after n members, if it is a member of a group with this VLAN.
fn member(region: &[u8], vlan: u16, lows: &Members, n: usize, x: Tlv) -> Option<u16>
    requires { n ≤ max_ports }
    ensures { result ≡ taken region.now vlan (take n lows.now) n x }
{
    let id: u32 = wire::le(region, x.start);
    let low = group_id::low_of(id);
    if member_right(vlan, n, x, id, contains(lows, n, low)) {
        Some(low)
    } else {
        None
    }
}

/// The low bits of the members in a region whose lengths count so many header bytes, those past the last 0.
///
/// # Errors
///
/// The list is not right for GROUP_COUNT. Where only the number of its members is another, or 0, their low bits are handed over all the
/// same. Of a region that is not well formed, or with a TLV that is no member of a group with this VLAN, none are: each number is 0.
pub fn read(region: &[u8], header: usize, vlan: u16, count: u64) -> Result<Members, Members>
    ensures { result ≡ listed count (members_in header region.now vlan) }
{
    let mut lows = NO_MEMBERS;
    let mut n = 0;
    for tlv in Tlvs::new(header, region) {
        let Ok(tlv) = tlv else {
            return Err(NO_MEMBERS);
        };
        let Some(low) = member(region, vlan, &lows, n, tlv) else {
            return Err(NO_MEMBERS);
        };
        lows[n] = low;
        n += 1;
    }
    if (1 <= count) & (n as u64 == count) {
        Ok(lows)
    } else {
        Err(lows)
    }
}
