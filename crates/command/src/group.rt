//! Group commands in a CMD_INFO.

ghost use Rattle.std.specs.Prelude.{◌≡◌, true, false, ◌<◌, eqb};
ghost use Rattle.rules.specs.Fields.{value};
ghost use Rattle.rules.specs.GroupId.{group_type, is_routing};
ghost use Rattle.rules.specs.Members.{Collected, members_right};
ghost use Rattle.rules.specs.Decode.{header_of, group_of, group_allowed, group_user, group_in, group_key_in};
ghost use Rattle.rules.specs.declared.Group.{Group};
ghost use Rattle.rules.specs.declared.Command.{Command};
ghost use Rattle.rules.specs.declared.Command.TheVariants.{GroupDel};
ghost use Rattle.command.specs.Answer.{lows_of, carried_by, answered_by};

use fields::Fields;
use rules::{Group, MAX_MEMBERS, Members, Status};

// The group itself. The count of one with members was compared with them, so it fits 8 bits.
fn group_of(info: &Fields<'_>, id: u32) -> Group
    requires { eqb (group_type id) 0 ≡ false → is_routing (group_type id) ≡ false → value (header_of info.now.terms) info.now.bytes 12 < 256 }
    ensures { result ≡ group_of (header_of info.now.terms) info.now.bytes id }
{
    let t = group_id::type_of(id);
    if t == 0 {
        return Group {
            id: id,
            pop_vlan: info.value(fields::POP_VLAN) == 1,
            member_count: 0,
            vlan_id: 0,
            src_mac: 0,
            dst_mac: 0,
        };
    }
    if group_id::is_routing(t) {
        return Group {
            id: id,
            pop_vlan: false,
            member_count: 1,
            vlan_id: info.be16(fields::VLAN_ID),
            src_mac: info.value(fields::SRC_MAC),
            dst_mac: info.value(fields::DST_MAC),
        };
    }
    Group {
        id: id,
        pop_vlan: false,
        member_count: info.value(fields::GROUP_COUNT) as u8,
        vlan_id: 0,
        src_mac: 0,
        dst_mac: 0,
    }
}

// The members, of type 2 the lower group.
fn members_of(info: &Fields<'_>, id: u32) -> Option<Members>
    ensures { result ≡ lows_of (header_of info.now.terms) info.now.bytes id }
{
    let mut lows = [0; MAX_MEMBERS];
    let t = group_id::type_of(id);
    if t == 0 {
        return Some(lows);
    }
    if group_id::is_routing(t) {
        lows[0] = group_id::low_of(info.word(fields::GROUP_ID_LOWER));
        return Some(lows);
    }
    members::read(
        info.nest(fields::GROUP_IDS),
        info.header(),
        group_id::vlan_of(id),
        info.value(fields::GROUP_COUNT),
    )
    .ok()
}

// The ranges of a group's fields, but for its members.
fn group_allowed(info: &Fields<'_>, id: u32) -> bool
    ensures { (c : Collected) → (eqb (group_type id) 0 ≡ false → is_routing (group_type id) ≡ false → members_right (value (header_of info.now.terms) info.now.bytes 12) c ≡ true) → result ≡ group_allowed info.now.terms info.now.bytes id c }
{
    let terms = info.terms();
    let t = group_id::type_of(id);
    let known = group_id::allowed(terms.version, id);
    if t == 0 {
        let port = info.value(fields::OUT_PPORT);
        return known
            & ((port == group_id::low_of(id) as u64)
                & (port <= terms.ports as u64)
                & (info.value(fields::POP_VLAN) <= 1));
    }
    if group_id::is_routing(t) {
        let vlan = info.be16(fields::VLAN_ID);
        let lower = info.word(fields::GROUP_ID_LOWER);
        return known & ranges::lower_fits(vlan, lower);
    }
    known
}

#[tactic(auto, unfolding(rules::specs::Decode::group_user))]
fn group_user(id: u32) -> u16
    ensures { result ≡ group_user id }
{
    let t = group_id::type_of(id);
    if t == 0 {
        return fields::GROUP_0;
    }
    if group_id::is_routing(t) {
        fields::GROUP_2
    } else {
        fields::GROUP_MANY
    }
}

/// The group of an add or a mod, and its members.
///
/// # Errors
///
/// EINVAL where a field or a member is not right.
pub fn group_in(info: &Fields<'_>) -> Result<(Group, Members), Status>
    ensures { (make : Group → Command) → answered_by make result ≡ group_in info.now.terms info.now.bytes make }
{
    let id = info.word(fields::GROUP_ID);
    let members = members_of(info, id).ok_or(Status::Einval)?;
    if !(info.right_for(group_user(id)) & group_allowed(info, id)) {
        return Err(Status::Einval);
    }
    Ok((group_of(info, id), members))
}

/// The ID of a del.
///
/// # Errors
///
/// EINVAL where it is not right.
#[tactic(auto, unfolding(rules::specs::Decode::group_key_in, rules::specs::Decode::need, rules::specs::Fields::rule_of, rules::specs::Fields::rule_in, rules::specs::Fields::rows))]
pub fn group_key_in(info: &Fields<'_>) -> Result<u32, Status>
    ensures { carried_by GroupDel result ≡ group_key_in info.now.terms info.now.bytes }
{
    let id = info.word(fields::GROUP_ID);
    if !(info.right_for(fields::GROUP_DEL) & group_id::allowed(info.terms().version, id)) {
        return Err(Status::Einval);
    }
    Ok(id)
}
