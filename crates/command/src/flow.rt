//! Flow commands in a CMD_INFO. `ethertype` is its ETHERTYPE, read once.

ghost use Rattle.std.specs.Prelude.{◌≡◌};
ghost use Rattle.rules.specs.Decode.{header_of, ethertype_in, match_of, flow_of, flow_user, flow_in, flow_key_in};
ghost use Rattle.rules.specs.declared.Flow.{Flow};
ghost use Rattle.rules.specs.declared.Command.{Command};
ghost use Rattle.rules.specs.declared.Command.TheVariants.{FlowDel};
ghost use Rattle.command.specs.Answer.{carried_by};

use crate::route;
use fields::Fields;
use rules::{Flow, Match, Status};

// What a flow of table 50 compares.
#[tactic(auto, unfolding(rules::specs::Decode::match_of, rules::specs::Fields::rule_of, rules::specs::Fields::rule_in, rules::specs::Fields::rows))]
fn bridging_of(info: &Fields<'_>) -> Match
    ensures { result ≡ match_of (header_of info.now.terms) info.now.bytes 50 }
{
    Match::Bridging {
        vlan_id: info.be16(fields::VLAN_ID),
        has_mac: info.given(fields::DST_MAC),
        dst_mac: info.value(fields::DST_MAC),
        has_group: info.given(fields::GROUP_ID),
        group_id: info.word(fields::GROUP_ID),
    }
}

fn match_of(info: &Fields<'_>, t: u64, ethertype: u16) -> Match
    requires { ethertype ≡ ethertype_in (header_of info.now.terms) info.now.bytes }
    ensures { result ≡ match_of (header_of info.now.terms) info.now.bytes t }
{
    if t == 0 {
        Match::IngressPort {
            in_pport: info.word(fields::IN_PPORT),
            in_pport_mask: info.word(fields::IN_PPORT_MASK),
        }
    } else if t == 10 {
        Match::Vlan {
            in_pport: info.word(fields::IN_PPORT),
            vlan_id: info.be16(fields::VLAN_ID),
            new_vlan_id: info.be16(fields::NEW_VLAN_ID),
        }
    } else if t == 20 {
        Match::TerminationMac {
            in_pport: info.word(fields::IN_PPORT),
            ethertype: ethertype,
            dst_mac: info.value(fields::DST_MAC),
            vlan_id: info.be16(fields::VLAN_ID),
        }
    } else if t == 30 {
        route::route_of(info, ethertype)
    } else {
        bridging_of(info)
    }
}

#[tactic(auto, unfolding(rules::specs::Decode::flow_of, rules::specs::Fields::rule_of, rules::specs::Fields::rule_in, rules::specs::Fields::rows))]
fn flow_of(info: &Fields<'_>, t: u64, ethertype: u16) -> Flow
    requires { ethertype ≡ ethertype_in (header_of info.now.terms) info.now.bytes }
    ensures { result ≡ flow_of (header_of info.now.terms) info.now.bytes t }
{
    let matching = match_of(info, t, ethertype);
    Flow {
        cookie: info.value(fields::COOKIE),
        priority: info.word(fields::PRIORITY),
        hardtime: info.word(fields::HARDTIME),
        idletime: info.word(fields::IDLETIME),
        goto_tbl: info.half(fields::GOTO_TBL),
        matching: matching,
    }
}

#[tactic(auto, unfolding(rules::specs::Decode::flow_user))]
fn flow_user(t: u64, ethertype: u16) -> u16
    ensures { result ≡ flow_user t ethertype }
{
    if t == 0 {
        fields::FLOW_0
    } else if t == 10 {
        fields::FLOW_10
    } else if t == 20 {
        fields::FLOW_20
    } else if t == 30 {
        route::user(ethertype)
    } else {
        fields::FLOW_50
    }
}

/// The flow of an add or a mod.
///
/// # Errors
///
/// EINVAL without a TBL, ENOTSUP where that is no table, EINVAL where another field is not right.
pub fn flow_in(info: &Fields<'_>) -> Result<Flow, Status>
    ensures { (make : Flow → Command) → carried_by make result ≡ flow_in info.now.terms info.now.bytes make }
{
    if !info.given(fields::TBL) {
        return Err(Status::Einval);
    }
    let t = info.value(fields::TBL);
    let terms = info.terms();
    if !ranges::is_table(terms.version, t) {
        return Err(Status::Enotsup);
    }
    let ethertype = info.be16(fields::ETHERTYPE);
    let flow = flow_of(info, t, ethertype);
    let matching = flow.matching;
    let has_new = info.given(fields::NEW_VLAN_ID);
    if !(info.right_for(flow_user(t, ethertype))
        & route::pair_alone(info, t, ethertype)
        & ranges::match_allowed(terms, flow.goto_tbl, has_new, matching))
    {
        return Err(Status::Einval);
    }
    Ok(flow)
}

/// The cookie of a del.
///
/// # Errors
///
/// EINVAL where it is not right.
#[tactic(auto, unfolding(rules::specs::Decode::flow_key_in, rules::specs::Decode::need, rules::specs::Fields::rule_of, rules::specs::Fields::rule_in, rules::specs::Fields::rows))]
pub fn flow_key_in(info: &Fields<'_>) -> Result<u64, Status>
    ensures { carried_by FlowDel result ≡ flow_key_in info.now.terms info.now.bytes }
{
    if !info.right_for(fields::FLOW_DEL) {
        return Err(Status::Einval);
    }
    Ok(info.value(fields::COOKIE))
}
