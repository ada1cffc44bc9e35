// The ranges of what a command's fields hold. Every function is equal to a rule of `rules`.

#![tactic(auto)]

ghost use Rattle.std.specs.Prelude.{◌≡◌, Bool, ℕ};
ghost use Rattle.rules.specs.Decode.{group_fits, new_vlan_fits, match_allowed, is_table, lower_fits};
ghost use Rattle.rules.specs.declared.Terms.{Terms};
ghost use Rattle.rules.specs.declared.Match.TheVariants.{Vlan, TerminationMac, UnicastRouting, Bridging};

use rules::{Match, Terms};

// ---- Flows

// The tables that flows may be put into.
#[tactic(auto, unfolding(rules::specs::Decode::is_table))]
pub fn is_table(version: u16, t: u64) -> bool
    ensures { result ≡ is_table version t }
{
    (t == 0) | (t == 10) | (t == 50) | (group_id::routes(version) & ((t == 20) | (t == 30)))
}

#[tactic(auto, unfolding(rules::specs::Decode::new_vlan_fits))]
fn new_vlan_fits(vlan: u16, has_new: bool, new: u16) -> bool
    ensures { result ≡ new_vlan_fits vlan has_new new }
{
    if vlan == 0 {
        has_new & group_id::vlan_allowed(new)
    } else {
        !has_new & group_id::vlan_allowed(vlan)
    }
}

// A given group has the flow's VLAN, and the type that its MAC asks for.
#[tactic(auto, unfolding(rules::specs::Decode::group_fits))]
fn group_fits(vlan: u16, has_mac: bool, mac: u64, id: u32) -> bool
    ensures { result ≡ group_fits vlan has_mac mac id }
{
    let t = group_id::type_of(id);
    let same = group_id::vlan_of(id) == vlan;
    if !has_mac {
        return same & (t == 4);
    }
    if mac % 2 == 0 {
        same & (t == 0)
    } else {
        same & group_id::has_members(t)
    }
}

// The ranges of a flow's fields in table 10; the other tables follow.
#[tactic(auto, unfolding(rules::specs::Decode::match_allowed))]
fn vlan_flow_allowed(
    terms: Terms,
    goto_tbl: u16,
    has_new: bool,
    in_pport: u32,
    vlan_id: u16,
    new_vlan_id: u16,
) -> bool
    ensures { result ≡ match_allowed terms goto_tbl has_new (Vlan in_pport vlan_id new_vlan_id) }
{
    (1 <= in_pport)
        & (in_pport <= terms.ports)
        & ((goto_tbl == 20) | (goto_tbl == 0))
        & new_vlan_fits(vlan_id, has_new, new_vlan_id)
}

// In table 20; any MAC will do.
#[tactic(auto, unfolding(rules::specs::Decode::match_allowed))]
fn termination_allowed(
    terms: Terms,
    goto_tbl: u16,
    in_pport: u32,
    ethertype: u16,
    vlan_id: u16,
) -> bool
    ensures { (new : Bool) (mac : ℕ) → result ≡ match_allowed terms goto_tbl new (TerminationMac in_pport ethertype mac vlan_id) }
{
    (1 <= in_pport)
        & (in_pport <= terms.ports)
        & addresses::is_routed_type(ethertype)
        & group_id::vlan_allowed(vlan_id)
        & (goto_tbl == 30)
}

// In table 30; the lower word of an address may be any.
#[tactic(auto, unfolding(rules::specs::Decode::match_allowed))]
fn routing_allowed(
    goto_tbl: u16,
    ethertype: u16,
    high: u64,
    prefix: u8,
    has_group: bool,
    id: u32,
) -> bool
    ensures { (terms : Terms) (new : Bool) (low : ℕ) → result ≡ match_allowed terms goto_tbl new (UnicastRouting ethertype high low prefix has_group id) }
{
    addresses::is_routed_type(ethertype)
        & (prefix <= addresses::width_of(ethertype))
        & addresses::is_unicast(ethertype, high)
        & ((goto_tbl == 60) | (goto_tbl == 0))
        & (!has_group | group_id::is_routing(group_id::type_of(id)))
}

// In table 50.
#[tactic(auto, unfolding(rules::specs::Decode::match_allowed))]
fn bridging_allowed(
    goto_tbl: u16,
    vlan_id: u16,
    has_mac: bool,
    mac: u64,
    has_group: bool,
    id: u32,
) -> bool
    ensures { (terms : Terms) (new : Bool) → result ≡ match_allowed terms goto_tbl new (Bridging vlan_id has_mac mac has_group id) }
{
    group_id::vlan_allowed(vlan_id)
        & ((goto_tbl == 60) | (goto_tbl == 0))
        & (!has_group | group_fits(vlan_id, has_mac, mac, id))
}

// The ranges of a flow's fields, by its table.
pub fn match_allowed(terms: Terms, goto_tbl: u16, has_new: bool, m: Match) -> bool
    ensures { result ≡ match_allowed terms goto_tbl has_new m }
{
    match m {
        Match::IngressPort {
            in_pport: _,
            in_pport_mask: _,
        } => (goto_tbl == 10) | (goto_tbl == 0),
        Match::Vlan {
            in_pport,
            vlan_id,
            new_vlan_id,
        } => vlan_flow_allowed(terms, goto_tbl, has_new, in_pport, vlan_id, new_vlan_id),
        Match::TerminationMac {
            in_pport,
            ethertype,
            dst_mac: _,
            vlan_id,
        } => termination_allowed(terms, goto_tbl, in_pport, ethertype, vlan_id),
        Match::UnicastRouting {
            ethertype,
            address_high: high,
            address_low: _,
            prefix,
            has_group,
            group_id,
        } => routing_allowed(goto_tbl, ethertype, high, prefix, has_group, group_id),
        Match::Bridging {
            vlan_id,
            has_mac,
            dst_mac,
            has_group,
            group_id,
        } => bridging_allowed(goto_tbl, vlan_id, has_mac, dst_mac, has_group, group_id),
    }
}

// ---- Groups

// The lower group of a group of type 2 has type 0 and the VLAN.
#[tactic(auto, unfolding(rules::specs::Decode::lower_fits))]
pub fn lower_fits(vlan: u16, lower: u32) -> bool
    ensures { result ≡ lower_fits vlan lower }
{
    group_id::vlan_allowed(vlan)
        & (group_id::type_of(lower) == 0)
        & (group_id::vlan_of(lower) == vlan)
}
