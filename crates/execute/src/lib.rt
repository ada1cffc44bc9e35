// A decoded payload carried out on the tables, where they stand: how many entries are live after it, or its status.

#![tactic(auto)]

ghost use Rattle.std.specs.Prelude.{ℕ, List, ◌≡◌, ◌≢◌, Err, IfErr};
ghost use Rattle.rules.specs.declared.Status.TheVariants.{Ok};
ghost use Rattle.rules.specs.Tables.{arrays, tables_of, stored_flow, flow_entry, group_entry, carry_out};
ghost use Rattle.execute.specs.Outcome.{Executes, Commands, OnGroups};
ghost use Rattle.rules.specs.declared.Command.TheVariants.{GroupAdd, GroupMod, GroupDel};
ghost use Rattle.rules.specs.declared.Match.TheVariants.{IngressPort, Vlan, TerminationMac, UnicastRouting, Bridging};

use rules::{
    Command, Counts, Decoding, Flow, FlowEntry, FlowRows, Group, GroupEntry, GroupHeads,
    GroupMembers, Match, Members, Status,
};

// A stored flow with the fields that every table has, the others 0: table 0's with none of its own.
fn common_entry(f: Flow) -> FlowEntry
    ensures { result ≡ stored_flow f (IngressPort 0 0) }
{
    FlowEntry {
        cookie: f.cookie,
        dst_mac: 0,
        address_high: 0,
        address_low: 0,
        priority: f.priority,
        hardtime: f.hardtime,
        idletime: f.idletime,
        in_pport: 0,
        in_pport_mask: 0,
        group_id: 0,
        table: 0,
        goto_tbl: f.goto_tbl,
        vlan_id: 0,
        new_vlan_id: 0,
        ethertype: 0,
        prefix: 0,
        has_mac: false,
        has_group: false,
    }
}

// A stored flow of each table, its own fields over the common ones.

fn ingress_entry(f: Flow, in_pport: u32, in_pport_mask: u32) -> FlowEntry
    ensures { result ≡ stored_flow f (IngressPort in_pport in_pport_mask) }
{
    let mut e = common_entry(f);
    e.in_pport = in_pport;
    e.in_pport_mask = in_pport_mask;
    e
}

fn vlan_entry(f: Flow, in_pport: u32, vlan_id: u16, new_vlan_id: u16) -> FlowEntry
    ensures { result ≡ stored_flow f (Vlan in_pport vlan_id new_vlan_id) }
{
    let mut e = common_entry(f);
    e.table = 10;
    e.in_pport = in_pport;
    e.vlan_id = vlan_id;
    e.new_vlan_id = new_vlan_id;
    e
}

fn termination_entry(
    f: Flow,
    in_pport: u32,
    ethertype: u16,
    dst_mac: u64,
    vlan_id: u16,
) -> FlowEntry
    ensures { result ≡ stored_flow f (TerminationMac in_pport ethertype dst_mac vlan_id) }
{
    let mut e = common_entry(f);
    e.table = 20;
    e.in_pport = in_pport;
    e.ethertype = ethertype;
    e.dst_mac = dst_mac;
    e.vlan_id = vlan_id;
    e.has_mac = true;
    e
}

fn routing_entry(
    f: Flow,
    ethertype: u16,
    high: u64,
    low: u64,
    prefix: u8,
    has_group: bool,
    group_id: u32,
) -> FlowEntry
    ensures { result ≡ stored_flow f (UnicastRouting ethertype high low prefix has_group group_id) }
{
    let mut e = common_entry(f);
    e.table = 30;
    e.ethertype = ethertype;
    e.address_high = high;
    e.address_low = low;
    e.prefix = prefix;
    e.has_group = has_group;
    e.group_id = group_id;
    e
}

fn bridging_entry(
    f: Flow,
    vlan_id: u16,
    has_mac: bool,
    dst_mac: u64,
    has_group: bool,
    group_id: u32,
) -> FlowEntry
    ensures { result ≡ stored_flow f (Bridging vlan_id has_mac dst_mac has_group group_id) }
{
    let mut e = common_entry(f);
    e.table = 50;
    e.vlan_id = vlan_id;
    e.has_mac = has_mac;
    e.dst_mac = dst_mac;
    e.has_group = has_group;
    e.group_id = group_id;
    e
}

/// A flow as it is stored: with the fields of its table.
pub fn flow_entry(f: Flow) -> FlowEntry
    ensures { result ≡ flow_entry f }
{
    let m = f.matching;
    match m {
        Match::IngressPort {
            in_pport,
            in_pport_mask,
        } => ingress_entry(f, in_pport, in_pport_mask),
        Match::Vlan {
            in_pport,
            vlan_id,
            new_vlan_id,
        } => vlan_entry(f, in_pport, vlan_id, new_vlan_id),
        Match::TerminationMac {
            in_pport,
            ethertype,
            dst_mac,
            vlan_id,
        } => termination_entry(f, in_pport, ethertype, dst_mac, vlan_id),
        Match::UnicastRouting {
            ethertype,
            address_high: high,
            address_low: low,
            prefix,
            has_group,
            group_id,
        } => routing_entry(f, ethertype, high, low, prefix, has_group, group_id),
        Match::Bridging {
            vlan_id,
            has_mac,
            dst_mac,
            has_group,
            group_id,
        } => bridging_entry(f, vlan_id, has_mac, dst_mac, has_group, group_id),
    }
}

fn group_entry(g: Group, members: Members) -> GroupEntry
    ensures { result ≡ group_entry g members }
{
    GroupEntry {
        id: g.id,
        pop_vlan: g.pop_vlan,
        member_count: g.member_count,
        vlan_id: g.vlan_id,
        src_mac: g.src_mac,
        dst_mac: g.dst_mac,
        members: members,
    }
}

// The commands of the group table. Given back are the counts after it; an error leaves the tables.

pub fn group_add(
    g: Group,
    m: Members,
    counts: Counts,
    heads: &mut GroupHeads,
    members: &mut GroupMembers,
) -> Result<Counts, Status>
    ensures outcome { OnGroups result counts heads.old members.old heads.new members.new (GroupAdd g) m }
    ensures refusal { IfErr result (λ e. e ≢ Ok) }
{
    let groups = tables::group_add(heads, members, counts.groups, group_entry(g, m))?;
    Ok(Counts { groups, ..counts })
}

pub fn group_mod(
    g: Group,
    m: Members,
    counts: Counts,
    heads: &mut GroupHeads,
    members: &mut GroupMembers,
) -> Result<Counts, Status>
    ensures outcome { OnGroups result counts heads.old members.old heads.new members.new (GroupMod g) m }
    ensures refusal { IfErr result (λ e. e ≢ Ok) }
{
    let groups = tables::group_mod(heads, members, counts.groups, group_entry(g, m))?;
    Ok(Counts { groups, ..counts })
}

pub fn group_del(
    id: u32,
    counts: Counts,
    heads: &mut GroupHeads,
    members: &mut GroupMembers,
) -> Result<Counts, Status>
    ensures outcome { (m : List ℕ) → OnGroups result counts heads.old members.old heads.new members.new (GroupDel id) m }
    ensures refusal { IfErr result (λ e. e ≢ Ok) }
{
    let groups = tables::group_del(heads, members, counts.groups, id)?;
    Ok(Counts { groups, ..counts })
}

// A command, on the one table that it is about.
fn command(
    c: Command,
    m: Members,
    counts: Counts,
    flows: &mut FlowRows,
    heads: &mut GroupHeads,
    members: &mut GroupMembers,
) -> Result<Counts, Status>
    ensures outcome { Commands result counts (arrays flows.old heads.old members.old) (arrays flows.new heads.new members.new) c m }
    ensures refusal { IfErr result (λ e. e ≢ Ok) }
{
    let live = match c {
        Command::FlowAdd(f) => tables::flow_add(flows, counts.flows, flow_entry(f))?,
        Command::FlowMod(f) => tables::flow_mod(flows, counts.flows, flow_entry(f))?,
        Command::FlowDel(cookie) => tables::flow_del(flows, counts.flows, cookie)?,
        Command::GroupAdd(g) => return group_add(g, m, counts, heads, members),
        Command::GroupMod(g) => return group_mod(g, m, counts, heads, members),
        Command::GroupDel(id) => return group_del(id, counts, heads, members),
    };
    Ok(Counts {
        flows: live,
        ..counts
    })
}

/// Carries out what a payload asks for, and gives the counts after it. An error is the status of the payload's fault or of the command,
/// which changes nothing.
pub fn execute(
    d: Decoding,
    counts: Counts,
    flows: &mut FlowRows,
    heads: &mut GroupHeads,
    members: &mut GroupMembers,
) -> Result<Counts, Status>
    ensures outcome { Executes result counts (arrays flows.old heads.old members.old) (arrays flows.new heads.new members.new) (carry_out (tables_of counts (arrays flows.old heads.old members.old)) d) }
    ensures refusal { d.what ≢ Err Ok → IfErr result (λ e. e ≢ Ok) }
{
    let c = d.what?;
    command(c, d.members, counts, flows, heads, members)
}
