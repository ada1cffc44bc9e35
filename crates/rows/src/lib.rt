// Rows of words and the entries that they hold (rules, specs/Rows.antt): a row is unpacked by one function and packed by another, and
// packing is proved to be undone by unpacking. In words of 32 bits nearly every field is one word; those of 64 bits and MACs are two, the lower first.

#![tactic(auto)]

ghost use Rattle.std.specs.Prelude.{◌≡◌, not, ◌+◌, ◌*◌, ◌%◌, ◌/◌, eqb};
ghost use Rattle.rules.specs.Rows.{entry_in, group_in, joined};

use rules::{FlowEntry, FlowRow, GroupEntry, GroupHead, Members};

// ---- Words

fn wide(x: u32) -> u64
    ensures { result ≡ x }
{
    x as u64
}

// A number of 64 bits from two words.
pub fn join(low: u32, high: u32) -> u64
    ensures { result ≡ joined low high }
{
    wide(low) + wide(high) * 4294967296
}

fn low(x: u64) -> u32
    ensures { result ≡ x % 4294967296 }
{
    (x % 4294967296) as u32
}

fn high(x: u64) -> u32
    ensures { result ≡ x / 4294967296 }
{
    (x / 4294967296) as u32
}

fn short(x: u32) -> u16
    ensures { result ≡ x % 65536 }
{
    (x % 65536) as u16
}

fn from_short(x: u16) -> u32
    ensures { result % 65536 ≡ x }
{
    x as u32
}

fn byte(x: u32) -> u8
    ensures { result ≡ x % 256 }
{
    (x % 256) as u8
}

fn from_byte(x: u8) -> u32
    ensures { result % 256 ≡ x }
{
    x as u32
}

pub fn flag(x: u32) -> bool
    ensures { result ≡ not (eqb x 0) }
{
    x != 0
}

fn from_flag(b: bool) -> u32
    ensures { not (eqb result 0) ≡ b }
{
    if b { 1 } else { 0 }
}

// ---- Flows

// The flow that a row holds.
pub fn entry_of(row: FlowRow) -> FlowEntry
    ensures { result ≡ entry_in row }
{
    FlowEntry {
        cookie: join(row[0], row[1]),
        dst_mac: join(row[2], row[3]),
        address_high: join(row[18], row[19]),
        address_low: join(row[20], row[21]),
        priority: row[4],
        hardtime: row[5],
        idletime: row[6],
        in_pport: row[7],
        in_pport_mask: row[8],
        group_id: row[9],
        table: short(row[10]),
        goto_tbl: short(row[11]),
        vlan_id: short(row[12]),
        new_vlan_id: short(row[13]),
        ethertype: short(row[16]),
        prefix: byte(row[17]),
        has_mac: flag(row[14]),
        has_group: flag(row[15]),
    }
}

// A row that holds a flow.
pub fn row_of(e: FlowEntry) -> FlowRow
    ensures { entry_in result ≡ e }
{
    [
        low(e.cookie),
        high(e.cookie),
        low(e.dst_mac),
        high(e.dst_mac),
        e.priority,
        e.hardtime,
        e.idletime,
        e.in_pport,
        e.in_pport_mask,
        e.group_id,
        from_short(e.table),
        from_short(e.goto_tbl),
        from_short(e.vlan_id),
        from_short(e.new_vlan_id),
        from_flag(e.has_mac),
        from_flag(e.has_group),
        from_short(e.ethertype),
        from_byte(e.prefix),
        low(e.address_high),
        high(e.address_high),
        low(e.address_low),
        high(e.address_low),
    ]
}

// ---- Groups

// The group that a head and its members make.
pub fn group_of(head: GroupHead, members: Members) -> GroupEntry
    ensures { result ≡ group_in (head, members) }
{
    GroupEntry {
        id: head[0],
        pop_vlan: flag(head[1]),
        member_count: byte(head[2]),
        vlan_id: short(head[3]),
        src_mac: join(head[4], head[5]),
        dst_mac: join(head[6], head[7]),
        members: members,
    }
}

// The head of a group; its members stand in their row as they are.
pub fn head_of(g: GroupEntry) -> GroupHead
    ensures { group_in (result, g.members) ≡ g }
{
    [
        g.id,
        from_flag(g.pop_vlan),
        from_byte(g.member_count),
        from_short(g.vlan_id),
        low(g.src_mac),
        high(g.src_mac),
        low(g.dst_mac),
        high(g.dst_mac),
    ]
}
