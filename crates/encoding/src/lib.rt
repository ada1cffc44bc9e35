// Payloads written (rules, specs/Encode.antt): a flow or a group as its fields in rising type, behind the number of a command.

#![tactic(auto)]

ghost use Rattle.std.specs.Prelude.{◌≡◌, ◌+◌, ◌*◌, ◌-◌, ◌/◌, ◌^◌, ◌≤◌, ◌<◌, false, length, take, get_or};
ghost use Rattle.rules.specs.Choose.{choose};
ghost use Rattle.rules.specs.Bytes.{bytes_of, splice, swap16, swapped};
ghost use Rattle.rules.specs.Version.{current, header_bytes};
ghost use Rattle.rules.specs.Region.{length_field};
ghost use Rattle.rules.specs.Address.{prefix_mask};
ghost use Rattle.rules.specs.Decode.{flow_user};
ghost use Rattle.rules.specs.Fields.{group0, group2, group_many};
ghost use Rattle.rules.specs.Encode.{field_of, tlv_of, region_of, number_bytes, fields_from, flow_has, flow_value, flow_bytes, flow_fields, member_fields, group_fields};
ghost use Rattle.rules.specs.GroupId.{group_vlan, member_id};
ghost use Rattle.rules.specs.Undo.{flow_payload, group_payload};
ghost use Rattle.encoding.specs.Writing.{longest, lead, top, is_wide, flow_user_of, group_user_of, Puts};

use rules::{FIELD_TYPES, FlowEntry, GroupEntry, MAX_MEMBERS, Members};

// Bytes of a payload, at most: a group of 62 members.
pub const LONGEST: usize = 1056;

// CMD_TYPE of each command.
pub const FLOW_ADD: u16 = 3;

pub const FLOW_MOD: u16 = 4;

pub const FLOW_DEL: u16 = 5;

pub const GROUP_ADD: u16 = 7;

pub const GROUP_MOD: u16 = 8;

pub const GROUP_DEL: u16 = 9;

// ---- Fields

// How many of its TLV's header bytes a length counts in the device's version.
const HEADER_BYTES: u64 = 8;

// The length field of a value of so many bytes, in the device's version: the counterpart of `tlv::reader::value_size`.
fn length_field(size: usize) -> u64
    requires { size ≤ longest }
    ensures { result ≡ length_field (header_bytes current) size }
{
    HEADER_BYTES + size as u64
}

// A TLV's first eight bytes: type, length, a pad of 0.
fn put_lead(out: &mut [u8], at: usize, kind: u32, size: usize)
    requires { (at + 8 ≤ length out.old) × (size ≤ longest) }
    ensures { out.new ≡ splice at (lead kind size) out.old }
{
    wire::put(out, at, 4, kind as u64);
    wire::put(out, at + 4, 2, length_field(size));
    wire::put(out, at + 6, 2, 0);
}

// The TLV of a number of so many bytes, and where it ends. Its value has eight bytes at most, so that its fill ends there.
fn put_number(out: &mut [u8], at: usize, kind: u32, width: u8, v: u64) -> usize
    requires { (at + 16 ≤ length out.old) × (width ≤ 8) }
    ensures { Puts result out.new at (tlv_of (field_of kind (bytes_of width v))) out.old 16 }
{
    let size = width as usize;
    put_lead(out, at, kind, size);
    if size == 0 {
        return at + 8;
    }
    wire::put(out, at + 8, 8, 0);
    wire::put(out, at + 8, size, v);
    at + 16
}

// A field of CMD_INFO, at the width of its row; not one of 16 bytes.
fn put_field(out: &mut [u8], at: usize, kind: u32, v: u64) -> usize
    requires { (at + 16 ≤ length out.old) × (is_wide kind ≡ false) }
    ensures { Puts result out.new at (tlv_of (field_of kind (number_bytes kind v))) out.old 16 }
{
    let rule = fields::rule_of(kind);
    put_number(out, at, kind, rule.width, v)
}

// The TLV of a number of 16 bytes, which is big-endian, from two words.
fn put_wide(out: &mut [u8], at: usize, kind: u32, high: u64, low: u64) -> usize
    requires { at + 24 ≤ length out.old }
    ensures { Puts result out.new at (tlv_of (field_of kind (bytes_of 16 (swapped 16 (high * 2 ^ 64 + low))))) out.old 24 }
{
    put_lead(out, at, kind, 16);
    wire::put(out, at + 8, 8, wire::turned(high, 8));
    wire::put(out, at + 16, 8, wire::turned(low, 8));
    at + 24
}

// ---- Masks

const ALL_ONES: u64 = 0xffffffffffffffff;

// A word whose first n bits are ones; all are, from 64 on.
fn ones(n: u8) -> u64
    ensures { result ≡ prefix_mask 64 n }
{
    if 64 <= n {
        return ALL_ONES;
    }
    ALL_ONES - (ALL_ONES >> n)
}

// The word behind that one, in a mask of two words.
fn more_ones(n: u8) -> u64
    ensures { result ≡ prefix_mask 64 (n - 64) }
{
    if n <= 64 {
        return 0;
    }
    ones(n - 64)
}

// ---- Flows

// Whether a flow has a field, of those that its table lists.
fn flow_has(e: FlowEntry, t: u32) -> bool
    ensures { result ≡ flow_has e t }
{
    if t == fields::GROUP_ID {
        return e.has_group;
    }
    if t == fields::NEW_VLAN_ID {
        return e.vlan_id == 0;
    }
    if t == fields::DST_MAC {
        return e.has_mac;
    }
    true
}

// A number of 16 bits with its bytes changed.
fn swapped(v: u16) -> u64
    ensures { result ≡ swap16 v }
{
    (v % 256 * 256 + v / 256) as u64
}

// The upper half of a word, whose four bytes are big-endian.
fn upper(word: u64) -> u64
    ensures { result ≡ swapped 4 (word / 2 ^ 32) }
{
    wire::turned(word / 0x100000000, 4)
}

// The number of a field that stands in a frame's headers: VLANs, ETHERTYPE, the MAC, and an IPv4 address and its mask.
fn header_value(e: FlowEntry, t: u32) -> u64
    requires { (10 < t) × (is_wide t ≡ false) }
    ensures { result ≡ flow_value e t }
{
    if t == fields::VLAN_ID {
        return swapped(e.vlan_id);
    }
    if t == fields::NEW_VLAN_ID {
        return swapped(e.new_vlan_id);
    }
    if t == fields::ETHERTYPE {
        return swapped(e.ethertype);
    }
    if t == fields::DST_MAC {
        return e.dst_mac;
    }
    if t == fields::DST_IP {
        return upper(e.address_high);
    }
    if t == fields::DST_IP_MASK {
        return upper(ones(e.prefix));
    }
    0
}

// The number of a field of a flow.
fn flow_value(e: FlowEntry, t: u32) -> u64
    requires { is_wide t ≡ false }
    ensures { result ≡ flow_value e t }
{
    if t == fields::TBL {
        return e.table as u64;
    }
    if t == fields::PRIORITY {
        return e.priority as u64;
    }
    if t == fields::HARDTIME {
        return e.hardtime as u64;
    }
    if t == fields::IDLETIME {
        return e.idletime as u64;
    }
    if t == fields::COOKIE {
        return e.cookie;
    }
    if t == fields::IN_PPORT {
        return e.in_pport as u64;
    }
    if t == fields::IN_PPORT_MASK {
        return e.in_pport_mask as u64;
    }
    if t == fields::GOTO_TBL {
        return e.goto_tbl as u64;
    }
    if t == fields::GROUP_ID {
        return e.group_id as u64;
    }
    if t < fields::GROUP_ID {
        return 0;
    }
    header_value(e, t)
}

// A field of a flow, by its type, and where it ends.
fn put_flow_value(out: &mut [u8], at: usize, e: FlowEntry, t: u32) -> usize
    requires { at + 24 ≤ length out.old }
    ensures { Puts result out.new at (tlv_of (field_of t (flow_bytes e t))) out.old 24 }
{
    if t == fields::DST_IPV6 {
        return put_wide(out, at, t, e.address_high, e.address_low);
    }
    if t == fields::DST_IPV6_MASK {
        return put_wide(out, at, t, ones(e.prefix), more_ones(e.prefix));
    }
    put_field(out, at, t, flow_value(e, t))
}

// The field of one type, where a flow has it and one who reads uses it, and where it ends.
fn put_flow_field(out: &mut [u8], at: usize, who: u16, e: FlowEntry, t: u32) -> usize
    requires { at + 24 ≤ length out.old }
    ensures { Puts result out.new at (region_of (fields_from who (flow_has e) (flow_bytes e) 1 t)) out.old 24 }
{
    let rule = fields::rule_of(t);
    if fields::has_user(rule.uses, who) & flow_has(e, t) {
        return put_flow_value(out, at, e, t);
    }
    at
}

// The fields of a flow that one who uses them has, and where they end. No field has type 0.
fn put_flow_fields(out: &mut [u8], at: usize, who: u16, e: FlowEntry) -> usize
    requires { at + 1032 ≤ length out.old }
    ensures { Puts result out.new at (region_of (flow_fields who e)) out.old 1032 }
{
    let mut end = at;
    for t in 1..FIELD_TYPES as u32 {
        end = put_flow_field(out, end, who, e, t);
    }
    end
}

// Who reads a route's fields, by the family of its address.
fn route_user(ethertype: u16) -> u16
    ensures { result ≡ flow_user 30 ethertype }
{
    if addresses::is_ipv6(ethertype) {
        return fields::FLOW_30_V6;
    }
    fields::FLOW_30_V4
}

// Who reads a flow's fields: add and mod by the flow's table, or del.
fn flow_user(command: u16, table: u16, ethertype: u16) -> u16
    ensures { result ≡ flow_user_of command table ethertype }
{
    if command == FLOW_DEL {
        return fields::FLOW_DEL;
    }
    if table == 0 {
        return fields::FLOW_0;
    }
    if table == 10 {
        return fields::FLOW_10;
    }
    if table == 20 {
        return fields::FLOW_20;
    }
    if table == 30 {
        return route_user(ethertype);
    }
    fields::FLOW_50
}

// CMD_TYPE, and the first bytes of CMD_INFO, whose region stands in its place already, from byte 24 on to its end.
fn put_top(out: &mut [u8], command: u16, end: usize)
    requires { (24 ≤ end) × (24 ≤ length out.old) × (end ≤ longest) }
    ensures { out.new ≡ splice 0 (top command end) out.old }
{
    put_number(out, 0, 1, 2, command as u64);
    put_lead(out, 16, 2, end - 24);
}

// The payload of a flow's command, at the start of a buffer, and how many bytes it has.
pub fn flow(out: &mut [u8], command: u16, e: FlowEntry) -> usize
    requires { longest ≤ length out.old }
    ensures { Puts result out.new 0 (flow_payload command e) out.old longest }
{
    let end = put_flow_fields(out, 24, flow_user(command, e.table, e.ethertype), e);
    put_top(out, command, end);
    end
}

// ---- Groups

// The members of GROUP_IDS, and where they end.
fn put_members(out: &mut [u8], at: usize, id: u32, count: usize, members: Members) -> usize
    requires { at + 992 ≤ length out.old }
    ensures { Puts result out.new at (region_of (member_fields (group_vlan id) 1 (take count members))) out.old 992 }
{
    let vlan = group_id::vlan_of(id);
    let n = numbers::min(count, MAX_MEMBERS);
    let mut end = at;
    for i in 0..n {
        let kind = i as u32 + 1;
        let rule = fields::rule_of(kind);
        let member = member_id(vlan, members[i]);
        end = put_number(out, end, kind, rule.member_width, member);
    }
    end
}

// The ID of the group of type 0 with a VLAN and low bits.
fn member_id(vlan: u16, low: u16) -> u64
    ensures { result ≡ member_id vlan low }
{
    vlan as u64 * 65536 + low as u64
}

// The ID of a group's first member, which has a VLAN that is given.
fn lower_id(vlan: u16, members: Members) -> u64
    ensures { result ≡ member_id vlan (get_or members 0 0) }
{
    member_id(vlan, members[0])
}

// GROUP_IDS: its members, and then the bytes in front of them.
fn put_nest(out: &mut [u8], at: usize, id: u32, count: usize, members: Members) -> usize
    requires { at + 1000 ≤ length out.old }
    ensures { Puts result out.new at (tlv_of (field_of 13 (region_of (member_fields (group_vlan id) 1 (take count members))))) out.old 1000 }
{
    let end = put_members(out, at + 8, id, count, members);
    put_lead(out, at, fields::GROUP_IDS, end - at - 8);
    end
}

// A flag as a number.
fn flag(is: bool) -> u64
    ensures { result ≡ choose is 1 0 }
{
    if is { 1 } else { 0 }
}

// The fields of a group of type 0.
fn put_single(out: &mut [u8], at: usize, e: GroupEntry) -> usize
    requires { at + 48 ≤ length out.old }
    ensures { Puts result out.new at (region_of (group_fields group0 e)) out.old 48 }
{
    let id = e.id;
    let port = group_id::low_of(id);
    let a = put_field(out, at, fields::OUT_PPORT, port as u64);
    let b = put_field(out, a, fields::GROUP_ID, id as u64);
    put_field(out, b, fields::POP_VLAN, flag(e.pop_vlan))
}

// The fields of a group of type 2. Its one member is the lower group.
fn put_routing(out: &mut [u8], at: usize, e: GroupEntry) -> usize
    requires { at + 80 ≤ length out.old }
    ensures { Puts result out.new at (region_of (group_fields group2 e)) out.old 80 }
{
    let id = e.id;
    let vlan = e.vlan_id;
    let members = e.members;
    let a = put_field(out, at, fields::GROUP_ID, id as u64);
    let b = put_field(out, a, fields::GROUP_ID_LOWER, lower_id(vlan, members));
    let c = put_field(out, b, fields::VLAN_ID, swapped(vlan));
    let d = put_field(out, c, fields::DST_MAC, e.dst_mac);
    put_field(out, d, fields::SRC_MAC, e.src_mac)
}

// The fields of a group of type 3 or 4.
fn put_many(out: &mut [u8], at: usize, e: GroupEntry) -> usize
    requires { at + 1032 ≤ length out.old }
    ensures { Puts result out.new at (region_of (group_fields group_many e)) out.old 1032 }
{
    let id = e.id;
    let count = e.member_count;
    let members = e.members;
    let a = put_field(out, at, fields::GROUP_ID, id as u64);
    let b = put_field(out, a, fields::GROUP_COUNT, count as u64);
    put_nest(out, b, id, count as usize, members)
}

// The fields of a group for a command, by its type; of a del the key alone.
fn put_group_fields(out: &mut [u8], at: usize, command: u16, e: GroupEntry) -> usize
    requires { at + 1032 ≤ length out.old }
    ensures { Puts result out.new at (region_of (group_fields (group_user_of command e.id) e)) out.old 1032 }
{
    let id = e.id;
    if command == GROUP_DEL {
        return put_field(out, at, fields::GROUP_ID, id as u64);
    }
    let t = group_id::type_of(id);
    if t == 0 {
        return put_single(out, at, e);
    }
    if group_id::is_routing(t) {
        return put_routing(out, at, e);
    }
    put_many(out, at, e)
}

// The payload of a group's command, at the start of a buffer, and how many bytes it has.
pub fn group(out: &mut [u8], command: u16, e: GroupEntry) -> usize
    requires { longest ≤ length out.old }
    ensures { Puts result out.new 0 (group_payload command e) out.old longest }
{
    let end = put_group_fields(out, 24, command, e);
    put_top(out, command, end);
    end
}
