// A group's outputs (document 01: copies), resolved and written into a list.

#![tactic(auto)]

ghost use Rattle.std.specs.Prelude.{◌≤◌, ◌≡◌, true, [], ltb, length};
ghost use Rattle.rules.specs.Choose.{choose};
ghost use Rattle.rules.specs.GroupId.{group_type, member_id};
ghost use Rattle.rules.specs.Keyed.{find};
ghost use Rattle.rules.specs.Limits.{list_numbers};
ghost use Rattle.rules.specs.Tables.{live_groups, id_of};
ghost use Rattle.rules.specs.Frame.{bridged, group_outputs, keep, found_outputs};
ghost use Rattle.copies.specs.Copies.{rewrite_in};
ghost use Rattle.outputs.specs.Outputs.{Passed, Sought, named, outputs_of, Stands, with_room, Lists, Resolves};

use copies::Rewrite;
use rules::{GroupEntry, GroupHeads, GroupMembers, LIST_NUMBERS, MAX_MEMBERS, Registers};

// The groups of type 0 that a group stands for, by their VLAN and their low 16 bits in order, and how a frame leaves by them.
#[derive(Clone, Copy)]
pub struct Members {
    pub vlan: u16,
    pub count: usize,
    pub rewrite: Rewrite,
    pub lows: [u16; MAX_MEMBERS],
}

// Where the search for an ID ended, and whether the ID stands there.
#[derive(Clone, Copy)]
struct Place {
    at: usize,
    held: bool,
}

// ---- Group IDs

// The ID of the group of type 0 with a VLAN and low bits.
fn member_id(vlan: u16, low: u16) -> u32
    ensures { result ≡ member_id vlan low }
{
    vlan as u32 * 65536 + low as u32
}

// The first live head from a place on whose ID is not lower. What stands before that place has to be lower.
fn seek(heads: &GroupHeads, count: usize, id: u32, from: usize) -> Place
    requires { Passed heads.now id from }
    ensures { Sought count heads.now id result.at result.held }
{
    let all = &heads[..];
    let n = count.min(all.len());
    let mut at = from;
    while at < n {
        let k = heads[at][0];
        if id <= k {
            return Place { at, held: k == id };
        }
        at += 1;
    }
    Place { at, held: false }
}

// ---- Members

fn bridged(vlan: u16) -> Rewrite
    ensures { rewrite_in result ≡ bridged vlan }
{
    Rewrite {
        vlan,
        src_mac: 0,
        dst_mac: 0,
        routed: false,
    }
}

fn routed(vlan: u16, src_mac: u64, dst_mac: u64) -> Rewrite
    ensures { rewrite_in result ≡ record { vlan = vlan; source = src_mac; destination = dst_mac; routed = true } }
{
    Rewrite {
        vlan,
        src_mac,
        dst_mac,
        routed: true,
    }
}

fn no_members() -> Members
    ensures { Stands result (λ groups. []) }
{
    Members {
        vlan: 0,
        count: 0,
        rewrite: bridged(0),
        lows: [0u16; MAX_MEMBERS],
    }
}

// A group of type 0 stands for itself, so that one loop resolves every group.
fn itself(id: u32, vlan: u16) -> Members
    requires { group_type id ≡ 0 }
    ensures { Stands result (named vlan id) }
{
    let mut lows = [0u16; MAX_MEMBERS];
    lows[0] = group_id::low_of(id);
    Members {
        vlan: group_id::vlan_of(id),
        count: 1,
        rewrite: bridged(vlan),
        lows,
    }
}

// The members of any other group: those of type 2 have the VLAN that it gives.
fn members_in(g: GroupEntry, vlan: u16) -> Members
    requires { group_type g.id ≡ 0 → ⊥ }
    ensures { Stands result (λ groups. group_outputs groups vlan g) }
{
    let kind = group_id::type_of(g.id);
    let lows = g.members;
    if group_id::is_routing(kind) {
        let rewrite = routed(g.vlan_id, g.src_mac, g.dst_mac);
        return Members {
            vlan: g.vlan_id,
            count: g.member_count as usize,
            rewrite,
            lows,
        };
    }
    if group_id::has_members(kind) {
        let rewrite = bridged(vlan);
        return Members {
            vlan: group_id::vlan_of(g.id),
            count: g.member_count as usize,
            rewrite,
            lows,
        };
    }
    no_members()
}

// Both arrays are lent as slices, which tells that they are as long as each other.
fn members_of(
    heads: &GroupHeads,
    members: &GroupMembers,
    count: usize,
    vlan: u16,
    id: u32,
) -> Members
    ensures { outputs_of result (live_groups count heads.now members.now) ≡ named vlan id (live_groups count heads.now members.now) }
{
    let all = &heads[..];
    let lows = &members[..];
    if group_id::type_of(id) == 0 {
        return itself(id, vlan);
    }
    let p = seek(heads, count, id, 0);
    if p.held {
        let at = p.at;
        return members_in(rows::group_of(heads[at], members[at]), vlan);
    }
    no_members()
}

// ---- Outputs

// Where the search for an ID starts, after the one for `last` ended at j: the entries that were passed are below both, unless
// the ID is below `last`.
fn from(id: u32, last: u32, j: usize) -> usize
    ensures { result ≡ choose (ltb id last) 0 j }
{
    if id < last { 0 } else { j }
}

// Writes the outputs of the members that exist, in order. Each search goes on where the last one ended.
fn resolve(
    d: Registers,
    heads: &GroupHeads,
    count: usize,
    ingress: u64,
    m: Members,
    list: &mut [u16],
) -> usize
    requires { list_numbers ≤ length list.old }
    ensures { Resolves d ingress count heads.now m result list.old list.new }
{
    let how = m.rewrite;
    let size = m.count.min(MAX_MEMBERS);
    let mut k: usize = 0;
    let mut out: usize = 0;
    let mut at: usize = 0;
    let mut last: u32 = 0;
    while k < size {
        let id = member_id(m.vlan, m.lows[k]);
        k += 1;
        let p = seek(heads, count, id, from(id, last, at));
        at = p.at;
        last = id;
        if p.held {
            let pop = rows::flag(heads[at][1]);
            let port = group_id::low_of(id);
            out = copies::send(d, ingress, how, port, pop, out, list);
        }
    }
    out
}

// Writes a group's outputs to the start of a list, unless it has no room for one to each port, and gives their number. A missing group
// has none.
pub fn group_outputs(
    d: Registers,
    heads: &GroupHeads,
    members: &GroupMembers,
    count: usize,
    ingress: u64,
    vlan: u16,
    id: u32,
    list: &mut [u16],
) -> usize
    ensures { Lists (with_room list.old (keep d ingress (found_outputs (live_groups count heads.now members.now) vlan (find id_of id (live_groups count heads.now members.now))))) result list.old list.new }
{
    let all = &heads[..];
    let lows = &members[..];
    if list.len() < LIST_NUMBERS {
        return 0;
    }
    let m = members_of(heads, members, count, vlan, id);
    resolve(d, heads, count, ingress, m, list)
}
