// The flow that decides in each table, by the order in which flows decide, and a frame's way through the tables, over lent rows.

#![tactic(auto)]

ghost use Rattle.std.specs.Prelude.{◌<◌, ◌≡◌, false, not, ◌&&◌, ◌||◌, eqb};
ghost use Rattle.rules.specs.Choose.{choose};
ghost use Rattle.rules.specs.Frame.{exit_of, from_table50, from_table30, from_table20, way_of};
ghost use Rattle.deciding.specs.Way.{flow_at, hit_in, headers_in, with_vlan, agrees, matches_in, first_between, Decides, decider, exit_in};
ghost use Rattle.rules.specs.Limits.{max_flows};

use rules::{Firsts, FlowEntry, FlowOrder, FlowRows};

// What the tables look at in a frame. `routable`: it is long enough for its EtherType's header, which has the address; that stands in the upper
// bits of two words.
#[derive(Clone, Copy)]
pub struct Headers {
    pub mac: u64,
    pub address_high: u64,
    pub address_low: u64,
    pub vlan: u16,
    pub ethertype: u16,
    pub routable: bool,
}

// How a frame leaves the tables: its VLAN and the group that is named, where it does.
#[derive(Clone, Copy)]
pub struct WayOut {
    pub found: bool,
    pub vlan: u16,
    pub group: u32,
}

// The place of the flow that decides, where there is one.
#[derive(Clone, Copy)]
pub struct Hit {
    pub found: bool,
    pub at: usize,
}

// The flow in a place. Each reading of it loads what is used of it, so a test on one field stands before the next reading.
pub fn flow(rows: &FlowRows, i: usize) -> FlowEntry
    requires { i < max_flows }
    ensures { result ≡ flow_at rows.now i }
{
    rows::entry_of(rows[i])
}

// Whether a flow of table 50 is for a frame: its MAC tells most flows apart. That one is given is read only of flows with another one.
fn is_bridged(rows: &FlowRows, i: usize, h: Headers) -> bool
    requires { i < max_flows }
    ensures { result ≡ eqb (flow_at rows.now i).vlan_id h.vlan && (not (flow_at rows.now i).has_mac || eqb (flow_at rows.now i).dst_mac h.mac) }
{
    let e = flow(rows, i);
    if e.dst_mac == h.mac {
        let same = flow(rows, i);
        return same.vlan_id == h.vlan;
    }
    let other = flow(rows, i);
    if other.has_mac {
        return false;
    }
    let any = flow(rows, i);
    any.vlan_id == h.vlan
}

// Whether a flow of table 20 is for a frame: everything is compared as it is.
fn is_terminated(rows: &FlowRows, i: usize, port: u32, h: Headers) -> bool
    requires { i < max_flows }
    ensures { result ≡ eqb (flow_at rows.now i).in_pport port && eqb (flow_at rows.now i).ethertype h.ethertype && eqb (flow_at rows.now i).dst_mac h.mac && eqb (flow_at rows.now i).vlan_id h.vlan }
{
    let e = flow(rows, i);
    (e.in_pport == port)
        & (e.ethertype == h.ethertype)
        & (e.dst_mac == h.mac)
        & (e.vlan_id == h.vlan)
}

// Whether a flow of table 30 is for a frame. Its address is read behind the test of the EtherType.
fn is_routed(rows: &FlowRows, i: usize, h: Headers) -> bool
    requires { i < max_flows }
    ensures { result ≡ eqb (flow_at rows.now i).ethertype h.ethertype && agrees h (flow_at rows.now i) }
{
    let of = flow(rows, i);
    if of.ethertype != h.ethertype {
        return false;
    }
    let e = flow(rows, i);
    addresses::agree(
        h.ethertype,
        e.prefix,
        e.address_high,
        e.address_low,
        h.address_high,
        h.address_low,
    )
}

// Whether the flow in a place is of a table and has what the table compares. What tells most flows apart is read first, and the rest behind
// its test.
pub fn matches(rows: &FlowRows, i: usize, table: u16, port: u32, h: Headers) -> bool
    requires { i < max_flows }
    ensures { result ≡ matches_in table port (headers_in h) (flow_at rows.now i) }
{
    let of = flow(rows, i);
    if of.table != table {
        return false;
    }
    if table == 50 {
        return is_bridged(rows, i, h);
    }
    if table == 30 {
        return is_routed(rows, i, h);
    }
    if table == 20 {
        return is_terminated(rows, i, port, h);
    }
    let e = flow(rows, i);
    if table == 10 {
        return (e.in_pport == port) & (e.vlan_id == h.vlan);
    }
    (table == 0) & (port & e.in_pport_mask == e.in_pport & e.in_pport_mask)
}

// What decides in a table, whose slots in the order are from one up to another: the first match ends the search. A place that is not live has no
// flow to match. The loop carries nothing but the slot.
fn hit_in(
    rows: &FlowRows,
    count: usize,
    order: &FlowOrder,
    from: usize,
    to: usize,
    table: u16,
    port: u32,
    h: Headers,
) -> Hit
    ensures { Decides rows.now (first_between count rows.now order.now from to (matches_in table port (headers_in h))) result.found result.at }
{
    let all = &rows[..];
    let slots = &order[..];
    let n = count.min(all.len());
    let end = to.min(n);
    let mut i = from;
    while i < end {
        let place = slots[i] as usize;
        i += 1;
        if place < n {
            if matches(rows, place, table, port, h) {
                return Hit {
                    found: true,
                    at: place,
                };
            }
        }
    }
    Hit {
        found: false,
        at: 0,
    }
}

// ---- The way

pub fn dropped() -> WayOut
    ensures { result.found ≡ false }
{
    WayOut {
        found: false,
        vlan: 0,
        group: 0,
    }
}

// The way out of tables 30 and 50, by what decides there: a miss drops, and so does GOTO_TBL 0; table 60 is empty.
pub fn way_out(rows: &FlowRows, hit: Hit, vlan: u16) -> WayOut
    requires { hit.at < max_flows }
    ensures { exit_in result ≡ exit_of vlan (hit_in rows.now hit.found hit.at) }
{
    let e = flow(rows, hit.at);
    if !hit.found | (e.goto_tbl == 0) {
        return dropped();
    }
    WayOut {
        found: e.has_group,
        vlan: vlan,
        group: e.group_id,
    }
}

// The way of a frame that is bridged: the flows of table 50 are the last.
fn bridge(
    rows: &FlowRows,
    count: usize,
    order: &FlowOrder,
    firsts: Firsts,
    port: u32,
    h: Headers,
) -> WayOut
    ensures { exit_in result ≡ from_table50 (decider count rows.now order.now firsts) h.mac h.vlan }
{
    let hit = hit_in(rows, count, order, firsts.bridging, count, 50, port, h);
    way_out(rows, hit, h.vlan)
}

// The way of a frame that is routed.
fn route(
    rows: &FlowRows,
    count: usize,
    order: &FlowOrder,
    firsts: Firsts,
    port: u32,
    h: Headers,
) -> WayOut
    ensures { exit_in result ≡ from_table30 (decider count rows.now order.now firsts) (headers_in h) h.vlan }
{
    if h.routable {
        let hit = hit_in(
            rows,
            count,
            order,
            firsts.routing,
            firsts.bridging,
            30,
            port,
            h,
        );
        return way_out(rows, hit, h.vlan);
    }
    dropped()
}

// The way from table 20 on.
fn from_20(
    rows: &FlowRows,
    count: usize,
    order: &FlowOrder,
    firsts: Firsts,
    port: u32,
    h: Headers,
) -> WayOut
    ensures { exit_in result ≡ from_table20 (decider count rows.now order.now firsts) port (headers_in h) h.vlan }
{
    let hit = hit_in(
        rows,
        count,
        order,
        firsts.termination,
        firsts.routing,
        20,
        port,
        h,
    );
    if hit.found {
        return route(rows, count, order, firsts, port, h);
    }
    bridge(rows, count, order, firsts, port, h)
}

// A frame without a VLAN takes the flow's.
pub fn vlan_after(vlan: u16, new_vlan_id: u16) -> u16
    ensures { result ≡ choose (eqb vlan 0) new_vlan_id vlan }
{
    if vlan == 0 { new_vlan_id } else { vlan }
}

pub fn with_vlan(h: Headers, vlan: u16) -> Headers
    ensures { (headers_in result ≡ with_vlan vlan (headers_in h)) × (result.vlan ≡ vlan) }
{
    Headers {
        mac: h.mac,
        address_high: h.address_high,
        address_low: h.address_low,
        vlan: vlan,
        ethertype: h.ethertype,
        routable: h.routable,
    }
}

// The way through the tables. GOTO_TBL 0 drops, and so does a miss in table 10.
pub fn way(
    rows: &FlowRows,
    count: usize,
    order: &FlowOrder,
    firsts: Firsts,
    port: u32,
    h: Headers,
) -> WayOut
    ensures { exit_in result ≡ way_of (decider count rows.now order.now firsts) port (headers_in h) }
{
    let first = hit_in(rows, count, order, 0, firsts.vlan, 0, port, h);
    let a = flow(rows, first.at);
    if first.found & (a.goto_tbl == 0) {
        return dropped();
    }
    let second = hit_in(
        rows,
        count,
        order,
        firsts.vlan,
        firsts.termination,
        10,
        port,
        h,
    );
    let b = flow(rows, second.at);
    if !second.found | (b.goto_tbl == 0) {
        return dropped();
    }
    let tagged = with_vlan(h, vlan_after(h.vlan, b.new_vlan_id));
    from_20(rows, count, order, firsts, port, tagged)
}
