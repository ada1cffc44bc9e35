// The full scan: in each table the best of all flows that match, and a frame's way by that.
ghost use Rattle.std.specs.Prelude.{◌<◌, ◌≤◌, ◌≡◌, false};
ghost use Rattle.rules.specs.Frame.{from_table50, from_table30, from_table20, way_of};
ghost use Rattle.rules.specs.Tables.{live_flows};
ghost use Rattle.rules.specs.Engine.{decides_best};
ghost use Rattle.rules.specs.Limits.{max_flows};
ghost use Rattle.deciding.specs.Way.{headers_in, matches_in, Decides, exit_in};
ghost use Rattle.plain.specs.Scan.{is_taken, Betters, Skips, Lacks};

use deciding::{Headers, Hit, WayOut};
use rules::{FlowEntry, FlowRows};

// What decides in tables 0 and 10, which are scanned in one go, and whether table 20 has a flow.
#[derive(Clone, Copy)]
struct Hits {
    first: Hit,
    second: Hit,
    terminates: bool,
}

// Whether a match replaces what was found so far.
fn is_taken(found: bool, e: FlowEntry, b: FlowEntry) -> bool
    ensures { result ≡ is_taken found e b }
{
    if found { ordering::beats(e, b) } else { true }
}

// The better of the flow in a place and the best so far, in a table.
fn better(rows: &FlowRows, hit: Hit, i: usize, table: u16, port: u32, h: Headers) -> Hit
    requires { (i < max_flows) × (hit.at < max_flows) }
    ensures { Betters rows.now (matches_in table port (headers_in h)) i hit.found hit.at result.found result.at }
{
    if deciding::matches(rows, i, table, port, h) {
        let e = deciding::flow(rows, i);
        let b = deciding::flow(rows, hit.at);
        if is_taken(hit.found, e, b) {
            return Hit { found: true, at: i };
        }
    }
    hit
}

fn none() -> Hit
    ensures { (result.found ≡ false) × (result.at ≡ 0) }
{
    Hit {
        found: false,
        at: 0,
    }
}

// What decides in tables 0 and 10, and whether table 20 has a flow. One test passes over the flows of tables 30 and 50.
fn first_hits(rows: &FlowRows, count: usize, port: u32, h: Headers) -> Hits
    ensures { Decides rows.now (decides_best (live_flows count rows.now) 0 (matches_in 0 port (headers_in h))) result.first.found result.first.at × Decides rows.now (decides_best (live_flows count rows.now) 10 (matches_in 10 port (headers_in h))) result.second.found result.second.at × Lacks count rows.now 0 result.terminates }
{
    let all = &rows[..];
    let mut i = count.min(all.len());
    let mut first = none();
    let mut second = none();
    let mut terminates = false;
    while 0 < i {
        i -= 1;
        let of = deciding::flow(rows, i);
        if of.table <= 20 {
            terminates = terminates | (of.table == 20);
            first = better(rows, first, i, 0, port, h);
            second = better(rows, second, i, 10, port, h);
        }
    }
    Hits {
        first,
        second,
        terminates,
    }
}

// Past the flows that do not match in a table, to behind the next one that does. This loop carries nothing but the place.
fn skip(rows: &FlowRows, from: usize, table: u16, port: u32, h: Headers) -> usize
    requires { from ≤ max_flows }
    ensures { Skips rows.now (matches_in table port (headers_in h)) from result }
{
    let mut i = from;
    while 0 < i {
        if deciding::matches(rows, i - 1, table, port, h) {
            break;
        }
        i -= 1;
    }
    i
}

// What decides in a table.
fn hit_in(rows: &FlowRows, count: usize, table: u16, port: u32, h: Headers) -> Hit
    ensures { Decides rows.now (decides_best (live_flows count rows.now) table (matches_in table port (headers_in h))) result.found result.at }
{
    let all = &rows[..];
    let mut i = count.min(all.len());
    let mut hit = none();
    loop {
        i = skip(rows, i, table, port, h);
        if i == 0 {
            return hit;
        }
        i -= 1;
        hit = better(rows, hit, i, table, port, h);
    }
}

// The way of a frame that is bridged.
fn bridge(rows: &FlowRows, count: usize, port: u32, h: Headers) -> WayOut
    ensures { exit_in result ≡ from_table50 (decides_best (live_flows count rows.now)) h.mac h.vlan }
{
    let hit = hit_in(rows, count, 50, port, h);
    deciding::way_out(rows, hit, h.vlan)
}

// The way of a frame that is routed.
fn route(rows: &FlowRows, count: usize, port: u32, h: Headers) -> WayOut
    ensures { exit_in result ≡ from_table30 (decides_best (live_flows count rows.now)) (headers_in h) h.vlan }
{
    if h.routable {
        let hit = hit_in(rows, count, 30, port, h);
        return deciding::way_out(rows, hit, h.vlan);
    }
    deciding::dropped()
}

// The way from table 20 on. Where that has no flow, nothing is looked for in it.
fn from_20(rows: &FlowRows, count: usize, port: u32, h: Headers, terminates: bool) -> WayOut
    requires { Lacks count rows.now 0 terminates }
    ensures { exit_in result ≡ from_table20 (decides_best (live_flows count rows.now)) port (headers_in h) h.vlan }
{
    if terminates {
        let hit = hit_in(rows, count, 20, port, h);
        if hit.found {
            return route(rows, count, port, h);
        }
        return bridge(rows, count, port, h);
    }
    bridge(rows, count, port, h)
}

// The way through the tables. GOTO_TBL 0 drops, and so does a miss in table 10.
pub fn way(rows: &FlowRows, count: usize, port: u32, h: Headers) -> WayOut
    ensures { exit_in result ≡ way_of (decides_best (live_flows count rows.now)) port (headers_in h) }
{
    let found = first_hits(rows, count, port, h);
    let first = found.first;
    let second = found.second;
    let a = deciding::flow(rows, first.at);
    if first.found & (a.goto_tbl == 0) {
        return deciding::dropped();
    }
    let b = deciding::flow(rows, second.at);
    if !second.found | (b.goto_tbl == 0) {
        return deciding::dropped();
    }
    let tagged = deciding::with_vlan(h, deciding::vlan_after(h.vlan, b.new_vlan_id));
    from_20(rows, count, port, tagged, found.terminates)
}
