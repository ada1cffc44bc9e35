// The rules' plain engine in code, "an unordered store with a full scan" (request 2026-05): the reference that tests and the benchmark
// hold the device to. No crate of the device stands on it. The exported functions are for their programs, by numbers and over pointers; the
// device's own search is among them, so that both are called in the same way.

#![tactic(auto)]

ghost use Rattle.std.specs.Prelude.{◌≡◌};
ghost use Rattle.rules.specs.Rows.{entry_in};
ghost use Rattle.rules.specs.Places.{places};
ghost use Rattle.rules.specs.Tables.{live_flows};
ghost use Rattle.rules.specs.Frame.{way_of};
ghost use Rattle.rules.specs.Engine.{decides_best, decides_first};
ghost use Rattle.rules.specs.Switch.{order_in};
ghost use Rattle.deciding.specs.Way.{headers_in, exit_in};
ghost use Rattle.plain.specs.Store.{Added, Modded, Deleted};
ghost use Rattle.plain.specs.Numbers.{Coded, headers_at, firsts_at, way_at};

use deciding::{Headers, WayOut};
use rules::{Firsts, FlowOrder, FlowRow, FlowRows};

mod scan;
mod store;

// ---- Numbers in and out

// MAC, the two words of the address, VLAN, EtherType, and whether the frame is routable.
fn headers_of(n: [u64; 6]) -> Headers
    ensures { result ≡ headers_at n }
{
    Headers {
        mac: n[0],
        address_high: n[1],
        address_low: n[2],
        vlan: (n[3] % 65536) as u16,
        ethertype: (n[4] % 65536) as u16,
        routable: n[5] != 0,
    }
}

fn firsts_of(n: [usize; 4]) -> Firsts
    ensures { result ≡ firsts_at n }
{
    Firsts {
        vlan: n[0],
        termination: n[1],
        routing: n[2],
        bridging: n[3],
    }
}

// Whether there is a way out, its VLAN and its group.
fn numbers_of(w: WayOut) -> [u32; 3]
    ensures { way_at result ≡ exit_in w }
{
    let vlan = w.vlan as u32;
    if w.found {
        [1, vlan, w.group]
    } else {
        [0, 0, 0]
    }
}

// ---- Exported

// The flow in a row added. Given back is the code of the status; the count is that after it.
#[unsafe(no_mangle)]
pub extern "C" fn plain_add(rows: &mut FlowRows, count: &mut usize, row: &FlowRow) -> u32
    ensures { Coded (Added (places count.old rows.old) (entry_in row.now)) result (places count.new rows.new) }
{
    let n = *count;
    let done = store::add(rows, n, rows::entry_of(*row));
    *count = done.count;
    let status = done.status;
    answers::code(status) as u32
}

#[unsafe(no_mangle)]
pub extern "C" fn plain_change(rows: &mut FlowRows, count: &mut usize, row: &FlowRow) -> u32
    ensures { Coded (Modded (places count.old rows.old) (entry_in row.now)) result (places count.new rows.new) }
{
    let n = *count;
    let done = store::change(rows, n, rows::entry_of(*row));
    *count = done.count;
    let status = done.status;
    answers::code(status) as u32
}

#[unsafe(no_mangle)]
pub extern "C" fn plain_del(rows: &mut FlowRows, count: &mut usize, cookie: u64) -> u32
    ensures { Coded (Deleted (places count.old rows.old) cookie) result (places count.new rows.new) }
{
    let n = *count;
    let done = store::del(rows, n, cookie);
    *count = done.count;
    let status = done.status;
    answers::code(status) as u32
}

// A frame's way by the full scan.
#[unsafe(no_mangle)]
pub extern "C" fn plain_way(
    rows: &FlowRows,
    count: usize,
    port: u32,
    headers: &[u64; 6],
    out: &mut [u32; 3],
)
    ensures { way_at out.new ≡ way_of (decides_best (live_flows count rows.now)) port (headers_in (headers_at headers.now)) }
{
    let w = scan::way(rows, count, port, headers_of(*headers));
    *out = numbers_of(w);
}

// A frame's way by the device's search, through the order that it keeps.
#[unsafe(no_mangle)]
pub extern "C" fn ordered_way(
    rows: &FlowRows,
    count: usize,
    order: &FlowOrder,
    firsts: &[usize; 4],
    port: u32,
    headers: &[u64; 6],
    out: &mut [u32; 3],
)
    ensures { way_at out.new ≡ way_of (decides_first (live_flows count rows.now) (order_in count (firsts_at firsts.now) order.now)) port (headers_in (headers_at headers.now)) }
{
    let w = deciding::way(
        rows,
        count,
        order,
        firsts_of(*firsts),
        port,
        headers_of(*headers),
    );
    *out = numbers_of(w);
}
