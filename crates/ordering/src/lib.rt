// The order in which flows decide, kept beside their places as an index, a byte a flow (rules, specs/Engine.antt). A slot is a position in the
// order, a place one among the flows.

#![tactic(auto)]

ghost use Rattle.std.specs.Prelude.{◌+◌, ◌-◌, ◌<◌, ◌≤◌, map, ◌≡◌, length, take};
ghost use Rattle.rules.specs.Limits.{max_flows};
ghost use Rattle.rules.specs.Keyed.{insert_at, without};
ghost use Rattle.rules.specs.Rows.{entry_in};
ghost use Rattle.rules.specs.Frame.{beats};
ghost use Rattle.rules.specs.Engine.{precedes, is_before, slot_of, own_slot, raise, lower, later, earlier, firsts_with, firsts_without, same_rank};

use rules::{Firsts, FlowEntry, FlowOrder, FlowRow, MAX_FLOWS};

// ---- Which of two flows is first

/// A longer prefix, then a higher priority, then a lower cookie.
pub fn beats(a: FlowEntry, b: FlowEntry) -> bool
    ensures { result ≡ beats a b }
{
    if a.prefix == b.prefix {
        if a.priority == b.priority {
            return a.cookie < b.cookie;
        }
        return b.priority < a.priority;
    }
    b.prefix < a.prefix
}

// The lower table, and in one table the one that decides.
fn precedes(a: FlowEntry, b: FlowEntry) -> bool
    ensures { result ≡ precedes a b }
{
    if a.table == b.table {
        return beats(a, b);
    }
    a.table < b.table
}

/// Nothing that the order goes by differs.
pub fn same_rank(a: FlowEntry, b: FlowEntry) -> bool
    ensures { result ≡ same_rank a b }
{
    (a.table == b.table) & (a.prefix == b.prefix) & (a.priority == b.priority)
}

// Whether a place is live and its flow precedes another.
fn is_before(flows: &[FlowRow], place: u8, e: FlowEntry) -> bool
    ensures { result ≡ is_before (map entry_in flows.now) e place }
{
    let place = usize::from(place);
    place < flows.len() && precedes(rows::entry_of(flows[place]), e)
}

// ---- Slots

/// The slot of a flow in an order of live flows: behind those that precede it. The loop halves as the rules do, whatever the order is:
/// `partition_point` asks that those in front precede the flow.
pub fn slot(flows: &[FlowRow], order: &[u8], e: FlowEntry) -> usize
    ensures { (result ≡ slot_of (map entry_in flows.now) order.now e) × (result ≤ length order.now) }
{
    let mut low = 0;
    let mut high = order.len();
    while low < high {
        let middle = (low + high) / 2;
        if is_before(flows, order[middle], e) {
            low = middle + 1;
        } else {
            high = middle;
        }
    }
    low
}

// The slot of the flow in a place.
fn own_slot(flows: &[FlowRow], order: &[u8], at: usize) -> usize
    requires { (at < length flows.now) × (length order.now ≡ length flows.now) }
    ensures { (result ≡ own_slot (map entry_in flows.now) order.now at) × (result < length order.now) }
{
    slot(flows, order, rows::entry_of(flows[at])).min(order.len() - 1)
}

// ---- Places that move

fn raised(at: u8, x: u8) -> u8
    ensures { result ≡ raise at x }
{
    if (at <= x) & (x < 255) { x + 1 } else { x }
}

fn lowered(at: u8, x: u8) -> u8
    ensures { result ≡ lower at x }
{
    if at < x { x - 1 } else { x }
}

// All places from one on are one higher. The loop goes over the whole array, so that it is done many bytes at a time.
fn raise(order: &mut FlowOrder, at: u8)
    ensures { order.new ≡ map (raise at) order.old }
{
    for place in order.iter_mut() {
        *place = raised(at, *place);
    }
}

// All places behind one are one lower.
fn lower(order: &mut FlowOrder, at: u8)
    ensures { order.new ≡ map (lower at) order.old }
{
    for place in order.iter_mut() {
        *place = lowered(at, *place);
    }
}

// ---- What a command does to the order of the live flows, before it does it to them

/// A flow will be put in at a place.
pub fn add(flows: &[FlowRow], order: &mut FlowOrder, at: usize, e: FlowEntry)
    requires { (at ≤ length flows.now) × (length flows.now < max_flows) }
    ensures { take (length flows.now + 1) order.new ≡ insert_at (slot_of (map entry_in flows.now) (take (length flows.now) order.old) e) at (map (raise at) (take (length flows.now) order.old)) }
{
    let live = flows.len();
    let s = slot(flows, &order[..live], e);
    raise(order, at as u8);
    tables::open(&mut order[..], live, s, at as u8);
}

/// The one in a place will be taken out.
pub fn remove(flows: &[FlowRow], order: &mut FlowOrder, at: usize)
    requires { (at < length flows.now) × (length flows.now ≤ max_flows) }
    ensures { take (length flows.now - 1) order.new ≡ map (lower at) (without (own_slot (map entry_in flows.now) (take (length flows.now) order.old) at) (take (length flows.now) order.old)) }
{
    let live = flows.len();
    let s = own_slot(flows, &order[..live], at);
    tables::close(&mut order[..], live, s);
    lower(order, at as u8);
}

/// The one in a place will be replaced by another, of another rank.
pub fn change(flows: &[FlowRow], order: &mut FlowOrder, at: usize, e: FlowEntry)
    requires { (at < length flows.now) × (length flows.now ≤ max_flows) }
    ensures { take (length flows.now) order.new ≡ insert_at (slot_of (map entry_in flows.now) (without (own_slot (map entry_in flows.now) (take (length flows.now) order.old) at) (take (length flows.now) order.old)) e) at (without (own_slot (map entry_in flows.now) (take (length flows.now) order.old) at) (take (length flows.now) order.old)) }
{
    let live = flows.len();
    let own = own_slot(flows, &order[..live], at);
    tables::close(&mut order[..], live, own);
    let s = slot(flows, &order[..live - 1], e);
    tables::open(&mut order[..], live - 1, s, at as u8);
}

// ---- Where tables begin

fn later(moves: bool, n: usize) -> usize
    ensures { result ≡ later moves n }
{
    if moves & (n < MAX_FLOWS) { n + 1 } else { n }
}

fn earlier(moves: bool, n: usize) -> usize
    ensures { result ≡ earlier moves n }
{
    if moves & (0 < n) { n - 1 } else { n }
}

/// With one more flow of a table the later ones begin a slot later.
pub fn firsts_with(table: u16, f: Firsts) -> Firsts
    ensures { result ≡ firsts_with table f }
{
    Firsts {
        vlan: later(table < 10, f.vlan),
        termination: later(table < 20, f.termination),
        routing: later(table < 30, f.routing),
        bridging: later(table < 50, f.bridging),
    }
}

/// With one less, a slot earlier.
pub fn firsts_without(table: u16, f: Firsts) -> Firsts
    ensures { result ≡ firsts_without table f }
{
    Firsts {
        vlan: earlier(table < 10, f.vlan),
        termination: earlier(table < 20, f.termination),
        routing: earlier(table < 30, f.routing),
        bridging: earlier(table < 50, f.bridging),
    }
}
