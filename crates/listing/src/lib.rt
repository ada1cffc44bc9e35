// The list of payloads that gives earlier tables back (rules, specs/Undo.antt): six runs, each over one table in rising order of its key. A
// run asks for the entry with the least key above the last one's, so that it does not hang on how a table is stored.

#![tactic(auto)]

ghost use Rattle.std.specs.Prelude.{◌≡◌, ◌≤◌, ◌<◌, length};
ghost use Rattle.rules.specs.Keyed.{Rising};
ghost use Rattle.rules.specs.Tables.{cookie_of, id_of, tables_of, live_flows, live_groups};
ghost use Rattle.rules.specs.Undo.{flow_payload, group_payload, flow_run, group_run, payloads};
ghost use Rattle.tables.specs.Arrays.{arrays_of};
ghost use Rattle.encoding.specs.Writing.{longest};
ghost use Rattle.listing.specs.Listing.{large, half, quarter, nothing_listed, Small, Below, Adds, Lists, Steps, InOrder, both_runs, given_back};

use encoding::LONGEST;
use rules::{Counts, FlowEntry, GroupEntry};
use tables::Places;

// A list so far: how many payloads, and how many bytes with their lengths.
#[derive(Clone, Copy, Debug, PartialEq, Eq)]
pub struct Listed {
    pub count: u64,
    pub size: usize,
}

// ---- One payload

// A payload behind its length, counted, and written where the room has place for it.
fn add(out: &mut [u8], so_far: Listed, payload: &[u8]) -> Listed
    requires { (so_far.size ≤ large) × (so_far.count ≤ large) × (length payload.now ≤ longest) }
    ensures { Adds result so_far out.new payload.now out.old }
{
    let size = so_far.size;
    let end = size + 2 + payload.len();
    let listed = Listed {
        count: so_far.count + 1,
        size: end,
    };
    if end <= out.len() {
        wire::put(out, size, 2, payload.len() as u64);
        journal::put_bytes(out, size + 2, payload);
    }
    listed
}

fn add_flow(out: &mut [u8], so_far: Listed, command: u16, e: FlowEntry) -> Listed
    requires { (so_far.size ≤ large) × (so_far.count ≤ large) }
    ensures { Adds result so_far out.new (flow_payload command e) out.old }
{
    let mut payload = [0u8; LONGEST];
    let n = encoding::flow(&mut payload, command, e);
    add(out, so_far, &payload[..n])
}

fn add_group(out: &mut [u8], so_far: Listed, command: u16, e: GroupEntry) -> Listed
    requires { (so_far.size ≤ large) × (so_far.count ≤ large) }
    ensures { Adds result so_far out.new (group_payload command e) out.old }
{
    let mut payload = [0u8; LONGEST];
    let n = encoding::group(&mut payload, command, e);
    add(out, so_far, &payload[..n])
}

// ---- Runs

// One step of a run: the list after it, whether there was an entry to look at, and the entry's key.
#[derive(Clone, Copy)]
pub struct Step {
    pub listed: Listed,
    pub more: bool,
    pub key: u64,
}

// The flow after the one with a cookie, listed if the run picks it.
fn flow_step(
    out: &mut [u8],
    so_far: Listed,
    started: bool,
    key: u64,
    command: u16,
    there: bool,
    counts: Counts,
    places: &Places,
    other_counts: Counts,
    other: &Places,
) -> Step
    requires { (so_far.size ≤ large) × (so_far.count ≤ large) }
    ensures { Steps cookie_of (flow_run command there (live_flows other_counts.flows other.now.flows)) (live_flows counts.flows places.now.flows) result so_far started key out.new out.old }
{
    let Some(at) = picking::next_place(&places.flows[..], counts.flows, started, key) else {
        return Step {
            listed: so_far,
            more: false,
            key: key,
        };
    };
    let e = rows::entry_of(places.flows[at]);
    let mut listed = so_far;
    if picking::picks_flow(there, e, &other.flows, other_counts.flows) {
        listed = add_flow(out, so_far, command, e);
    }
    Step {
        listed: listed,
        more: true,
        key: e.cookie,
    }
}

// The flows of a table that the run of a command lists, beside another table. The length of a lent array is told where it is lent as a
// slice, and nowhere else: `all` is there for that.
fn flows(
    out: &mut [u8],
    so_far: Listed,
    command: u16,
    there: bool,
    counts: Counts,
    places: &Places,
    other_counts: Counts,
    other: &Places,
) -> Listed
    requires { (Rising cookie_of (live_flows counts.flows places.now.flows)) × Small so_far }
    ensures { Lists result so_far out.new (flow_run command there (live_flows other_counts.flows other.now.flows) (live_flows counts.flows places.now.flows)) 256 out.old }
{
    let all = &places.flows[..];
    let mut listed = so_far;
    let mut started = false;
    let mut key: u64 = 0;
    let mut more = true;
    while more {
        let t = flow_step(
            out,
            listed,
            started,
            key,
            command,
            there,
            counts,
            places,
            other_counts,
            other,
        );
        started = true;
        listed = t.listed;
        key = t.key;
        more = t.more;
    }
    listed
}

// The group after the one with an ID, listed if the run picks it.
fn group_step(
    out: &mut [u8],
    so_far: Listed,
    started: bool,
    key: u64,
    command: u16,
    there: bool,
    counts: Counts,
    places: &Places,
    other_counts: Counts,
    other: &Places,
) -> Step
    requires { (so_far.size ≤ large) × (so_far.count ≤ large) × (key < 4294967296) }
    ensures steps { Steps id_of (group_run command there (live_groups other_counts.groups other.now.heads other.now.members)) (live_groups counts.groups places.now.heads places.now.members) result so_far started key out.new out.old }
    ensures key_bound { result.key < 4294967296 }
{
    let lows = &places.members[..];
    let Some(at) = picking::next_place(&places.heads[..], counts.groups, started, key) else {
        return Step {
            listed: so_far,
            more: false,
            key: key,
        };
    };
    let e = rows::group_of(places.heads[at], lows[at]);
    let id = e.id as u64;
    let mut listed = so_far;
    if picking::picks_group(there, e, &other.heads, &other.members, other_counts.groups) {
        listed = add_group(out, so_far, command, e);
    }
    Step {
        listed: listed,
        more: true,
        key: id,
    }
}

// The groups of a table that the run of a command lists, beside another table.
fn groups(
    out: &mut [u8],
    so_far: Listed,
    command: u16,
    there: bool,
    counts: Counts,
    places: &Places,
    other_counts: Counts,
    other: &Places,
) -> Listed
    requires { (Rising id_of (live_groups counts.groups places.now.heads places.now.members)) × Small so_far }
    ensures { Lists result so_far out.new (group_run command there (live_groups other_counts.groups other.now.heads other.now.members) (live_groups counts.groups places.now.heads places.now.members)) 128 out.old }
{
    let all = &places.heads[..];
    let mut listed = so_far;
    let mut started = false;
    let mut key: u64 = 0;
    let mut more = true;
    while more {
        let t = group_step(
            out,
            listed,
            started,
            key,
            command,
            there,
            counts,
            places,
            other_counts,
            other,
        );
        started = true;
        listed = t.listed;
        key = t.key;
        more = t.more;
    }
    listed
}

// ---- The list

// What two commands list of tables, beside other tables: flows, then groups.
fn both(
    out: &mut [u8],
    so_far: Listed,
    flow_command: u16,
    group_command: u16,
    there: bool,
    counts: Counts,
    places: &Places,
    other_counts: Counts,
    other: &Places,
) -> Listed
    requires { (InOrder (tables_of counts (arrays_of places.now))) × Below half so_far }
    ensures { Lists result so_far out.new (both_runs flow_command group_command there (tables_of other_counts (arrays_of other.now)) (tables_of counts (arrays_of places.now))) 384 out.old }
{
    let a = flows(
        out,
        so_far,
        flow_command,
        there,
        counts,
        places,
        other_counts,
        other,
    );
    groups(
        out,
        a,
        group_command,
        there,
        counts,
        places,
        other_counts,
        other,
    )
}

// Of earlier tables what differs now and what is not there now: mods, then adds.
fn given_back(
    out: &mut [u8],
    so_far: Listed,
    early_counts: Counts,
    early: &Places,
    counts: Counts,
    places: &Places,
) -> Listed
    requires { (InOrder (tables_of early_counts (arrays_of early.now))) × Below quarter so_far }
    ensures { Lists result so_far out.new (given_back (tables_of early_counts (arrays_of early.now)) (tables_of counts (arrays_of places.now))) 768 out.old }
{
    let a = both(
        out,
        so_far,
        encoding::FLOW_MOD,
        encoding::GROUP_MOD,
        true,
        early_counts,
        early,
        counts,
        places,
    );
    both(
        out,
        a,
        encoding::FLOW_ADD,
        encoding::GROUP_ADD,
        false,
        early_counts,
        early,
        counts,
        places,
    )
}

// The fixed list, at the start of a room where it fits: what is only now there is deleted, what differs is modified, what was only then
// there is added. Where it does not fit, the room's bytes are not promised: lend another room to learn how long the list is.
pub fn list(
    out: &mut [u8],
    early_counts: Counts,
    early: &Places,
    counts: Counts,
    places: &Places,
) -> Listed
    requires { (InOrder (tables_of early_counts (arrays_of early.now))) × (InOrder (tables_of counts (arrays_of places.now))) }
    ensures { Lists result nothing_listed out.new (payloads (tables_of early_counts (arrays_of early.now)) (tables_of counts (arrays_of places.now))) 1152 out.old }
{
    let none = Listed { count: 0, size: 0 };
    let a = both(
        out,
        none,
        encoding::FLOW_DEL,
        encoding::GROUP_DEL,
        false,
        counts,
        places,
        early_counts,
        early,
    );
    given_back(out, a, early_counts, early, counts, places)
}
