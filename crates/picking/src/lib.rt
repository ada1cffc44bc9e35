// Of two tables, what one has that the other has not or has otherwise; and a table gone over in rising order of its key, by the least key
// above the last one (rules, specs/Undo.antt).

#![tactic(auto)]

ghost use Rattle.std.specs.Prelude.{◌≡◌, ◌<◌, take, length, IfSome};
ghost use Rattle.rules.specs.Keyed.{find};
ghost use Rattle.rules.specs.Tables.{cookie_of, id_of, live_flows, live_groups};
ghost use Rattle.rules.specs.Undo.{same_flow, same_group, picks};
ghost use Rattle.picking.specs.Next.{next_place};

use rules::{FlowEntry, FlowRows, GroupEntry, GroupHeads, GroupMembers};
use tables::Keyed;

// ---- What differs

fn same_flow(a: FlowEntry, b: FlowEntry) -> bool
    ensures { result ≡ same_flow a b }
{
    a == b
}

fn same_group(own: GroupEntry, other: GroupEntry) -> bool
    ensures { result ≡ same_group own other }
{
    own == other
}

/// Whether a run lists a flow, by what another table has at its cookie: `there` asks for one that is otherwise there, else for none.
pub fn picks_flow(there: bool, e: FlowEntry, other: &FlowRows, count: usize) -> bool
    ensures { result ≡ picks cookie_of same_flow there (find cookie_of e.cookie (live_flows count other.now)) e }
{
    match tables::held_place(&other[..], count, e.cookie) {
        Ok(at) => there & !same_flow(rows::entry_of(other[at]), e),
        Err(_) => !there,
    }
}

/// The same of a group, by its ID.
pub fn picks_group(
    there: bool,
    e: GroupEntry,
    heads: &GroupHeads,
    members: &GroupMembers,
    count: usize,
) -> bool
    ensures { result ≡ picks id_of same_group there (find id_of e.id (live_groups count heads.now members.now)) e }
{
    let lows = &members[..];
    match tables::held_place(&heads[..], count, e.id as u64) {
        Ok(at) => there & !same_group(rows::group_of(heads[at], lows[at]), e),
        Err(_) => !there,
    }
}

// ---- In rising order

/// Where the entry with the least key above one stands, if there is one; before there was a key (`started`), that with the least of all.
pub fn next_place<P: Keyed>(places: &[P], count: usize, started: bool, key: u64) -> Option<usize>
    ensures place { result ≡ next_place P.key started key (take count places.now) }
    ensures within { IfSome result (λ at. at < length (take count places.now)) }
{
    let live = tables::live(places, count);
    let at = match tables::place(live, key) {
        Ok(at) if started => at + 1,
        Ok(at) => at,
        Err(at) => at,
    };
    if at < live.len() { Some(at) } else { None }
}
