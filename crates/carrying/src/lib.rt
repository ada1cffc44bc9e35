// A decoded payload carried out on the device's tables: `execute`, and the flows' order with it. A flow command seeks its cookie once, then
// changes the order by the flows as they are, and then the flows.

#![tactic(auto)]

ghost use Rattle.std.specs.Prelude.{◌+◌, ◌-◌, ◌<◌, ◌≤◌, ◌≡◌, length, map, ◌≢◌, Err, IfErr, Ok as Carry};
ghost use Rattle.rules.specs.declared.Status.TheVariants.{Ok};
ghost use Rattle.rules.specs.Limits.{max_flows};
ghost use Rattle.rules.specs.Places.{places, live};
ghost use Rattle.rules.specs.Rows.{entry_in};
ghost use Rattle.rules.specs.Tables.{cookie_of};
ghost use Rattle.rules.specs.Engine.{order_added, order_changed, order_deleted};
ghost use Rattle.rules.specs.Switch.{storage, order_in};
ghost use Rattle.std.specs.Result.{result_unwrap_or};
ghost use Rattle.tables.specs.Commands.{Added, Modded, Deleted, status_of};
ghost use Rattle.carrying.specs.Outcome.{AddFollowed, ModFollowed, DelFollowed, Carries};

use rules::{
    Command, Counts, Decoding, Firsts, FlowEntry, FlowOrder, FlowRow, FlowRows, GroupHeads,
    GroupMembers, MAX_FLOWS, Members, Status,
};

// ---- The order of the live flows, and where tables begin in it

// A flow will be put in at a place.
fn put_in(
    flows: &[FlowRow],
    order: &mut FlowOrder,
    at: usize,
    firsts: Firsts,
    e: FlowEntry,
) -> Firsts
    requires { (at ≤ length flows.now) × (length flows.now < max_flows) }
    ensures { order_in (length flows.now + 1) result order.new ≡ order_added (map entry_in flows.now) at e (order_in (length flows.now) firsts order.old) }
{
    ordering::add(flows, order, at, e);
    ordering::firsts_with(e.table, firsts)
}

// The one in a place will be replaced.
fn ranked(
    flows: &[FlowRow],
    order: &mut FlowOrder,
    at: usize,
    firsts: Firsts,
    e: FlowEntry,
) -> Firsts
    requires { (at < length flows.now) × (length flows.now ≤ max_flows) }
    ensures { order_in (length flows.now) result order.new ≡ order_changed (map entry_in flows.now) at e (order_in (length flows.now) firsts order.old) }
{
    let old = rows::entry_of(flows[at]);
    if ordering::same_rank(old, e) {
        return firsts;
    }
    ordering::change(flows, order, at, e);
    let without = ordering::firsts_without(old.table, firsts);
    ordering::firsts_with(e.table, without)
}

// The one in a place will be taken out.
fn taken_out(flows: &[FlowRow], order: &mut FlowOrder, at: usize, firsts: Firsts) -> Firsts
    requires { (at < length flows.now) × (length flows.now ≤ max_flows) }
    ensures { order_in (length flows.now - 1) result order.new ≡ order_deleted (map entry_in flows.now) at (order_in (length flows.now) firsts order.old) }
{
    ordering::remove(flows, order, at);
    let old = rows::entry_of(flows[at]);
    ordering::firsts_without(old.table, firsts)
}

// ---- Flow commands: the number of live flows after it, and where tables begin in their order

fn flow_add(
    rows: &mut FlowRows,
    order: &mut FlowOrder,
    count: usize,
    firsts: Firsts,
    e: FlowEntry,
) -> Result<(usize, Firsts), Status>
    ensures outcome { Added (live entry_in) cookie_of max_flows (places count rows.old) e (status_of result) (places (result_unwrap_or result (count, firsts)).0 rows.new) × AddFollowed (result_unwrap_or result (count, firsts)) firsts count rows.old order.old order.new e }
    ensures refusal { IfErr result (λ e. e ≢ Ok) }
{
    let at = tables::free_place(&rows[..], count, e.cookie)?;
    let more = put_in(tables::live(&rows[..], count), order, at, firsts, e);
    let live = count.min(MAX_FLOWS);
    tables::open(&mut rows[..], live, at, rows::row_of(e));
    Ok((live + 1, more))
}

fn flow_mod(
    rows: &mut FlowRows,
    order: &mut FlowOrder,
    count: usize,
    firsts: Firsts,
    e: FlowEntry,
) -> Result<(usize, Firsts), Status>
    ensures outcome { Modded (live entry_in) cookie_of max_flows (places count rows.old) e (status_of result) (places (result_unwrap_or result (count, firsts)).0 rows.new) × ModFollowed (result_unwrap_or result (count, firsts)) firsts count rows.old order.old order.new e }
    ensures refusal { IfErr result (λ e. e ≢ Ok) }
{
    let at = tables::held_place(&rows[..], count, e.cookie)?;
    let moved = ranked(tables::live(&rows[..], count), order, at, firsts, e);
    rows[at] = rows::row_of(e);
    Ok((count, moved))
}

fn flow_del(
    rows: &mut FlowRows,
    order: &mut FlowOrder,
    count: usize,
    firsts: Firsts,
    cookie: u64,
) -> Result<(usize, Firsts), Status>
    ensures outcome { Deleted (live entry_in) cookie_of max_flows (places count rows.old) cookie (status_of result) (places (result_unwrap_or result (count, firsts)).0 rows.new) × DelFollowed (result_unwrap_or result (count, firsts)) firsts count rows.old order.old order.new cookie }
    ensures refusal { IfErr result (λ e. e ≢ Ok) }
{
    let at = tables::held_place(&rows[..], count, cookie)?;
    let less = taken_out(tables::live(&rows[..], count), order, at, firsts);
    let live = count.min(MAX_FLOWS);
    tables::close(&mut rows[..], live, at);
    Ok((live - 1, less))
}

// ---- Any payload

fn command(
    c: Command,
    m: Members,
    counts: Counts,
    firsts: Firsts,
    flows: &mut FlowRows,
    heads: &mut GroupHeads,
    members: &mut GroupMembers,
    order: &mut FlowOrder,
) -> Result<(Counts, Firsts), Status>
    ensures outcome { Carries result counts firsts (storage flows.old heads.old members.old order.old) (storage flows.new heads.new members.new order.new) (record { what = Carry c; members = m }) }
    ensures refusal { IfErr result (λ e. e ≢ Ok) }
{
    match c {
        Command::FlowAdd(f) => {
            let e = execute::flow_entry(f);
            let (flows, firsts) = flow_add(flows, order, counts.flows, firsts, e)?;
            Ok((Counts { flows, ..counts }, firsts))
        }
        Command::FlowMod(f) => {
            let e = execute::flow_entry(f);
            let (flows, firsts) = flow_mod(flows, order, counts.flows, firsts, e)?;
            Ok((Counts { flows, ..counts }, firsts))
        }
        Command::FlowDel(cookie) => {
            let (flows, firsts) = flow_del(flows, order, counts.flows, firsts, cookie)?;
            Ok((Counts { flows, ..counts }, firsts))
        }
        Command::GroupAdd(g) => Ok((execute::group_add(g, m, counts, heads, members)?, firsts)),
        Command::GroupMod(g) => Ok((execute::group_mod(g, m, counts, heads, members)?, firsts)),
        Command::GroupDel(id) => Ok((execute::group_del(id, counts, heads, members)?, firsts)),
    }
}

/// Carries out what a payload asks for, and gives the small part of the tables after it: the counts, and where tables begin in the order of
/// the flows. An error is the status of the payload's fault or of the command, which changes nothing.
pub fn carry_out(
    d: Decoding,
    counts: Counts,
    firsts: Firsts,
    flows: &mut FlowRows,
    heads: &mut GroupHeads,
    members: &mut GroupMembers,
    order: &mut FlowOrder,
) -> Result<(Counts, Firsts), Status>
    ensures outcome { Carries result counts firsts (storage flows.old heads.old members.old order.old) (storage flows.new heads.new members.new order.new) d }
    ensures refusal { d.what ≢ Err Ok → IfErr result (λ e. e ≢ Ok) }
{
    let c = d.what?;
    command(c, d.members, counts, firsts, flows, heads, members, order)
}
