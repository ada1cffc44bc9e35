// The commands on the flow table.
ghost use Rattle.std.specs.Prelude.{◌≢◌, IfErr};
ghost use Rattle.rules.specs.declared.Status.TheVariants.{Ok};
ghost use Rattle.rules.specs.Places.{places, live};
ghost use Rattle.rules.specs.Rows.{cookie_in, entry_in};
ghost use Rattle.rules.specs.Tables.{cookie_of};
ghost use Rattle.std.specs.Result.{result_unwrap_or};
ghost use Rattle.tables.specs.Commands.{Added, Modded, Deleted, status_of};
ghost use Rattle.rules.specs.Limits.{max_flows};

use crate::{Keyed, close, free_place, held_place, open};
use rules::{FlowEntry, FlowRow, FlowRows, MAX_FLOWS, Status};

impl Keyed for FlowRow {
    ghost key = { cookie_in };

    fn key(&self) -> u64 {
        rows::join(self[0], self[1])
    }
}

/// Puts a flow in before the first that has a higher cookie. Given back is the number of live flows after it; an error leaves the rows.
pub fn flow_add(rows: &mut FlowRows, count: usize, e: FlowEntry) -> Result<usize, Status>
    ensures outcome { Added (live entry_in) cookie_of max_flows (places count rows.old) e (status_of result) (places (result_unwrap_or result count) rows.new) }
    ensures refusal { IfErr result (λ e. e ≢ Ok) }
{
    let at = free_place(&rows[..], count, e.cookie)?;
    let live = count.min(MAX_FLOWS);
    open(&mut rows[..], live, at, rows::row_of(e));
    Ok(live + 1)
}

/// Replaces the flow with this cookie.
pub fn flow_mod(rows: &mut FlowRows, count: usize, e: FlowEntry) -> Result<usize, Status>
    ensures outcome { Modded (live entry_in) cookie_of max_flows (places count rows.old) e (status_of result) (places (result_unwrap_or result count) rows.new) }
    ensures refusal { IfErr result (λ e. e ≢ Ok) }
{
    let at = held_place(&rows[..], count, e.cookie)?;
    rows[at] = rows::row_of(e);
    Ok(count)
}

/// Takes the flow with a cookie out.
pub fn flow_del(rows: &mut FlowRows, count: usize, cookie: u64) -> Result<usize, Status>
    ensures outcome { Deleted (live entry_in) cookie_of max_flows (places count rows.old) cookie (status_of result) (places (result_unwrap_or result count) rows.new) }
    ensures refusal { IfErr result (λ e. e ≢ Ok) }
{
    let at = held_place(&rows[..], count, cookie)?;
    let live = count.min(MAX_FLOWS);
    close(&mut rows[..], live, at);
    Ok(live - 1)
}
