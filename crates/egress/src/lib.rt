// The frame call. It has no `requires`: whatever the registers and tables hold, it gives exactly what the rules say.

#![tactic(auto)]

ghost use Rattle.std.specs.Prelude.{◌≤◌, ◌≡◌, length};
ghost use Rattle.rules.specs.Tables.{live_flows, live_groups};
ghost use Rattle.rules.specs.Engine.{decides_first};
ghost use Rattle.rules.specs.Switch.{order_in};
ghost use Rattle.rules.specs.Frame.{way, keep, exit_outputs};
ghost use Rattle.outputs.specs.Outputs.{Lists};
ghost use Rattle.egress.specs.Outcome.{Outcome};
ghost use Rattle.rules.specs.Limits.{list_numbers};

use rules::{
    Counts, Firsts, FlowOrder, FlowRows, GroupHeads, GroupMembers, LIST_NUMBERS, Refusal, Registers,
};

// The outputs of a frame on a port that is up and enabled.
fn outputs_from(
    d: Registers,
    counts: Counts,
    firsts: Firsts,
    flows: &FlowRows,
    order: &FlowOrder,
    heads: &GroupHeads,
    members: &GroupMembers,
    port: u32,
    f: &[u8],
    list: &mut [u16],
) -> usize
    requires { list_numbers ≤ length list.old }
    ensures { Lists (keep d port (exit_outputs (live_groups counts.groups heads.now members.now) (way (decides_first (live_flows counts.flows flows.now) (order_in counts.flows firsts order.now)) port f.now))) result list.old list.new }
{
    let w = deciding::way(
        flows,
        counts.flows,
        order,
        firsts,
        port,
        headers::headers_of(f),
    );
    if w.found {
        return outputs::group_outputs(
            d,
            heads,
            members,
            counts.groups,
            port as u64,
            w.vlan,
            w.group,
            list,
        );
    }
    0
}

/// The frame call: a frame comes in on a port, and its outputs (each of nine numbers) are written to the start of the list. Gives how many
/// there are. A refused call writes nothing.
pub fn frame(
    d: Registers,
    counts: Counts,
    firsts: Firsts,
    flows: &FlowRows,
    order: &FlowOrder,
    heads: &GroupHeads,
    members: &GroupMembers,
    port: u64,
    f: &[u8],
    list: &mut [u16],
) -> Result<usize, Refusal>
    ensures { Outcome d (decides_first (live_flows counts.flows flows.now) (order_in counts.flows firsts order.now)) (live_groups counts.groups heads.now members.now) port f.now list.old result list.new }
{
    if !ports::port_allowed(d, port) {
        return Err(Refusal::PortNotAllowed);
    }
    if !headers::is_frame(f) {
        return Err(Refusal::NotAFrame);
    }
    if list.len() < LIST_NUMBERS {
        return Err(Refusal::ListShort);
    }
    if !ports::is_up(d, port) {
        return Ok(0);
    }
    let n = outputs_from(
        d,
        counts,
        firsts,
        flows,
        order,
        heads,
        members,
        port as u32,
        f,
        list,
    );
    Ok(n)
}
