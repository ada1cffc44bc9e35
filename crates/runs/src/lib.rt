// Demand 3 of the code: a theorem over every run of `device::fresh` and `device::call`, by their contracts. specs/Runs.antt states it.
// The functions below do nothing of their own: they show that what the theorem asks of each call is what the code ensures.

#![tactic(auto)]

ghost use Rattle.rules.specs.Switch.{storage};
ghost use Rattle.rules.specs.Journal.{replay};
ghost use Rattle.device.specs.Outcome.{Makes};
ghost use Rattle.replaying.specs.Replaying.{Gives};
ghost use Rattle.tables.specs.Arrays.{arrays_of};
ghost use Rattle.runs.specs.Runs.{Ensured};

use device::Called;
use replaying::replay::Replayed;
use rules::{Device, FlowOrder, FlowRows, GroupHeads, GroupMembers, Refusal, Request};
use tables::Places;

// The start of a run: `Run` of specs/Runs.antt has it.
fn fresh(
    ports: u64,
    switch_id: u64,
    flows: &mut FlowRows,
    heads: &mut GroupHeads,
    members: &mut GroupMembers,
    order: &mut FlowOrder,
) -> Result<Device, Refusal>
    ensures { Makes result ports switch_id (storage flows.old heads.old members.old order.old) (storage flows.new heads.new members.new order.new) }
{
    device::fresh(ports, switch_id, flows, heads, members, order)
}

// A link of its chain: `Chain` has it.
fn call(
    d: Device,
    request: Request,
    memory: &mut [u8],
    f: &[u8],
    buffer: &mut [u8],
    list: &mut [u16],
    flows: &mut FlowRows,
    heads: &mut GroupHeads,
    members: &mut GroupMembers,
    order: &mut FlowOrder,
) -> Result<Called, Refusal>
    ensures { Ensured d (storage flows.old heads.old members.old order.old) (record { request = request; memory = memory.old; frame = f.now; buffer = buffer.old; list = list.old; gives = result; arrays_after = storage flows.new heads.new members.new order.new; memory_after = memory.new; buffer_after = buffer.new; list_after = list.new }) }
{
    device::call(
        d, request, memory, f, buffer, list, flows, heads, members, order,
    )
}

// The replay of its journal: `CodeClaim` has it.
fn replay(s: &[u8], places: &mut Places) -> Replayed
    ensures { Gives result (arrays_of places.new) (replay s.now) }
{
    replaying::replay::replay(s, places)
}
