// The device and its public calls. A call takes the small part of the device by value and gives it back; the places of the tables are
// lent, to the calls that need them, and changed where they stand. Every call is done or refused, and has the whole outcome in its contract:
// the answer, the device after it, each word of the tables and each borrowed byte.

#![tactic(auto)]

ghost use Rattle.std.specs.Prelude.{◌≡◌, List, ℕ};
ghost use Rattle.rules.specs.Registers.{terms_of};
ghost use Rattle.rules.specs.Tables.{none_live};
ghost use Rattle.rules.specs.Engine.{no_order};
ghost use Rattle.rules.specs.Switch.{Storage, storage, Borrowed, switch_of, fresh_device, step};
ghost use Rattle.rules.specs.declared.Request.TheVariants.{Read, Write, Link, Process, Frame, Header};
ghost use Rattle.device.specs.Outcome.{Outcome, Makes, borrowed, quiet, empty, written_to};

use registers::Written;
use rules::{
    CURRENT_VERSION, Counts, Device, Firsts, FlowOrder, FlowRows, GroupHeads, GroupMembers,
    MAX_FLOWS, Refusal, Registers, Request, Terms,
};

/// What a call gives that is done: what it tells, which is the value that a read gives, whether vector 0 was raised, the completion that
/// process wrote (0 for none), how many bytes were written into the buffer, how many outputs into the list, and whether the device was reset,
/// so that its journal begins anew; and the device after it. A call that is refused tells nothing, and its caller's device stays as it is.
#[derive(Clone, Copy, Debug, PartialEq, Eq)]
pub struct Called {
    pub value: u64,
    pub interrupt: bool,
    pub completed: u16,
    pub written: usize,
    pub outputs: usize,
    pub reset: bool,
    pub device: Device,
}

/// A call that is done and tells nothing.
pub fn quiet(device: Device) -> Called
    ensures { result ≡ quiet device }
{
    Called {
        value: 0,
        interrupt: false,
        completed: 0,
        written: 0,
        outputs: 0,
        reset: false,
        device,
    }
}

// A device with no live place, whose tables each begin at 0 in the order.
fn empty(registers: Registers) -> Device
    ensures { result ≡ empty registers }
{
    Device {
        registers,
        counts: Counts {
            flows: 0,
            groups: 0,
        },
        firsts: Firsts {
            vlan: 0,
            termination: 0,
            routing: 0,
            bridging: 0,
        },
    }
}

/// What stands where there is no device: no ports, and all zero.
#[tactic(auto, unfolding(rules::specs::Switch::fresh_device))]
pub fn none() -> Device
    ensures { result ≡ fresh_device 0 0 }
{
    empty(registers::none())
}

/// A new device: 1 to 62 ports, all links down, the tables empty. Refused, it leaves the arrays as they are.
pub fn fresh(
    ports: u64,
    switch_id: u64,
    flows: &mut FlowRows,
    heads: &mut GroupHeads,
    members: &mut GroupMembers,
    order: &mut FlowOrder,
) -> Result<Device, Refusal>
    ensures { Makes result ports switch_id (storage flows.old heads.old members.old order.old) (storage flows.new heads.new members.new order.new) }
{
    let registers = registers::fresh(ports, switch_id)?;
    tables::clear(flows, heads, members);
    *order = [0; MAX_FLOWS];
    Ok(empty(registers))
}

/// The owner sets a port's link up or down.
pub fn link(d: Device, port: u64, up: bool) -> Result<Called, Refusal>
    ensures { (a : Storage) (b : Borrowed) → Outcome result d a a b.memory b.buffer b.list (step (switch_of d a) b (Link port up)) }
{
    let registers = registers::link(d.registers, port, up)?;
    Ok(quiet(Device { registers, ..d }))
}

/// A register read.
pub fn read(d: Device, offset: u64, width: u64) -> Result<Called, Refusal>
    ensures { (a : Storage) (b : Borrowed) → Outcome result d a a b.memory b.buffer b.list (step (switch_of d a) b (Read offset width)) }
{
    let value = registers::read(d.registers, offset, width)?;
    Ok(Called { value, ..quiet(d) })
}

// The device after a write: none of its places is live after a device reset.
fn written_to(d: Device, w: Written) -> Device
    ensures { result ≡ written_to d w }
{
    if w.resets {
        empty(w.registers)
    } else {
        Device {
            registers: w.registers,
            ..d
        }
    }
}

/// A register write. A device reset leaves no place live, and no write touches a place.
pub fn write(d: Device, offset: u64, width: u64, value: u64) -> Result<Called, Refusal>
    ensures { (a : Storage) (b : Borrowed) → Outcome result d a a b.memory b.buffer b.list (step (switch_of d a) b (Write offset width value)) }
{
    let w = registers::write(d.registers, offset, width, value)?;
    Ok(Called {
        interrupt: w.interrupt,
        reset: w.resets,
        ..quiet(written_to(d, w))
    })
}

// What the device carries payloads out under, and writes into its journal's header.
fn terms_of(d: Registers) -> Terms
    ensures { result ≡ terms_of d }
{
    Terms {
        ports: d.ports,
        version: CURRENT_VERSION,
    }
}

/// The journal's header, to the start of the buffer.
pub fn header(d: Device, buffer: &mut [u8]) -> Result<Called, Refusal>
    ensures { (a : Storage) (memory frame list : List ℕ) → Outcome result d a a memory buffer.new list (step (switch_of d a) (borrowed memory frame buffer.old list) Header) }
{
    if buffer.len() < 6 {
        return Err(Refusal::BufferShort);
    }
    let written = journal::header(buffer, terms_of(d.registers));
    Ok(Called {
        written,
        ..quiet(d)
    })
}

/// Process: carry out and complete the slot at TAIL, or say why not. The payload is copied into its record and decoded there, so that what is
/// recorded is what was carried out, whatever the guest writes meanwhile.
pub fn process(
    d: Device,
    memory: &mut [u8],
    buffer: &mut [u8],
    flows: &mut FlowRows,
    heads: &mut GroupHeads,
    members: &mut GroupMembers,
    order: &mut FlowOrder,
) -> Result<Called, Refusal>
    ensures { (frame list : List ℕ) → Outcome result d (storage flows.old heads.old members.old order.old) (storage flows.new heads.new members.new order.new) memory.new buffer.new list (step (switch_of d (storage flows.old heads.old members.old order.old)) (borrowed memory.old frame buffer.old list) Process) }
{
    let ring = registers::command_ring(d.registers);
    let t = slot::take(memory, ring, buffer.len())?;
    let q = slot::prepare_taken(memory, buffer, t.payload, terms_of(d.registers));
    let counts = d.counts;
    let firsts = d.firsts;
    let x = carrying::carry_out(q, counts, firsts, flows, heads, members, order);
    let status = tables::status(&x);
    let (live, begins) = x.unwrap_or((counts, firsts));
    let size = slot::size_of(t.payload);
    let completed = slot::finish(memory, buffer, t.at, size, status, ring.tail);
    let moved = registers::complete(d.registers);
    let after = Device {
        registers: moved,
        counts: live,
        firsts: begins,
    };
    Ok(Called {
        interrupt: registers::complete_raises(d.registers),
        completed,
        written: 6 + size,
        ..quiet(after)
    })
}

/// A frame in at a port: its outputs, to the start of the list.
pub fn frame(
    d: Device,
    port: u64,
    f: &[u8],
    list: &mut [u16],
    flows: &FlowRows,
    heads: &GroupHeads,
    members: &GroupMembers,
    order: &FlowOrder,
) -> Result<Called, Refusal>
    ensures { (memory buffer : List ℕ) → Outcome result d (storage flows.now heads.now members.now order.now) (storage flows.now heads.now members.now order.now) memory buffer list.new (step (switch_of d (storage flows.now heads.now members.now order.now)) (borrowed memory f.now buffer list.old) (Frame port)) }
{
    let outputs = egress::frame(
        d.registers,
        d.counts,
        d.firsts,
        flows,
        order,
        heads,
        members,
        port,
        f,
        list,
    )?;
    Ok(Called {
        outputs,
        ..quiet(d)
    })
}

/// Any call: what it asks for, all that it may borrow, and the places. It is the rules' step.
pub fn call(
    d: Device,
    request: Request,
    memory: &mut [u8],
    f: &[u8],
    buffer: &mut [u8],
    list: &mut [u16],
    flows: &mut FlowRows,
    heads: &mut GroupHeads,
    members: &mut GroupMembers,
    order: &mut FlowOrder,
) -> Result<Called, Refusal>
    ensures { Outcome result d (storage flows.old heads.old members.old order.old) (storage flows.new heads.new members.new order.new) memory.new buffer.new list.new (step (switch_of d (storage flows.old heads.old members.old order.old)) (borrowed memory.old f.now buffer.old list.old) request) }
{
    match request {
        Request::Read { offset, width } => read(d, offset, width),
        Request::Write {
            offset,
            width,
            value,
        } => write(d, offset, width, value),
        Request::Link { port, up } => link(d, port, up),
        Request::Process => process(d, memory, buffer, flows, heads, members, order),
        Request::Frame { port } => frame(d, port, f, list, flows, heads, members, order),
        Request::Header => header(d, buffer),
    }
}
