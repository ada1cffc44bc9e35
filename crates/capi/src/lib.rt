// The C interface. A host holds a device as five arrays of numbers: its small part as 20 words (the crate `words`), the places of its
// tables, and the order of its flows. Each exported function takes pointers to those that its call needs; include/rocker.h puts them into
// one struct.
// No enum crosses the boundary: a request comes in as numbers, an answer goes out as its number. No bool is held either, so
// the functions are right whatever bytes they are handed.

#![tactic(auto)]

ghost use Rattle.std.specs.Prelude.{◌≡◌, List, ℕ};
ghost use Rattle.rules.specs.Answers.{answer_number};
ghost use Rattle.rules.specs.Switch.{Storage, storage, Borrowed, switch_of, step};
ghost use Rattle.rules.specs.declared.Request.TheVariants.{Read, Write, Process, Frame, Header};
ghost use Rattle.device.specs.Outcome.{borrowed, told_by};
ghost use Rattle.words.specs.Words.{device_in};
ghost use Rattle.capi.specs.Asking.{asked};
ghost use Rattle.capi.specs.Outcome.{Outcome, Stored, FreshOutcome, six, bit_of, told_in, parts_size};

use device::Called;
use rules::{FlowOrder, FlowRows, GroupHeads, GroupMembers, Refusal};

// ---- Numbers in and out

fn answer_of<T>(r: &Result<T, Refusal>) -> u32
    ensures { result ≡ answer_number r.now }
{
    answers::answer_number(r) as u32
}

fn bit_of(b: bool) -> u64
    ensures { result ≡ bit_of b }
{
    if b { 1 } else { 0 }
}

// What a call tells as six numbers: value, raised, completed, bytes, outputs, reset. A refused call has 0 in each.
fn told(r: &Result<Called, Refusal>) -> [u64; 6]
    ensures { result ≡ told_in (told_by r.now) }
{
    match r {
        Ok(called) => [
            called.value,
            bit_of(called.interrupt),
            called.completed as u64,
            called.written as u64,
            called.outputs as u64,
            bit_of(called.reset),
        ],
        Err(_) => [0, 0, 0, 0, 0, 0],
    }
}

// The end of a call: the device goes back into the words if the call was done. A refused call leaves them, bits without meaning too.
fn store(registers: &mut [u64; 20], r: &Result<Called, Refusal>) -> u32
    ensures { Stored result r.now registers.old registers.new }
{
    if let Ok(called) = r {
        *registers = words::words_of(called.device);
    }
    answer_of(r)
}

// ---- Exported

// The bytes of the five arrays.
#[unsafe(no_mangle)]
pub extern "C" fn rocker_size() -> u64
    ensures { result ≡ parts_size }
{
    42912
}

#[unsafe(no_mangle)]
pub extern "C" fn rocker_fresh_parts(
    registers: &mut [u64; 20],
    flows: &mut FlowRows,
    heads: &mut GroupHeads,
    members: &mut GroupMembers,
    order: &mut FlowOrder,
    ports: u64,
    switch_id: u64,
) -> u32
    ensures { FreshOutcome result registers.old registers.new (storage flows.old heads.old members.old order.old) (storage flows.new heads.new members.new order.new) ports switch_id }
{
    let made = device::fresh(ports, switch_id, flows, heads, members, order);
    match made {
        Ok(d) => {
            *registers = words::words_of(d);
            0
        }
        Err(refusal) => answers::refusal_number(refusal) as u32,
    }
}

#[unsafe(no_mangle)]
pub extern "C" fn rocker_read_parts(
    registers: &[u64; 20],
    offset: u64,
    width: u64,
    value: &mut u64,
) -> u32
    ensures { (a : Storage) (b : Borrowed) → Outcome result registers.now registers.now a a (six value.new 0 0 0 0 0) b.memory b.buffer b.list (step (switch_of (device_in registers.now) a) b (Read offset width)) }
{
    let r = device::read(words::device_of(*registers), offset, width);
    let [given, ..] = told(&r);
    *value = given;
    answer_of(&r)
}

#[unsafe(no_mangle)]
pub extern "C" fn rocker_write_parts(
    registers: &mut [u64; 20],
    offset: u64,
    width: u64,
    value: u64,
    raised: &mut u64,
    reset: &mut u64,
) -> u32
    ensures { (a : Storage) (b : Borrowed) → Outcome result registers.old registers.new a a (six 0 raised.new 0 0 0 reset.new) b.memory b.buffer b.list (step (switch_of (device_in registers.old) a) b (Write offset width value)) }
{
    let r = device::write(words::device_of(*registers), offset, width, value);
    let [_, vector, _, _, _, resets] = told(&r);
    *raised = vector;
    *reset = resets;
    store(registers, &r)
}

// The owner sets a port's link: 0 is down, 1 is up.
#[unsafe(no_mangle)]
pub extern "C" fn rocker_link_parts(registers: &mut [u64; 20], port: u64, up: u64) -> u32
    ensures { (a : Storage) (b : Borrowed) → Outcome result registers.old registers.new a a (six 0 0 0 0 0 0) b.memory b.buffer b.list (asked (switch_of (device_in registers.old) a) b 2 port up 0) }
{
    if 1 < up {
        return 2;
    }
    let r = device::link(words::device_of(*registers), port, up == 1);
    store(registers, &r)
}

// Process the slot at TAIL: the journal's record goes to the start of the buffer.
#[unsafe(no_mangle)]
pub extern "C" fn rocker_process_parts(
    registers: &mut [u64; 20],
    flows: &mut FlowRows,
    heads: &mut GroupHeads,
    members: &mut GroupMembers,
    order: &mut FlowOrder,
    memory: &mut [u8],
    buffer: &mut [u8],
    raised: &mut u64,
    completed: &mut u64,
    bytes: &mut u64,
) -> u32
    ensures { (frame list : List ℕ) → Outcome result registers.old registers.new (storage flows.old heads.old members.old order.old) (storage flows.new heads.new members.new order.new) (six 0 raised.new completed.new bytes.new 0 0) memory.new buffer.new list (step (switch_of (device_in registers.old) (storage flows.old heads.old members.old order.old)) (borrowed memory.old frame buffer.old list) Process) }
{
    let d = words::device_of(*registers);
    let r = device::process(d, memory, buffer, flows, heads, members, order);
    let [_, vector, completion, written, _, _] = told(&r);
    *raised = vector;
    *completed = completion;
    *bytes = written;
    store(registers, &r)
}

// A frame in at a port: its outputs go to the start of the list.
#[unsafe(no_mangle)]
pub extern "C" fn rocker_frame_parts(
    registers: &[u64; 20],
    flows: &FlowRows,
    heads: &GroupHeads,
    members: &GroupMembers,
    order: &FlowOrder,
    port: u64,
    frame: &[u8],
    list: &mut [u16],
    outputs: &mut u64,
) -> u32
    ensures { (memory buffer : List ℕ) → Outcome result registers.now registers.now (storage flows.now heads.now members.now order.now) (storage flows.now heads.now members.now order.now) (six 0 0 0 0 outputs.new 0) memory buffer list.new (step (switch_of (device_in registers.now) (storage flows.now heads.now members.now order.now)) (borrowed memory frame.now buffer list.old) (Frame port)) }
{
    let d = words::device_of(*registers);
    let r = device::frame(d, port, frame, list, flows, heads, members, order);
    let [_, _, _, _, count, _] = told(&r);
    *outputs = count;
    answer_of(&r)
}

// The journal's header, to the start of the buffer.
#[unsafe(no_mangle)]
pub extern "C" fn rocker_header_parts(
    registers: &[u64; 20],
    buffer: &mut [u8],
    bytes: &mut u64,
) -> u32
    ensures { (a : Storage) (memory frame list : List ℕ) → Outcome result registers.now registers.now a a (six 0 0 0 bytes.new 0 0) memory buffer.new list (step (switch_of (device_in registers.now) a) (borrowed memory frame buffer.old list) Header) }
{
    let r = device::header(words::device_of(*registers), buffer);
    let [_, _, _, written, _, _] = told(&r);
    *bytes = written;
    answer_of(&r)
}

// ---- Any call

fn process_into(
    registers: &mut [u64; 20],
    flows: &mut FlowRows,
    heads: &mut GroupHeads,
    members: &mut GroupMembers,
    order: &mut FlowOrder,
    memory: &mut [u8],
    buffer: &mut [u8],
    out: &mut [u64; 6],
) -> u32
    ensures { (frame list : List ℕ) → Outcome result registers.old registers.new (storage flows.old heads.old members.old order.old) (storage flows.new heads.new members.new order.new) out.new memory.new buffer.new list (step (switch_of (device_in registers.old) (storage flows.old heads.old members.old order.old)) (borrowed memory.old frame buffer.old list) Process) }
{
    let mut raised = 0;
    let mut completed = 0;
    let mut bytes = 0;
    let answer = rocker_process_parts(
        registers,
        flows,
        heads,
        members,
        order,
        memory,
        buffer,
        &mut raised,
        &mut completed,
        &mut bytes,
    );
    *out = [0, raised, completed, bytes, 0, 0];
    answer
}

fn frame_into(
    registers: &[u64; 20],
    flows: &FlowRows,
    heads: &GroupHeads,
    members: &GroupMembers,
    order: &FlowOrder,
    port: u64,
    frame: &[u8],
    list: &mut [u16],
    out: &mut [u64; 6],
) -> u32
    ensures { (memory buffer : List ℕ) → Outcome result registers.now registers.now (storage flows.now heads.now members.now order.now) (storage flows.now heads.now members.now order.now) out.new memory buffer list.new (step (switch_of (device_in registers.now) (storage flows.now heads.now members.now order.now)) (borrowed memory frame.now buffer list.old) (Frame port)) }
{
    let mut outputs = 0;
    let answer = rocker_frame_parts(
        registers,
        flows,
        heads,
        members,
        order,
        port,
        frame,
        list,
        &mut outputs,
    );
    *out = [0, 0, 0, 0, outputs, 0];
    answer
}

// Any call by its kind, with all that it may borrow. What it gives goes to `out`: value, raised, completed, bytes, outputs, reset. It goes through
// the functions above, so that each call of the device stands in one place of the archive, where the compiler puts it in whole.
#[unsafe(no_mangle)]
pub extern "C" fn rocker_call_parts(
    registers: &mut [u64; 20],
    flows: &mut FlowRows,
    heads: &mut GroupHeads,
    members: &mut GroupMembers,
    order: &mut FlowOrder,
    kind: u64,
    a: u64,
    b: u64,
    c: u64,
    memory: &mut [u8],
    frame: &[u8],
    buffer: &mut [u8],
    list: &mut [u16],
    out: &mut [u64; 6],
) -> u32
    ensures { Outcome result registers.old registers.new (storage flows.old heads.old members.old order.old) (storage flows.new heads.new members.new order.new) out.new memory.new buffer.new list.new (asked (switch_of (device_in registers.old) (storage flows.old heads.old members.old order.old)) (borrowed memory.old frame.now buffer.old list.old) kind a b c) }
{
    if kind == 0 {
        let mut value = 0;
        let answer = rocker_read_parts(registers, a, b, &mut value);
        *out = [value, 0, 0, 0, 0, 0];
        return answer;
    }
    if kind == 1 {
        let mut raised = 0;
        let mut reset = 0;
        let answer = rocker_write_parts(registers, a, b, c, &mut raised, &mut reset);
        *out = [0, raised, 0, 0, 0, reset];
        return answer;
    }
    if kind == 3 {
        return process_into(registers, flows, heads, members, order, memory, buffer, out);
    }
    if kind == 4 {
        return frame_into(registers, flows, heads, members, order, a, frame, list, out);
    }
    if kind == 5 {
        let mut bytes = 0;
        let answer = rocker_header_parts(registers, buffer, &mut bytes);
        *out = [0, 0, 0, bytes, 0, 0];
        return answer;
    }
    *out = [0, 0, 0, 0, 0, 0];
    if kind == 2 {
        return rocker_link_parts(registers, a, b);
    }
    2
}
