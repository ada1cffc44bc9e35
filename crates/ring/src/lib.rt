// A ring: what each of its registers reads, what a write of it does, and what a completed slot does.

#![tactic(auto)]

ghost use Rattle.std.specs.Prelude.{◌≡◌, false, ◌<◌, ◌%◌, ◌^◌, ltb};
ghost use Rattle.rules.specs.Choose.{choose};
ghost use Rattle.rules.specs.Ring.{zero_ring, distance, outstanding, advance, power_up_to, ctrl_effect, ring_wide, ring_value, ring_store, ring_latch, ring_latched, next_slot, complete_effect, complete_raises};
ghost use Rattle.ring.specs.Outcomes.{RingGives};
ghost use Rattle.ring.specs.Shapes.{head_allowed};
ghost use Rattle.rules.specs.Limits.{max_credits};

use rules::{MAX_CREDITS, Refusal, Ring, RingRegister};

/// What a write makes of a ring. `raises`: the ring's vector is raised.
#[derive(Clone, Copy, Debug, PartialEq, Eq)]
pub struct RingWritten {
    pub ring: Ring,
    pub raises: bool,
}

// A write that raises no vector.
fn quiet(ring: Ring) -> RingWritten
    ensures { result ≡ record { ring = ring; raises = false } }
{
    RingWritten {
        ring,
        raises: false,
    }
}

// ---- Registers, one by one

#[tactic(auto, unfolding(rules::specs::Ring::zero_ring))]
pub fn zero() -> Ring
    ensures { result ≡ zero_ring }
{
    Ring {
        base_addr: 0,
        base_latch: 0,
        size: 0,
        head: 0,
        tail: 0,
        credits: 0,
    }
}

#[tactic(auto, unfolding(rules::specs::Answers::refusal_number, rules::specs::Ring::ring_store, rules::specs::Ring::base_refusal, rules::specs::Ring::base_effect))]
fn write_base(r: Ring, v: u64) -> Result<RingWritten, Refusal>
    ensures { RingGives result (ring_store r RingRegister.BaseAddr v) }
{
    if v % 8 != 0 {
        return Err(Refusal::ValueNotAllowed);
    }
    let ring = Ring {
        base_addr: v,
        base_latch: 0,
        head: 0,
        tail: 0,
        ..r
    };
    Ok(quiet(ring))
}

// A power of two from 2 to 65,536: one bit of it is set, and it lies in that range.
fn is_size(v: u32) -> bool
    ensures { result ≡ power_up_to 16 v }
{
    (2 <= v) & (v <= 65536) & (u32::count_ones(v) == 1)
}

#[tactic(auto, unfolding(rules::specs::Answers::refusal_number, rules::specs::Ring::ring_store, rules::specs::Ring::size_refusal, rules::specs::Ring::size_effect))]
fn write_size(r: Ring, v: u32) -> Result<RingWritten, Refusal>
    ensures { RingGives result (ring_store r RingRegister.Size v) }
{
    if !is_size(v) {
        return Err(Refusal::ValueNotAllowed);
    }
    let ring = Ring {
        size: v,
        head: 0,
        tail: 0,
        ..r
    };
    Ok(quiet(ring))
}

// A number modulo the size. Only one that is not below the size, which no call leaves in HEAD or TAIL, costs a division.
fn reduced(size: u32, i: u32) -> u32
    requires { 0 < size }
    ensures { result ≡ i % size }
{
    if i < size { i } else { i % size }
}

// (to − from) modulo the size. In 64 bits nothing wraps.
fn distance(size: u32, from: u32, to: u32) -> u64
    requires { 0 < size }
    ensures { result ≡ distance size from to }
{
    let a = reduced(size, to) as u64;
    let b = reduced(size, from) as u64;
    if b <= a { a - b } else { a + size as u64 - b }
}

fn outstanding(r: Ring) -> u64
    requires { 0 < r.size }
    ensures { result ≡ outstanding r }
{
    distance(r.size, r.tail, r.head)
}

fn advance(r: Ring, new: u32) -> u64
    requires { 0 < r.size }
    ensures { result ≡ advance r new }
{
    distance(r.size, r.head, new)
}

// All that would then be outstanding is at most one slot less than the ring has.
fn head_allowed(r: Ring, new: u32) -> bool
    ensures { result ≡ head_allowed r new }
{
    if new < r.size {
        let after = outstanding(r) + advance(r, new);
        return after <= r.size as u64 - 1;
    }
    false
}

#[tactic(auto, unfolding(rules::specs::Answers::refusal_number, rules::specs::Ring::ring_store, rules::specs::Ring::head_refusal, crate::specs::Shapes::head_allowed, rules::specs::Ring::head_effect))]
fn write_head(r: Ring, new: u32) -> Result<RingWritten, Refusal>
    ensures { RingGives result (ring_store r RingRegister.Head new) }
{
    if !head_allowed(r, new) {
        return Err(Refusal::ValueNotAllowed);
    }
    Ok(quiet(Ring { head: new, ..r }))
}

#[tactic(auto, unfolding(rules::specs::Answers::refusal_number, rules::specs::Ring::ring_store, rules::specs::Ring::credits_refusal, rules::specs::Ring::credits_effect, rules::specs::Ring::credits_raises))]
fn write_credits(r: Ring, n: u32) -> Result<RingWritten, Refusal>
    ensures { RingGives result (ring_store r RingRegister.Credits n) }
{
    if r.credits < n {
        return Err(Refusal::ValueNotAllowed);
    }
    let ring = Ring {
        credits: r.credits - n,
        ..r
    };
    Ok(RingWritten {
        ring,
        raises: n < r.credits,
    })
}

#[tactic(auto, unfolding(rules::specs::Ring::ctrl_effect))]
fn write_ctrl(r: Ring, v: u64) -> Ring
    ensures { result ≡ ctrl_effect r v }
{
    if v % 2 == 1 { zero() } else { r }
}

// ---- By register

// Whether it has 8 bytes.
#[tactic(auto, unfolding(rules::specs::Ring::ring_wide))]
pub fn is_wide(which: RingRegister) -> bool
    ensures { result ≡ ring_wide which }
{
    matches!(which, RingRegister::BaseAddr)
}

#[tactic(auto, unfolding(rules::specs::Ring::ring_value))]
pub fn value(r: Ring, which: RingRegister) -> u64
    ensures { result ≡ ring_value r which }
{
    match which {
        RingRegister::BaseAddr => r.base_addr,
        RingRegister::Size => r.size as u64,
        RingRegister::Head => r.head as u64,
        RingRegister::Tail => r.tail as u64,
        RingRegister::Ctrl => 0,
        RingRegister::Credits => r.credits as u64,
    }
}

/// A write of a whole register. One of 4 bytes takes a number of 32 bits. Refused, the ring stays as the caller has it.
#[tactic(auto, unfolding(rules::specs::Ring::ring_store, rules::specs::Ring::ring_wide))]
pub fn store(r: Ring, which: RingRegister, v: u64) -> Result<RingWritten, Refusal>
    requires { ring_wide which ≡ false → v < 2 ^ 32 }
    ensures { RingGives result (ring_store r which v) }
{
    match which {
        RingRegister::BaseAddr => write_base(r, v),
        RingRegister::Size => write_size(r, v as u32),
        RingRegister::Head => write_head(r, v as u32),
        RingRegister::Tail => Ok(quiet(r)),
        RingRegister::Ctrl => Ok(quiet(write_ctrl(r, v))),
        RingRegister::Credits => write_credits(r, v as u32),
    }
}

#[tactic(auto, unfolding(rules::specs::Ring::ring_latch))]
pub fn latch_of(r: Ring, which: RingRegister) -> u32
    ensures { result ≡ ring_latch r which }
{
    match which {
        RingRegister::BaseAddr => r.base_latch,
        _ => 0,
    }
}

#[tactic(auto, unfolding(rules::specs::Ring::ring_latched, rules::specs::Ring::base_latched))]
pub fn latch(r: Ring, which: RingRegister, v: u32) -> Ring
    ensures { result ≡ ring_latched r which v }
{
    match which {
        RingRegister::BaseAddr => Ring { base_latch: v, ..r },
        _ => r,
    }
}

// ---- A slot completed

fn next_slot(size: u32, i: u32) -> u32
    ensures { result ≡ next_slot size i }
{
    if i < size {
        if i + 1 < size { i + 1 } else { 0 }
    } else {
        0
    }
}

// The ring after a slot is completed. Process refuses at 65,536 credits, so one more fits; a ring that has them is left as it is.
pub fn complete(r: Ring) -> Ring
    ensures { result ≡ choose (ltb r.credits max_credits) (complete_effect r) r }
{
    if MAX_CREDITS <= r.credits {
        return r;
    }
    Ring {
        tail: next_slot(r.size, r.tail),
        credits: r.credits + 1,
        ..r
    }
}

// Whether completing a slot raises the ring's vector.
pub fn complete_raises(r: Ring) -> bool
    ensures { result ≡ complete_raises r }
{
    r.credits == 0
}
