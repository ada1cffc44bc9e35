// The register file: fresh registers, reads and writes, and the owner's setting of a link. Whatever the registers hold, each call
// gives exactly what the rules say. What a write does to the tables it only reports.

#![tactic(auto)]

ghost use Rattle.std.specs.Prelude.{◌≡◌, ◌^◌, ◌<◌, false, nat_lt};
ghost use Rattle.rules.specs.Choose.{choose};
ghost use Rattle.rules.specs.Limits.{max_credits};
ghost use Rattle.rules.specs.Ring.{complete_effect, complete_raises};
ghost use Rattle.rules.specs.Registers.{is_wide, value_of, read_refusal, read, read_value, latch_of, latch_effect, taken, store, write_to, write, fresh_registers, with_links, ring_at, with_ring, command_ring, with_command_ring, link_effect, reset_registers};
ghost use Rattle.rules.specs.Switch.{fresh_refusal, link_refusal};
ghost use Rattle.registers.specs.Outcomes.{Comes, Writes, Gives, done};
ghost use Rattle.registers.specs.Fits.{Bounded, number_for};

use ring::RingWritten;
use rules::{Access, Refusal, Register, Registers, Ring};

/// What a register write makes of the registers. `interrupt`: vector 0 is raised. `resets`: the device is reset, so its tables are to be
/// emptied.
#[derive(Clone, Copy, Debug, PartialEq, Eq)]
pub struct Written {
    pub registers: Registers,
    pub interrupt: bool,
    pub resets: bool,
}

// ---- Fresh and reset

#[tactic(auto, unfolding(rules::specs::Registers::fresh_registers))]
fn fresh_registers(ports: u32, switch_id: u64) -> Registers
    ensures { result ≡ fresh_registers ports switch_id }
{
    Registers {
        switch_id,
        links: 0,
        enable: 0,
        test_reg64: 0,
        ports,
        enable_latch: 0,
        test_latch: 0,
        test_reg: 0,
        ring: ring::zero(),
    }
}

/// What stands where there is no device: no ports, and all zero.
pub fn none() -> Registers
    ensures { result ≡ fresh_registers 0 0 }
{
    fresh_registers(0, 0)
}

/// The registers of a new device, of 1 to 62 ports.
#[tactic(auto, unfolding(rules::specs::Switch::fresh_refusal, rules::specs::Answers::refusal_number))]
pub fn fresh(ports: u64, switch_id: u64) -> Result<Registers, Refusal>
    ensures { Comes result (fresh_refusal ports) (fresh_registers ports switch_id) }
{
    if !ports::port_count_allowed(ports) {
        return Err(Refusal::PortNotAllowed);
    }
    Ok(fresh_registers(ports as u32, switch_id))
}

#[tactic(auto, unfolding(rules::specs::Registers::reset_registers, rules::specs::Registers::with_links))]
fn reset(d: Registers) -> Registers
    ensures { result ≡ reset_registers d }
{
    Registers {
        links: d.links,
        ..fresh_registers(d.ports, d.switch_id)
    }
}

// ---- Link

/// The owner sets a port's link up or down.
#[tactic(auto, unfolding(rules::specs::Switch::link_refusal, rules::specs::Registers::with_links, rules::specs::Answers::refusal_number))]
pub fn link(d: Registers, port: u64, up: bool) -> Result<Registers, Refusal>
    ensures { Comes result (link_refusal d port) (with_links d (link_effect d.links port up)) }
{
    if !ports::port_allowed(d, port) {
        return Err(Refusal::PortNotAllowed);
    }
    Ok(Registers {
        links: ports::links_after(d.links, port, up),
        ..d
    })
}

// ---- Rings

// The ring of a number. There is one, the command ring, whatever the number.
fn ring_at(d: Registers, n: u8) -> Ring
    ensures { result ≡ ring_at d n }
{
    d.ring
}

#[tactic(auto, unfolding(rules::specs::Registers::with_ring))]
fn with_ring(d: Registers, n: u8, ring: Ring) -> Registers
    ensures { result ≡ with_ring d n ring }
{
    Registers { ring, ..d }
}

// Ring 0.
pub fn command_ring(d: Registers) -> Ring
    ensures { result ≡ command_ring d }
{
    ring_at(d, 0)
}

// The registers after a slot of the command ring is completed; with 65,536 credits they stay as they are.
pub fn complete(d: Registers) -> Registers
    ensures { result ≡ choose (nat_lt (command_ring d).credits max_credits) (with_command_ring d (complete_effect (command_ring d))) d }
{
    with_ring(d, 0, ring::complete(command_ring(d)))
}

// Whether completing a slot of the command ring raises its vector.
pub fn complete_raises(d: Registers) -> bool
    ensures { result ≡ complete_raises (command_ring d) }
{
    ring::complete_raises(command_ring(d))
}

// ---- Read

#[tactic(auto, unfolding(rules::specs::Registers::value_of))]
fn value_of(d: Registers, register: Register) -> u64
    ensures { result ≡ value_of d register }
{
    match register {
        Register::Magic => 0xDEADBABEDEADBABE,
        Register::TestReg => std::num::wrapping_add_u32(d.test_reg, d.test_reg) as u64,
        Register::TestReg64 => std::num::wrapping_add_u64(d.test_reg64, d.test_reg64),
        Register::Control => 0,
        Register::PortPhysCount => d.ports as u64,
        Register::PortPhysLinkStatus => d.links,
        Register::PortPhysEnable => d.enable,
        Register::SwitchId => d.switch_id,
        Register::OfRing(n, which) => ring::value(ring_at(d, n), which),
    }
}

#[tactic(auto, unfolding(rules::specs::Registers::read_value))]
fn read_value(d: Registers, a: Access) -> u64
    ensures { result ≡ read_value d a }
{
    match a {
        Access::NotAllowed | Access::Reserved => 0,
        Access::Whole(r) => value_of(d, r),
        Access::Lower(r) => value_of(d, r) % 0x1_0000_0000,
        Access::Upper(r) => value_of(d, r) / 0x1_0000_0000,
    }
}

/// A register read.
#[tactic(auto, unfolding(rules::specs::Registers::read, rules::specs::Registers::read_refusal, rules::specs::Answers::answer_number))]
pub fn read(d: Registers, offset: u64, width: u64) -> Result<u64, Refusal>
    ensures { Comes result (read_refusal offset width) (read d offset width) }
{
    let a = access::access(offset, width);
    access::allowed(a)?;
    Ok(read_value(d, a))
}

// ---- Write

fn done(d: Registers) -> Written
    ensures { result ≡ done d }
{
    Written {
        registers: d,
        interrupt: false,
        resets: false,
    }
}

// What a write makes of a ring, as what it makes of the registers.
fn in_ring(d: Registers, n: u8, w: RingWritten) -> Written
    ensures { result ≡ record { registers = with_ring d n w.ring; interrupt = w.raises; resets = false } }
{
    Written {
        registers: with_ring(d, n, w.ring),
        interrupt: w.raises,
        resets: false,
    }
}

// CONTROL: bit 0 resets the device.
#[tactic(auto, unfolding(rules::specs::Registers::store, rules::specs::Registers::sets, rules::specs::Registers::raised))]
fn store_control(d: Registers, v: u64) -> Written
    ensures { Writes result (store d Register.Control v) }
{
    if v % 2 == 1 {
        return Written {
            registers: reset(d),
            interrupt: false,
            resets: true,
        };
    }
    done(d)
}

// A write of a whole register. One of 4 bytes takes a number of 32 bits.
#[tactic(auto, unfolding(rules::specs::Registers::store, rules::specs::Registers::sets, rules::specs::Registers::raised, rules::specs::Registers::with_test, rules::specs::Registers::with_test64, rules::specs::Registers::with_enable, rules::specs::Registers::in_ring, rules::specs::Registers::is_wide))]
fn store(d: Registers, register: Register, v: u64) -> Result<Written, Refusal>
    requires { is_wide register ≡ false → v < 2 ^ 32 }
    ensures { Gives result (store d register v) }
{
    let written = match register {
        Register::TestReg => done(Registers {
            test_reg: v as u32,
            ..d
        }),
        Register::TestReg64 => done(Registers {
            test_reg64: v,
            test_latch: 0,
            ..d
        }),
        Register::PortPhysEnable => done(Registers {
            enable: ports::port_bits(d.ports, v),
            enable_latch: 0,
            ..d
        }),
        Register::Control => store_control(d, v),
        Register::OfRing(n, which) => in_ring(d, n, ring::store(ring_at(d, n), which, v)?),
        Register::Magic
        | Register::PortPhysCount
        | Register::PortPhysLinkStatus
        | Register::SwitchId => done(d),
    };
    Ok(written)
}

// Each writable register of 8 bytes has a latch of its own.
#[tactic(auto, unfolding(rules::specs::Registers::latch_of))]
fn latch_of(d: Registers, register: Register) -> u32
    ensures { result ≡ latch_of d register }
{
    match register {
        Register::TestReg64 => d.test_latch,
        Register::PortPhysEnable => d.enable_latch,
        Register::OfRing(n, which) => ring::latch_of(ring_at(d, n), which),
        _ => 0,
    }
}

#[tactic(auto, unfolding(rules::specs::Registers::latch_effect, rules::specs::Registers::with_test64, rules::specs::Registers::with_enable))]
fn latch(d: Registers, register: Register, v: u32) -> Registers
    ensures { result ≡ latch_effect d register v }
{
    match register {
        Register::TestReg64 => Registers { test_latch: v, ..d },
        Register::PortPhysEnable => Registers {
            enable_latch: v,
            ..d
        },
        Register::OfRing(n, which) => with_ring(d, n, ring::latch(ring_at(d, n), which, v)),
        _ => d,
    }
}

#[tactic(auto, unfolding(rules::specs::Registers::taken))]
fn taken(width: u64, v: u64) -> u64
    ensures { result ≡ taken width v }
{
    if width == 4 { v % 0x1_0000_0000 } else { v }
}

// The number that reaches a register: what is written to an upper half is joined to the latch.
#[tactic(auto, unfolding(crate::specs::Fits::number_for, rules::specs::Registers::joined))]
fn number_for(d: Registers, a: Access, v: u64) -> u64
    requires { Bounded a v }
    ensures { result ≡ number_for d a v }
{
    match a {
        Access::Upper(r) => latch_of(d, r) as u64 + 0x1_0000_0000 * v,
        _ => v,
    }
}

// A write of a taken number to what it reaches. One call of `store` keeps the compiled code to one copy of the registers.
#[tactic(auto, unfolding(rules::specs::Registers::write_to, rules::specs::Registers::sets, rules::specs::Registers::raised, rules::specs::Answers::refusal_number))]
fn write_to(d: Registers, a: Access, v: u64) -> Result<Written, Refusal>
    requires { Bounded a v }
    ensures { Gives result (write_to d a v) }
{
    let n = number_for(d, a, v);
    match a {
        Access::NotAllowed => Err(Refusal::AccessNotAllowed),
        Access::Reserved => Ok(done(d)),
        Access::Lower(r) => Ok(done(latch(d, r, v as u32))),
        Access::Whole(r) | Access::Upper(r) => store(d, r, n),
    }
}

/// A register write. Refused, the registers stay as the caller has them.
pub fn write(d: Registers, offset: u64, width: u64, value: u64) -> Result<Written, Refusal>
    ensures { Gives result (write d offset width value) }
{
    write_to(d, access::access(offset, width), taken(width, value))
}
