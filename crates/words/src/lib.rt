// The small part of a device as 20 words of 64 bits, which is how a host in C holds it (specs/Words.antt): no field there is a bool, so
// whatever the words are they mean a device.

#![tactic(auto)]

ghost use Rattle.std.specs.Prelude.{◌≡◌, ◌%◌};
ghost use Rattle.words.specs.Words.{ring_in, registers_in, device_in};

use rules::{Counts, Device, Firsts, Registers, Ring};

// ---- Out of words

fn ring_of(w: [u64; 20]) -> Ring
    ensures { result ≡ ring_in w }
{
    Ring {
        base_addr: w[4],
        base_latch: (w[9] % 4294967296) as u32,
        size: (w[10] % 4294967296) as u32,
        head: (w[11] % 4294967296) as u32,
        tail: (w[12] % 4294967296) as u32,
        credits: (w[13] % 4294967296) as u32,
    }
}

fn registers_of(w: [u64; 20], ring: Ring) -> Registers
    ensures { result ≡ registers_in w ring }
{
    Registers {
        switch_id: w[0],
        links: w[1],
        enable: w[2],
        test_reg64: w[3],
        ports: (w[5] % 4294967296) as u32,
        enable_latch: (w[6] % 4294967296) as u32,
        test_latch: (w[7] % 4294967296) as u32,
        test_reg: (w[8] % 4294967296) as u32,
        ring: ring,
    }
}

// The device that the words mean.
pub fn device_of(w: [u64; 20]) -> Device
    ensures { result ≡ device_in w }
{
    Device {
        registers: registers_of(w, ring_of(w)),
        counts: Counts {
            flows: w[14] as usize,
            groups: w[15] as usize,
        },
        firsts: Firsts {
            vlan: w[16] as usize,
            termination: w[17] as usize,
            routing: w[18] as usize,
            bridging: w[19] as usize,
        },
    }
}

// ---- Into words

fn wide(x: u32) -> u64
    ensures { result % 4294967296 ≡ x }
{
    x as u64
}

// Words that mean the device.
pub fn words_of(d: Device) -> [u64; 20]
    ensures { device_in result ≡ d }
{
    let regs = d.registers;
    let ring = regs.ring;
    let counts = d.counts;
    let firsts = d.firsts;
    let ports = wide(regs.ports);
    let enable_latch = wide(regs.enable_latch);
    let test_latch = wide(regs.test_latch);
    let test_reg = wide(regs.test_reg);
    let base_latch = wide(ring.base_latch);
    let size = wide(ring.size);
    let head = wide(ring.head);
    let tail = wide(ring.tail);
    let credits = wide(ring.credits);
    [
        regs.switch_id,
        regs.links,
        regs.enable,
        regs.test_reg64,
        ring.base_addr,
        ports,
        enable_latch,
        test_latch,
        test_reg,
        base_latch,
        size,
        head,
        tail,
        credits,
        counts.flows as u64,
        counts.groups as u64,
        firsts.vlan as u64,
        firsts.termination as u64,
        firsts.routing as u64,
        firsts.bridging as u64,
    ]
}
