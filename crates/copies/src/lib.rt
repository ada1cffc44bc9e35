// One output (document 01: copies), written into a list unless it is left out.

#![tactic(auto)]

ghost use Rattle.std.specs.Prelude.{◌+◌, ◌*◌, ◌≤◌, ◌≡◌, true, not, ◌&&◌, ◌||◌, eqb, length};
ghost use Rattle.rules.specs.Choose.{choose};
ghost use Rattle.rules.specs.Limits.{output_numbers};
ghost use Rattle.rules.specs.Bytes.{swap16, splice};
ghost use Rattle.rules.specs.Registers.{is_up};
ghost use Rattle.rules.specs.Frame.{bridged, mac_numbers, copy_of};
ghost use Rattle.copies.specs.Copies.{rewrite_in, output_to, Sends};

use rules::{OUTPUT_NUMBERS, Registers};

// How a frame leaves by a group: its VLAN, and where it is routed its new MACs, in wire order. Where it is not, these have no meaning.
#[derive(Clone, Copy)]
pub struct Rewrite {
    pub vlan: u16,
    pub src_mac: u64,
    pub dst_mac: u64,
    pub routed: bool,
}

// The numbers of an output.
pub type Copy = [u16; OUTPUT_NUMBERS];

// ---- Numbers

// The low 16 bits with their bytes changed.
fn swapped(v: u64) -> u16
    ensures { result ≡ swap16 v }
{
    (v % 256 * 256 + v / 256 % 256) as u16
}

fn mac_numbers(mac: u64) -> [u16; 3]
    ensures { result ≡ mac_numbers mac }
{
    [
        swapped(mac),
        swapped(mac / 65536),
        swapped(mac / 4294967296),
    ]
}

fn number(pop: bool) -> u16
    ensures { result ≡ choose pop 1 0 }
{
    if pop { 1 } else { 0 }
}

// Made by itself, so that the compiler stores its six zeros at once.
fn bridged_copy(vlan: u16, port: u16, pop: bool) -> Copy
    ensures { result ≡ copy_of (output_to (bridged vlan) port pop) }
{
    [port, vlan, number(pop), 0, 0, 0, 0, 0, 0]
}

fn routed_copy(how: Rewrite, port: u16, pop: bool) -> Copy
    requires { how.routed ≡ true }
    ensures { result ≡ copy_of (output_to (rewrite_in how) port pop) }
{
    let s = mac_numbers(how.src_mac);
    let d = mac_numbers(how.dst_mac);
    let p = number(pop);
    [port, how.vlan, p, s[0], s[1], s[2], d[0], d[1], d[2]]
}

// ---- Writing

// Left out: outputs to the ingress port, unless they are routed, and to a port from 1 up that is down or not enabled. Port 0 is the host.
fn is_kept(d: Registers, ingress: u64, routed: bool, port: u64) -> bool
    ensures { result ≡ (routed || not (eqb port ingress)) && (eqb port 0 || is_up d port) }
{
    (routed | (port != ingress)) & ((port == 0) | ports::is_up(d, port))
}

fn put(list: &mut [u16], n: usize, copy: Copy)
    requires { output_numbers * n + output_numbers ≤ length list.old }
    ensures { list.new ≡ splice (output_numbers * n) copy list.old }
{
    let at = OUTPUT_NUMBERS * n;
    list[at..at + OUTPUT_NUMBERS].copy_from_slice(&copy);
}

fn write(list: &mut [u16], n: usize, how: Rewrite, port: u16, pop: bool)
    requires { output_numbers * n + output_numbers ≤ length list.old }
    ensures { list.new ≡ splice (output_numbers * n) (copy_of (output_to (rewrite_in how) port pop)) list.old }
{
    if how.routed {
        put(list, n, routed_copy(how, port, pop));
    } else {
        put(list, n, bridged_copy(how.vlan, port, pop));
    }
}

// Writes an output after n others, unless it is left out, and gives their number.
pub fn send(
    d: Registers,
    ingress: u64,
    how: Rewrite,
    port: u16,
    pop: bool,
    n: usize,
    list: &mut [u16],
) -> usize
    requires { output_numbers * n + output_numbers ≤ length list.old }
    ensures { Sends d ingress (output_to (rewrite_in how) port pop) n result list.old list.new }
{
    if is_kept(d, ingress, how.routed, port as u64) {
        write(list, n, how, port, pop);
        return n + 1;
    }
    n
}
