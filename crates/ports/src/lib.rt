// Ports and their bitmaps: bit p stands for port p.

#![tactic(auto)]

ghost use Rattle.std.specs.Prelude.{◌≡◌, ◌<◌};
ghost use Rattle.rules.specs.Bytes.{bit};
ghost use Rattle.rules.specs.Registers.{port_bits, port_count_allowed, port_allowed, link_effect, is_up};

use rules::{MAX_PORTS, Registers};

pub fn bit(p: u64, v: u64) -> bool
    ensures { result ≡ bit p v }
{
    if p < 64 {
        return (v >> p) & 1 == 1;
    }
    false
}

// The bits of ports 1 to the port count.
pub fn port_bits(ports: u32, v: u64) -> u64
    ensures { result ≡ port_bits ports v }
{
    if ports < 63 {
        return v % (1 << (ports + 1)) / 2 * 2;
    }
    v / 2 * 2
}

pub fn port_count_allowed(ports: u64) -> bool
    ensures { result ≡ port_count_allowed ports }
{
    (1 <= ports) & (ports <= MAX_PORTS as u64)
}

pub fn port_allowed(d: Registers, port: u64) -> bool
    ensures { result ≡ port_allowed d port }
{
    port_count_allowed(d.ports as u64) & (1 <= port) & (port <= d.ports as u64)
}

pub fn links_after(links: u64, port: u64, up: bool) -> u64
    requires { port < 64 }
    ensures { result ≡ link_effect links port up }
{
    if bit(port, links) {
        if up {
            return links;
        }
        return links - (1 << port);
    }
    if up {
        return links + (1 << port);
    }
    links
}

// Whether a port's link is up and the port enabled.
pub fn is_up(d: Registers, port: u64) -> bool
    ensures { result ≡ is_up d port }
{
    bit(port, d.links) & bit(port, d.enable)
}
