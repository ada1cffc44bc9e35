// Two studios behind one switch that routes between them: VLANs, a router's MAC, routes of overlapping prefixes of IPv4 and IPv6, a default
// route, and what goes to the host. The script is `stdin`, and `stdout` is what the second implementation of the device prints for it
// (docs/CONSOLE.md).

#![tactic(auto)]

fn main(rt: HostRuntime) {
    script::run(&rt);
}
