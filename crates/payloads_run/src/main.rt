// Payloads through the ring: each command, table, group type, fault and status, and both tables filled. The script is `stdin`, and
// `stdout` is what the second implementation of the device prints for it (docs/CONSOLE.md).

#![tactic(auto)]

fn main(rt: HostRuntime) {
    script::run(&rt);
}
