// The incident: one change posted, the same HEAD written again and again, and the change carried out once; then rings that wrap
// around. The script is `stdin`, and `stdout` is what the second implementation of the device prints for it (docs/CONSOLE.md).

#![tactic(auto)]

fn main(rt: HostRuntime) {
    script::run(&rt);
}
