// Frames over all tables and all group types. The script is `stdin`, and `stdout` is what the second implementation of the
// device prints for it (docs/CONSOLE.md).

#![tactic(auto)]

fn main(rt: HostRuntime) {
    script::run(&rt);
}
