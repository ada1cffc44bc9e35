// Which of its flows decides in each table, while adds, mods that move a flow and dels come one after the other, with all 256 places taken, and
// after a device reset. The script is `stdin`, and `stdout` is what the second implementation of the device prints for it (docs/CONSOLE.md).

#![tactic(auto)]

fn main(rt: HostRuntime) {
    script::run(&rt);
}
