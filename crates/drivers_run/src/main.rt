// The commands that Linux's rocker driver sent in three runs, as captured, each run on a new switch (docs/DRIVERS.md). The script is
// `stdin`, and `stdout` is what the second implementation of the device prints for it (docs/CONSOLE.md).

#![tactic(auto)]

fn main(rt: HostRuntime) {
    script::run(&rt);
}
