// An evening, a night, and the night undone: the list of payloads that `undo` writes for the night, posted behind it, and the same frames
// after each of the three. The script is `stdin`, and `stdout` is what the second implementation of the device prints for it
// (docs/UNDO.md).

#![tactic(auto)]

fn main(rt: HostRuntime) {
    script::run(&rt);
}
