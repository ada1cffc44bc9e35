// Worked examples of document 01, each behind a comment that says what it shows. The script is `stdin` (tests/scripts/worked.py), and
// `stdout` is what the second implementation of the device prints for it (docs/CONSOLE.md).

#![tactic(auto)]

fn main(rt: HostRuntime) {
    script::run(&rt);
}
