// console [FILE]: runs a script of calls, a file or standard input (docs/CONSOLE.md).

#![tactic(auto)]

use std::env::Env;
use std::rt::Files;

const HELP: &str = "console [FILE]
Reads calls, one a line, from FILE (standard input where there is none or it is -), and prints the outcome of each:

memory N                    N zero bytes, up to 1048576
poke ADDR HEX               the guest writes these bytes
peek ADDR LEN               prints bytes
fresh PORTS SWITCH_ID       prints ANSWER
link PORT UP                prints ANSWER
read WIDTH OFFSET           prints ANSWER VALUE
write WIDTH OFFSET VALUE    prints ANSWER RAISED
work ROOM                   prints ANSWER RAISED RECORD
frame PORT HEX [LISTLEN]    prints ANSWER N, and PORT VLAN POP and two MACs in three numbers each for each output
header ROOM                 prints ANSWER HEADER

Numbers are decimal or 0x-hexadecimal, bytes hexadecimal, - for none. Lines that begin with # are passed over.
./run console ends with 0 where all is done, 2 where a line is no call or a file cannot be read or written;
the program alone always ends with 0.
";

fn help<T: Print + Eprint>(rt: &T) {
    if let Err(e) = print!(rt; "{HELP}") {
        script::fail(rt, "standard output", &e);
    }
}

fn run<T: Env + Files + Input + Print + Eprint>(rt: &T) {
    if !files::has_argument(rt, 1) {
        script::run(rt);
        return;
    }
    let mut word = [0; 4096];
    match files::argument(rt, 1, &mut word) {
        Ok("--help") => help(rt),
        Ok("-") => script::run(rt),
        Ok(path) => script::run_path(rt, path),
        Err(e) => script::fail(rt, "FILE", &e),
    }
}

fn main(rt: HostRuntime) {
    if files::has_argument(&rt, 2) {
        let _ = eprintln!(rt; "console: more than one argument; console --help says what it takes");
    } else {
        run(&rt);
    }
}
