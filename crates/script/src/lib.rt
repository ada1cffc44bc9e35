//! A script of calls on one device and its guest memory: a call a line of an input, its outcome a line on standard output. A line that is
//! no call, or that cannot be carried out, is reported on standard error, and the script goes on. A read or a write that fails is reported
//! there too, and ends it.

#![tactic(auto)]

use calls::Host;
use either::Either;
use files::Reason;
use guest::Memory;
use lines::told::Gathered;
use lines::{End, Fault, Reader};
use rules::{FLOW_WORDS, HEAD_WORDS, MAX_FLOWS, MAX_GROUPS, MAX_MEMBERS};
use std::fs::File;
use std::io;
use std::io::{Read, Write};
use std::rt::Files;

// A device, its host, and its guest's memory.
#[derive(Drop)]
struct Console {
    host: Host,
    memory: Memory,
}

// What ends a script before its input does.
#[derive(Clone, Copy)]
enum Failure {
    Input(io::Error),
    Output(io::Error),
}

impl Console {
    // One line.
    fn run_line<W: Write>(&mut self, out: &mut W, s: &[u8]) -> Result<(), Fault> {
        match text::word(s, 0) {
            b"memory" => self.memory.resize(s),
            b"poke" => self.memory.poke(s),
            b"peek" => self.memory.peek(out, s),
            _ => self.host.call(out, s, self.memory.bytes()),
        }
    }

    // The line that a reader has taken. Empty ones and those that begin with # are passed over.
    fn run_taken<W: Write>(&mut self, out: &mut W, taken: Option<&[u8]>) -> Result<(), Fault> {
        match taken.ok_or(Fault::Line("longer than 65535 bytes"))? {
            [] | [b'#', ..] => Ok(()),
            s => self.run_line(out, s),
        }
    }

    // Each line of an input. One that a failed read broke off is not run.
    fn run<E: Eprint, R: Read, W: Write>(
        &mut self,
        rt: &E,
        from: &mut R,
        input: &mut [u8],
        line: &mut [u8],
        out: &mut W,
    ) -> Result<(), Failure> {
        let mut reader = Reader::new();
        for _ in 0..u64::MAX {
            let taken = reader.take(from, input, line);
            if let End::Failure(e) = taken.end {
                return Err(Failure::Input(e));
            }
            if let Err(fault) = self.run_taken(out, taken.text) {
                fault
                    .report(rt, "console", reader.number())
                    .map_err(Failure::Output)?;
            }
            if let End::Input = taken.end {
                break;
            }
        }
        Ok(())
    }
}

/// Names what could not be opened, read or written, on standard error, and says why.
pub fn fail<E: Eprint>(rt: &E, what: &str, e: &io::Error) {
    let _ = eprintln!(rt; "console: {what}: {}", Reason(e));
}

// Standard input or a file, each as the one type of reader that the loop is compiled for.
fn run_input<T: Files + Input + Print + Eprint>(
    rt: &T,
    from: Either<T::Reader, T::File>,
    name: &str,
) {
    let mut input = from;
    let mut out = Gathered::nothing(io::writer(rt));
    run_from(rt, &mut input, name, &mut out);
}

// Each stored script has a program of its own that calls this: `rt ci` runs a program on one `stdin`, and names the one whose `stdout` differs.
/// Runs the script on standard input.
pub fn run<T: Files + Input + Print + Eprint>(rt: &T) {
    run_input(rt, Either::Left(rt.reader()), "standard input");
}

/// Runs the script of a file.
pub fn run_path<T: Files + Input + Print + Eprint>(rt: &T, path: &str) {
    match File::open(rt, path) {
        Ok(file) => run_input(rt, Either::Right(file), path),
        Err(e) => fail(rt, path, &e),
    }
}

/// Runs the script of an input, by its reader and its name, to its end or to a read or a write that fails. A proved loop ends, and nothing
/// says that the input does: no run comes to the end of its turns.
pub fn run_from<E: Eprint, R: Read, W: Write>(rt: &E, from: &mut R, name: &str, out: &mut W) {
    let mut console = Console {
        host: Host {
            device: None,
            flows: [[0; FLOW_WORDS]; MAX_FLOWS],
            heads: [[0; HEAD_WORDS]; MAX_GROUPS],
            members: [[0; MAX_MEMBERS]; MAX_GROUPS],
            order: [0; MAX_FLOWS],
            buffer: [0; calls::ROOM],
            list: [0; calls::LIST],
        },
        memory: Memory {
            all: [0; guest::MOST],
            size: 0,
        },
    };
    let mut input = [0; 65536];
    let mut line = [0; 65535];
    match console.run(rt, from, &mut input, &mut line, out) {
        Ok(()) => {}
        Err(Failure::Input(e)) => fail(rt, name, &e),
        Err(Failure::Output(e)) => fail(rt, "standard output", &e),
    }
}
