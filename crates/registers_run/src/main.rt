//! Runs a script of register calls on one device: a call a line on standard input, its outcome a line on standard output. A line
//! that cannot be understood is reported on standard error and passed over.

#![tactic(auto)]

use lines::told::Gathered;
use lines::{End, Fault, Reader, told};
use rules::Registers;
use std::io;
use std::io::{Read, Write};

const NOT_A_NUMBER: Fault = Fault::Line("not a number of 64 bits");

// The N numbers behind the name of a call.
fn numbers<const N: usize>(s: &[u8], expected: Fault) -> Result<[u64; N], Fault> {
    if text::count(s) != N.saturating_add(1) {
        return Err(expected);
    }
    text::arguments(s).ok_or(NOT_A_NUMBER)
}

// fresh PORTS SWITCH_ID. A refused one keeps the device that was there.
fn run_fresh<W: Write>(out: &mut W, d: &mut Registers, s: &[u8]) -> Result<(), Fault> {
    let [ports, switch_id] = numbers::<2>(s, Fault::Line("expected fresh PORTS SWITCH_ID"))?;
    let r = registers::fresh(ports, switch_id);
    told::answer(out, answers::answer_number(&r))?;
    *d = r.unwrap_or(*d);
    Ok(())
}

// link PORT UP, where UP is 0 or 1.
fn run_link<W: Write>(out: &mut W, d: &mut Registers, s: &[u8]) -> Result<(), Fault> {
    let [port, up] = numbers::<2>(s, Fault::Line("expected link PORT UP"))?;
    if 1 < up {
        return Err(Fault::Line("UP is 0 or 1"));
    }
    let r = registers::link(*d, port, up == 1);
    told::answer(out, answers::answer_number(&r))?;
    *d = r.unwrap_or(*d);
    Ok(())
}

// read WIDTH OFFSET
fn run_read<W: Write>(out: &mut W, d: &Registers, s: &[u8]) -> Result<(), Fault> {
    let [width, offset] = numbers::<2>(s, Fault::Line("expected read WIDTH OFFSET"))?;
    let r = registers::read(*d, offset, width);
    told::value(out, answers::answer_number(&r), r.unwrap_or(0))?;
    Ok(())
}

// write WIDTH OFFSET VALUE
fn run_write<W: Write>(out: &mut W, d: &mut Registers, s: &[u8]) -> Result<(), Fault> {
    let [width, offset, value] = numbers::<3>(s, Fault::Line("expected write WIDTH OFFSET VALUE"))?;
    let r = registers::write(*d, offset, width, value);
    let interrupt = r.map_or(false, |written| written.interrupt);
    told::raised(out, answers::answer_number(&r), interrupt)?;
    if let Ok(written) = r {
        *d = written.registers;
    }
    Ok(())
}

// A call.
fn run_call<W: Write>(out: &mut W, d: &mut Registers, s: &[u8]) -> Result<(), Fault> {
    match text::word(s, 0) {
        b"fresh" => run_fresh(out, d, s),
        b"link" => run_link(out, d, s),
        b"read" => run_read(out, d, s),
        b"write" => run_write(out, d, s),
        _ => Err(Fault::Line("unknown call")),
    }
}

// The line that a reader has taken. Empty ones and those that begin with # are passed over.
fn run_taken<W: Write>(out: &mut W, d: &mut Registers, taken: Option<&[u8]>) -> Result<(), Fault> {
    match taken.ok_or(Fault::Line("too long"))? {
        [] | [b'#', ..] => Ok(()),
        s => run_call(out, d, s),
    }
}

// Runs the script to its end, or to a read or a write that fails: a line that a failed read broke off is run, and no read is told of. A
// proved loop ends, and nothing says that the input does: no run comes to the end of its turns.
fn run<E: Eprint, R: Read, W: Write>(rt: &E, from: &mut R, out: &mut W) -> io::Result<()> {
    let mut d = registers::none();
    let mut input = [0; 4096];
    let mut line = [0; 256];
    let mut reader = Reader::new();
    for _ in 0..u64::MAX {
        let taken = reader.take(from, &mut input, &mut line);
        if let Err(fault) = run_taken(out, &mut d, taken.text) {
            fault.report(rt, "registers_run", reader.number())?;
        }
        if !matches!(taken.end, End::Newline) {
            break;
        }
    }
    Ok(())
}

fn main(rt: HostRuntime) -> io::Result<()> {
    let mut out = Gathered::nothing(rt.stdout());
    run(&rt, &mut rt.stdin(), &mut out)
}
