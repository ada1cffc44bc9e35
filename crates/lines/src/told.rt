//! Outcomes, a line each, to a writer that is flushed at the line's end: `Gathered` writes a line at once where its buffer holds it. Each
//! function says whether all of its line is written; behind a write that failed nothing more of a line is.
use crate::print;
use arrayvec::ArrayVec;
use std::io;
use std::io::Write;

/// A writer, and what waits to be written to it. What waits is let go with it.
#[derive(Drop)]
pub struct Gathered<W: Write + Drop> {
    out: W,
    text: ArrayVec<u8, 4096>,
}

impl<W: Write + Drop> Gathered<W> {
    /// A writer for which nothing waits.
    pub fn nothing(out: W) -> Gathered<W> {
        Gathered {
            out,
            text: ArrayVec::new(),
        }
    }

    // Writes what waits. It waits no longer, also where that fails.
    fn pass_on(&mut self) -> io::Result<()> {
        let written = self.out.write_all(self.text.as_slice());
        self.text.clear();
        written
    }
}

impl<W: Write + Drop> Write for Gathered<W> {
    // Bytes behind those that wait. What the buffer has no room for is written, after what waits.
    fn write(&mut self, s: &[u8]) -> io::Result<usize> {
        if self.text.try_extend_from_slice(s).is_err() {
            self.pass_on()?;
            self.out.write_all(s)?;
        }
        Ok(s.len())
    }

    // Writes what waits.
    fn flush(&mut self) -> io::Result<()> {
        self.pass_on()?;
        self.out.flush()
    }
}

// A space, and whether vector 0 was raised.
fn vector<W: Write>(out: &mut W, interrupt: bool) -> io::Result<()> {
    out.write_all(if interrupt { b" 0" } else { b" -" })
}

// A space, and bytes.
fn spaced<W: Write>(out: &mut W, s: &[u8]) -> io::Result<()> {
    out.write_all(b" ")?;
    print::bytes(out, s)
}

// Ends the line, and writes it.
fn end<W: Write>(out: &mut W) -> io::Result<()> {
    print::end(out)?;
    out.flush()
}

/// ANSWER
pub fn answer<W: Write>(out: &mut W, answer: u64) -> io::Result<()> {
    write!(out, "{answer}")?;
    end(out)
}

/// ANSWER VALUE
pub fn value<W: Write>(out: &mut W, answer: u64, v: u64) -> io::Result<()> {
    write!(out, "{answer} {v}")?;
    end(out)
}

/// ANSWER RAISED
pub fn raised<W: Write>(out: &mut W, answer: u64, interrupt: bool) -> io::Result<()> {
    write!(out, "{answer}")?;
    vector(out, interrupt)?;
    end(out)
}

/// ANSWER RAISED RECORD
pub fn record<W: Write>(
    out: &mut W,
    answer: u64,
    interrupt: bool,
    record: &[u8],
) -> io::Result<()> {
    write!(out, "{answer}")?;
    vector(out, interrupt)?;
    spaced(out, record)?;
    end(out)
}

/// ANSWER HEADER
pub fn header<W: Write>(out: &mut W, answer: u64, header: &[u8]) -> io::Result<()> {
    write!(out, "{answer}")?;
    spaced(out, header)?;
    end(out)
}

/// ANSWER N, and the numbers of the outputs.
pub fn outputs<W: Write>(out: &mut W, answer: u64, n: u64, numbers: &[u16]) -> io::Result<()> {
    write!(out, "{answer} {n}")?;
    for number in numbers {
        print::value(out, u64::from(*number))?;
    }
    end(out)
}

/// The bytes alone.
pub fn bytes<W: Write>(out: &mut W, s: &[u8]) -> io::Result<()> {
    print::bytes(out, s)?;
    end(out)
}
