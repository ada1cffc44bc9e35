//! The lines of an input, one at a time, and those of an outcome: told whole (`told`), or in parts (`print`).

#![tactic(auto)]

ghost use Rattle.std.specs.Prelude.{◌≡◌};
ghost use Rattle.lines.specs.declared.Fault.TheVariants.{Output};

pub mod print;
pub mod told;

use std::io;
use std::io::Read;

/// Why a line has no outcome: it is no call or cannot be carried out, or what it prints cannot be written.
#[derive(Clone, Copy)]
pub enum Fault {
    Line(&'static str),
    Output(io::Error),
}

impl From<io::Error> for Fault {
    ghost from_gives = { λ e f. f ≡ Output e };

    fn from(e: io::Error) -> Fault {
        Fault::Output(e)
    }
}

impl Fault {
    /// Reports a line of this number on standard error, or hands on why its outcome cannot be written. A report that cannot be written is
    /// not told anywhere.
    pub fn report<E: Eprint>(self, rt: &E, program: &str, number: u64) -> io::Result<()> {
        match self {
            Fault::Line(why) => {
                let _ = eprintln!(rt; "{program}: line {number}: {why}");
                Ok(())
            }
            Fault::Output(e) => Err(e),
        }
    }
}

/// What ends a line: a newline, the input's end, or a read that failed, before which the line is not whole.
#[derive(Clone, Copy)]
pub enum End {
    Newline,
    Input,
    Failure(io::Error),
}

/// A line of an input without its end, LF or CR LF: none where it is too long.
#[derive(Clone, Copy)]
pub struct Line<'l> {
    pub text: Option<&'l [u8]>,
    pub end: End,
}

/// How far an input is read by way of a buffer, which its owner keeps beside it and hands to each call: of the bytes that the buffer holds,
/// those from `at` to `got` are in no line yet.
#[derive(Clone, Copy)]
pub struct Reader {
    at: usize,
    got: usize,
    number: u64,
}

// The length of a line with more bytes behind it, none where they do not fit.
fn append(line: &mut [u8], used: Option<usize>, bytes: &[u8]) -> Option<usize> {
    let start = used?;
    let end = start.checked_add(bytes.len())?;
    line.get_mut(start..end)?.copy_from_slice(bytes);
    Some(end)
}

// A line of this length. The CR before a newline is no part of it.
fn ended<'l>(line: &'l [u8], used: Option<usize>, end: End) -> Line<'l> {
    let text = used.and_then(|n| line.get(..n));
    let text = match end {
        End::Newline => text.map(|s| s.strip_suffix(b"\r").unwrap_or(s)),
        _ => text,
    };
    Line { text, end }
}

impl Reader {
    /// An input of which nothing has been read.
    pub fn new() -> Reader {
        Reader {
            at: 0,
            got: 0,
            number: 0,
        }
    }

    /// The number of the line that was taken last, counted from 1.
    pub fn number(&self) -> u64 {
        self.number
    }

    // Takes more of the line under way, up to its end or to that of what was read: what ends it.
    fn step<R: Read>(
        &mut self,
        from: &mut R,
        input: &mut [u8],
        line: &mut [u8],
        used: &mut Option<usize>,
    ) -> Option<End> {
        let (at, got) = (self.at, self.got);
        let unread = input.get(at..got).unwrap_or_default();
        match unread.iter().position(|b| *b == b'\n') {
            Some(n) => {
                *used = append(line, *used, &unread[..n]);
                self.at = at.wrapping_add(n + 1);
                Some(End::Newline)
            }
            None => {
                *used = append(line, *used, unread);
                self.refill(from, input)
            }
        }
    }

    // Reads into the buffer, all of which is used up: the line's end, where there is nothing more to read.
    fn refill<R: Read>(&mut self, from: &mut R, input: &mut [u8]) -> Option<End> {
        self.at = 0;
        self.got = 0;
        match from.read(input) {
            Ok(0) => Some(End::Input),
            Ok(got) => {
                self.got = got;
                None
            }
            Err(e) => Some(End::Failure(e)),
        }
    }

    /// The next line of the input, by way of its buffer. A last one needs no newline, and keeps a CR; after one with a newline stands an empty
    /// one.
    pub fn take<'l, R: Read>(
        &mut self,
        from: &mut R,
        input: &mut [u8],
        line: &'l mut [u8],
    ) -> Line<'l> {
        self.number = self.number.wrapping_add(1);
        let mut used = Some(0);
        for _ in 0..u64::MAX {
            if let Some(end) = self.step(from, input, line, &mut used) {
                return ended(line, used, end);
            }
        }
        ended(line, used, End::Input)
    }
}
