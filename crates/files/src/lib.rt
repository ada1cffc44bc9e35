//! The words that a program is called with, files by name, and what an error says.

#![tactic(auto)]

use either::{Either, Left, Right};
use std::env::{Env, FillError};
use std::fmt::{Display, Formatter};
use std::fs::File;
use std::io::{ErrorKind, Write};
use std::rt::Files;
use std::{fmt, io};

// The system's numbers of two errors: what is missing, and a name that is too long.
const INVALID_ARGUMENT: i32 = 22;

const NAME_TOO_LONG: i32 = 36;

/// A word of the program's call as a path, or why it is none.
pub fn argument<'a, T: Env>(rt: &T, i: usize, word: &'a mut [u8; 4096]) -> io::Result<&'a str> {
    match rt.arg(i, word) {
        Ok(n) => match str::from_utf8(&word[..n]) {
            Ok(path) => Ok(path),
            Err(_) => Err(io::Error::new(ErrorKind::InvalidInput, "not text in UTF-8")),
        },
        Err(FillError::TooLong) => Err(io::Error::from_raw_os_error(NAME_TOO_LONG)),
        Err(FillError::NotPresent) => Err(io::Error::from_raw_os_error(INVALID_ARGUMENT)),
    }
}

/// Whether the program was called with so many words.
pub fn has_argument<T: Env>(rt: &T, i: usize) -> bool {
    let mut word = [0u8; 1];
    !matches!(rt.arg(i, &mut word), Err(FillError::NotPresent))
}

/// The name of an input: - stands for standard input.
pub fn name(path: &str) -> &str {
    match path {
        "-" => "standard input",
        _ => path,
    }
}

/// Standard input, where the path is -, or a file, which is closed where it is let go. Both are one type, so that what reads them is compiled
/// once and its arrays stand on the stack once.
pub fn open<T: Files + Input>(rt: &T, path: &str) -> io::Result<Either<T::Reader, T::File>> {
    match path {
        "-" => Ok(Left(rt.reader())),
        _ => Ok(Right(File::open(rt, path)?)),
    }
}

/// What an error says, without the number that stands behind the system's words.
#[derive(Clone, Copy)]
pub struct Reason<'e>(pub &'e io::Error);

impl Display for Reason<'_> {
    fn fmt<W: fmt::Write>(&self, f: &mut Formatter<W>) -> fmt::Result {
        let mut text = [0u8; 256];
        let mut rest = &mut text[..];
        let _ = write!(rest, "{}", self.0);
        let used = 256usize.saturating_sub(rest.len());
        let whole = str::from_utf8(&text[..used]).unwrap_or("");
        f.write_str(match whole.split_once(" (os error ") {
            Some((said, _)) => said,
            None => whole,
        })
    }
}

/// A line on standard error: what failed, and why.
pub fn tell<E: Eprint>(rt: &E, what: &str, e: &io::Error) {
    let _ = eprintln!(rt; "{what}: {}", Reason(e));
}

/// Names an input that cannot be opened or read, on standard error, and says why.
pub fn fail<E: Eprint>(rt: &E, path: &str, e: &io::Error) {
    tell(rt, name(path), e);
}
