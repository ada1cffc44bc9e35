//! Parts of a line, to a writer.
use std::io;
use std::io::Write;

/// A space, and a number.
pub fn value<W: Write>(out: &mut W, v: u64) -> io::Result<()> {
    write!(out, " {v}")
}

/// Bytes as digits, - for none. They go in parts of 2048 bytes.
pub fn bytes<W: Write>(out: &mut W, s: &[u8]) -> io::Result<()> {
    if s.is_empty() {
        return out.write_all(b"-");
    }
    let mut digits = [0u8; 4096];
    for piece in s.chunks(2048) {
        let text = &mut digits[..2 * piece.len()];
        hexadecimal::spell(piece, text);
        out.write_all(text)?;
    }
    Ok(())
}

/// The line's end.
pub fn end<W: Write>(out: &mut W) -> io::Result<()> {
    out.write_all(b"\n")
}
