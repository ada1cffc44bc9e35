//! What a replay prints.

use replaying::replay::Replayed;
use std::io;
use std::io::Write;
use tables::Places;

/// The five lines of a replay, or the line that refuses.
pub fn print_report<W: Write>(out: &mut W, q: Replayed, places: &Places) -> io::Result<()> {
    let mut text = [0u8; 160];
    let n = report::report(&mut text, q, places);
    out.write_all(&text[..n])
}
