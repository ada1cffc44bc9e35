// input_run FILE..: replays each file, or standard input for `-`, and prints what it comes to, or that it cannot be read. A file is read
// again through the smallest buffer, so that nearly each record crosses a read, and again while it grows: each read then brings a few bytes
// and is not the end.

#![tactic(auto)]

ghost use Rattle.std.specs.Prelude.{◌≤◌, length};
ghost use Rattle.replaying.specs.Replaying.{longest};

use input::reading::Progress;
use input::{pieces, reading};
use replaying::replay;
use replaying::replay::Replayed;
use std::fs::File;
use std::io::{IsTerminal, Read, Write};
use std::rt::Files;
use std::{fs, io};
use tables::Places;

// What a file is written to while it grows, one after another.
const GROWN: &str = "grown";

// Whether the file gives the same text through a buffer that holds one record.
fn agrees_in_one_record<T: Files + Input + Eprint>(
    to: &Progress<'_, T>,
    path: &str,
    whole: &[u8],
) -> io::Result<bool> {
    let mut places = Places::new();
    let mut buffer = [0u8; replay::LONGEST];
    let mut from = files::open(to.rt, path)?;
    let d = reading::drain(to, &mut from, &mut buffer, &mut places);
    let q = d.result;
    let mut text = [0u8; 160];
    let n = report::report(&mut text, q, &places);
    Ok(d.failure.is_none() & (&text[..n] == whole))
}

// One piece of a file, written to the end of another.
fn append<R: Read, W: Write>(from: &mut R, to: &mut W, piece: &mut [u8]) {
    if let Ok(n) = from.read(piece) {
        let _ = to.write_all(&piece[..n]);
    }
}

// Replays a file while it grows: before each read one piece of another file is written to its end.
fn grown<R: Read, W: Write, G: Read>(
    from: &mut R,
    to: &mut W,
    grown: &mut G,
    piece: &mut [u8],
    buffer: &mut [u8],
    places: &mut Places,
) -> Replayed
    requires { longest ≤ length buffer.old }
{
    let mut r = replay::open();
    let mut kept: usize = 0;
    let mut turns: u64 = 0xFFFF_FFFF;
    while 0 < turns {
        append(from, to, piece);
        let f = pieces::fill(grown, buffer, kept);
        let t = reading::turn(f, buffer, r, places);
        r = t.replay;
        kept = t.kept;
        turns = if t.goes_on { turns - 1 } else { 0 };
    }
    replay::finish(r, &buffer[..kept], places)
}

// Whether the file gives the same text where it comes in pieces of so many bytes.
fn agrees_in_pieces<T: Files>(
    rt: &T,
    path: &str,
    piece: &mut [u8],
    whole: &[u8],
) -> io::Result<bool> {
    let mut from = File::open(rt, path)?;
    let mut to = File::create_new(rt, GROWN)?;
    let mut file = File::open(rt, GROWN)?;
    let mut places = Places::new();
    let mut buffer = [0u8; 65536];
    let q = grown(
        &mut from,
        &mut to,
        &mut file,
        piece,
        &mut buffer,
        &mut places,
    );
    let mut text = [0u8; 160];
    let n = report::report(&mut text, q, &places);
    fs::remove_file(rt, GROWN)?;
    Ok(&text[..n] == whole)
}

fn compare<T: Files + Input + Eprint, W: Write>(
    to: &Progress<'_, T>,
    out: &mut W,
    path: &str,
    whole: &[u8],
) -> io::Result<()> {
    if path == "-" {
        return Ok(());
    }
    if !agrees_in_one_record(to, path, whole)? {
        out.write_all(b"through a small buffer: something else\n")?;
    }
    let mut few = [0u8; 7];
    let mut some = [0u8; 1000];
    let in_few = agrees_in_pieces(to.rt, path, &mut few, whole)?;
    let in_some = agrees_in_pieces(to.rt, path, &mut some, whole)?;
    if !in_few | !in_some {
        out.write_all(b"in pieces: something else\n")?;
    }
    Ok(())
}

fn print<T: Files + Input + Eprint, W: Write>(
    to: &Progress<'_, T>,
    out: &mut W,
    path: &str,
) -> io::Result<()> {
    let mut places = Places::new();
    let d = reading::replay_file(to, path, &mut places);
    out.write_all(path.as_bytes())?;
    if d.failure.is_some() {
        return out.write_all(b"\ncannot be read\n");
    }
    out.write_all(b"\n")?;
    let q = d.result;
    let mut text = [0u8; 160];
    let n = report::report(&mut text, q, &places);
    out.write_all(&text[..n])?;
    compare(to, out, path, &text[..n])
}

fn main(rt: HostRuntime) -> io::Result<()> {
    let to = Progress {
        rt: &rt,
        program: "input_run",
        shows: rt.stderr().is_terminal(),
    };
    let mut out = rt.stdout();
    let mut word = [0u8; 4096];
    for i in 1..usize::MAX {
        if !files::has_argument(&rt, i) {
            break;
        }
        let path = files::argument(&rt, i, &mut word)?;
        print(&to, &mut out, path)?;
    }
    Ok(())
}
