// undo N FILE OUT: writes to OUT the payloads which, carried out after a journal, give back the tables after its first N lines.

#![tactic(auto)]

mod reading;

use std::env::Env;
use std::fs::{File, OpenFile};
use std::io;
use std::io::{ErrorKind, Write};
use std::rt::Files;
use tables::Places;
use undoing::Undone;

// More than the longest list has: 768 payloads, 203,264 bytes.
const ROOM: usize = 204800;

const HELP: &str = "undo N FILE OUT
Writes to OUT the list of payloads which, carried out after the whole journal FILE (standard input where it is -),
give back the tables that stood after its first N lines; N is decimal or, after 0x, hexadecimal, and has 64 bits.
Each payload stands behind its length of 2 bytes. Prints how many payloads and bytes the list has;
or, as 'refused 15' or 'refused 14 line 2', the first fault and its line (0: the header), and OUT is left as it was:
10 cut short, 11 mark, 12 version, 13 port count, 14 the line disagrees with its replay, 15 fewer than N lines.
./run undo ends with 0 where it is done, 1 where a refusal is printed, 2 where the work could not be done;
the program alone always ends with 0.
";

fn help<T: Print + Eprint>(rt: &T) {
    if let Err(e) = print!(rt; "{HELP}") {
        files::tell(rt, "standard output", &e);
    }
}

fn print<T: Print + Eprint>(rt: &T, u: Undone) {
    let mut text = [0u8; 160];
    let n = report::undo_outcome(&mut text, u);
    if let Err(e) = Print::write_all(rt, &text[..n]) {
        files::tell(rt, "standard output", &e);
    }
}

// What cannot be brought to a disk, as a pipe, a terminal or a device, has the bytes once they are written.
fn needs_no_disk(e: &io::Error) -> bool {
    matches!(e.kind(), ErrorKind::InvalidInput | ErrorKind::Unsupported)
}

// Writes a list to OUT. A file that lies elsewhere may take the bytes and fail afterwards: it is asked for that before it is closed.
fn write_all<T: Files>(rt: &T, path: &str, list: &[u8]) -> io::Result<()> {
    let mut file = File::create(rt, path)?;
    file.write_all(list)?;
    match file.sync_all() {
        Ok(()) => Ok(()),
        Err(e) => { if needs_no_disk(&e) { Ok(()) } else { Err(e) } }
    }
}

// Whether all of a list is in OUT; where it is not, OUT is named on standard error, and what is in it is not told.
fn write<T: Files + Eprint>(rt: &T, path: &str, list: &[u8]) -> bool {
    if let Err(e) = write_all(rt, path, list) {
        files::tell(rt, path, &e);
        return false;
    }
    true
}

// A refused run leaves OUT alone. What is written is printed only where it is all there.
fn finish<T: Files + Print + Eprint>(rt: &T, u: Undone, room: &[u8], out: &str) {
    if let Ok(listed) = u {
        let size = numbers::min(listed.size, room.len());
        if !write(rt, out, &room[..size]) {
            return;
        }
    }
    print(rt, u);
}

// A journal that cannot be read prints nothing on standard output and leaves OUT alone.
fn undo<T: Files + Input + Print + Eprint>(rt: &T, n: u64, path: &str, out: &str) {
    let mut places = Places::new();
    let mut early = Places::new();
    let d = reading::read_file(rt, path, n, &mut places, &mut early);
    if d.failure.is_some() {
        return;
    }
    let ended = d.ended;
    let mut room = [0u8; ROOM];
    let u = undoing::write(ended, n, &mut room, &places, &early);
    finish(rt, u, &room, out);
}

fn undo_arguments<T: Env + Files + Input + Print + Eprint>(rt: &T, n: u64) {
    let mut path = [0u8; 4096];
    let mut out = [0u8; 4096];
    match files::argument(rt, 2, &mut path) {
        Ok(path) => match files::argument(rt, 3, &mut out) {
            Ok(out) => undo(rt, n, path, out),
            Err(e) => files::tell(rt, "undo: OUT", &e),
        },
        Err(e) => files::tell(rt, "undo: FILE", &e),
    }
}

fn undo_number<T: Env + Files + Input + Print + Eprint>(rt: &T, word: &[u8]) {
    let Some(n) = text::number(word) else {
        let _ = eprintln!(rt; "undo: N is no number of 64 bits");
        return;
    };
    undo_arguments(rt, n);
}

// A first word that is longer than a path can be is no number.
fn run<T: Env + Files + Input + Print + Eprint>(rt: &T) {
    let mut word = [0u8; 4096];
    let first = match rt.arg(1, &mut word) {
        Ok(n) => &word[..n],
        Err(_) => &word[..0],
    };
    if first == b"--help".as_slice() {
        help(rt);
    } else if files::has_argument(rt, 3) & !files::has_argument(rt, 4) {
        undo_number(rt, first);
    } else {
        let _ = eprintln!(rt; "undo: expected N FILE OUT; undo --help says what it does");
    }
}

fn main(rt: HostRuntime) {
    run(&rt);
}
