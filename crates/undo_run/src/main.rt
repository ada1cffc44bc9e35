// Undoes journals from standard input, by one call and in pieces, and prints what each comes to and the room after it. Each stands behind
// its number n (8 bytes), the room's length (4) and its own (4); every byte of the room is 0xa5 before.

#![tactic(auto)]

ghost use Rattle.std.specs.Prelude.{◌≤◌, IfOk, length};
ghost use Rattle.rules.specs.Undo.{undo};
ghost use Rattle.undoing.specs.Undoing.{Is};

use earlier::reading;
use lines::print;
use std::io;
use std::io::{Read, Write};
use tables::Places;
use undoing::Undone;

// The most bytes that a journal and a room have here; of a longer one as many are taken.
const MOST: usize = 262144;

// Every byte of a room before the call.
const KEPT: u8 = 0xa5;

// n, the room's length, the journal's length.
#[derive(Clone, Copy)]
struct Question {
    n: u64,
    room: usize,
    journal: usize,
}

// A journal fed in pieces of so many bytes. What a piece leaves stands in front of the next.
fn in_pieces(
    n: u64,
    s: &[u8],
    step: usize,
    room: &mut [u8],
    places: &mut Places,
    early: &mut Places,
) -> Undone
    requires { 1 ≤ step }
    ensures { Is result room.new (undo s.now n room.old) }
{
    let mut u = reading::open(n);
    let mut at: usize = 0;
    let mut end: usize = 0;
    while end < s.len() {
        end = end + numbers::min(step, s.len() - end);
        let g = reading::feed(u, &s[at..end], places, early);
        u = g.undoing;
        at = at + g.used;
    }
    let ended = reading::finish(u, &s[at..], places, early);
    undoing::write(ended, n, room, places, early)
}

fn undo_whole(n: u64, s: &[u8], room: &mut [u8]) -> Undone {
    let mut places = Places::new();
    let mut early = Places::new();
    undoing::undo(s, n, room, &mut places, &mut early)
}

fn undo_in_pieces(n: u64, s: &[u8], step: usize, room: &mut [u8]) -> Undone
    requires { 1 ≤ step }
{
    let mut places = Places::new();
    let mut early = Places::new();
    in_pieces(n, s, step, room, &mut places, &mut early)
}

// Whether pieces give what the whole gives: the same numbers and the same room.
fn agrees_in(n: u64, s: &[u8], step: usize, whole: Undone, room: &[u8], space: &mut [u8]) -> bool
    requires { 1 ≤ step }
{
    let size = numbers::min(room.len(), space.len());
    let u = undo_in_pieces(n, s, step, &mut space[..size]);
    (u == whole) & (&space[..size] == room)
}

fn agrees(n: u64, s: &[u8], step: usize, whole: Undone, room: &[u8]) -> bool
    requires { 1 ≤ step }
{
    let mut space = [KEPT; MOST];
    agrees_in(n, s, step, whole, room, &mut space)
}

// done and the list's length, or the line that refuses.
fn print_outcome<W: Write>(out: &mut W, u: Undone) -> io::Result<()> {
    if let Ok(listed) = u {
        out.write_all(b"done")?;
        print::value(out, listed.size as u64)?;
        return print::end(out);
    }
    let mut text = [0u8; 160];
    let n = report::undo_outcome(&mut text, u);
    out.write_all(&text[..n])
}

fn print_question<W: Write>(
    out: &mut W,
    number: u64,
    n: u64,
    s: &[u8],
    u: Undone,
    room: &[u8],
) -> io::Result<()> {
    out.write_all(b"undo")?;
    print::value(out, number)?;
    print::end(out)?;
    print_outcome(out, u)?;
    out.write_all(b"room ")?;
    print::bytes(out, room)?;
    print::end(out)?;
    if !(agrees(n, s, 1, u, room) & agrees(n, s, 7, u, room) & agrees(n, s, 100, u, room)) {
        out.write_all(b"in pieces: something else\n")?;
    }
    Ok(())
}

fn answer_in<W: Write>(
    out: &mut W,
    number: u64,
    n: u64,
    s: &[u8],
    long: usize,
    space: &mut [u8],
) -> io::Result<()> {
    let size = numbers::min(long, space.len());
    let u = undo_whole(n, s, &mut space[..size]);
    print_question(out, number, n, s, u, &space[..size])
}

fn answer<W: Write>(out: &mut W, number: u64, n: u64, s: &[u8], long: usize) -> io::Result<()> {
    let mut space = [KEPT; MOST];
    answer_in(out, number, n, s, long, &mut space)
}

// Reads until the buffer is full, or to the input's end. Gives how many bytes came.
fn read_full<R: Read>(from: &mut R, buffer: &mut [u8]) -> io::Result<usize>
    ensures { IfOk result (λ n. n ≤ length buffer.new) }
{
    let mut done: usize = 0;
    while done < buffer.len() {
        let n = from.read(&mut buffer[done..])?;
        if n == 0 {
            break;
        }
        done += n;
    }
    Ok(done)
}

// The next question; none where the input has no sixteen bytes more.
fn ask<R: Read>(from: &mut R) -> io::Result<Option<Question>> {
    let mut head = [0u8; 16];
    if read_full(from, &mut head)? < 16 {
        return Ok(None);
    }
    Ok(Some(Question {
        n: wire::le(&head, 0),
        room: wire::le::<u32>(&head, 8) as usize,
        journal: wire::le::<u32>(&head, 12) as usize,
    }))
}

fn turn<R: Read, W: Write>(
    from: &mut R,
    out: &mut W,
    number: u64,
    q: Question,
    buffer: &mut [u8],
) -> io::Result<()> {
    let size = numbers::min(q.journal, buffer.len());
    let got = read_full(from, &mut buffer[..size])?;
    let k = numbers::min(got, buffer.len());
    answer(out, number, q.n, &buffer[..k], q.room)
}

fn answer_all<R: Read, W: Write>(from: &mut R, out: &mut W, buffer: &mut [u8]) -> io::Result<()> {
    for number in 1..1000001u64 {
        let Some(q) = ask(from)? else {
            break;
        };
        turn(from, out, number, q, buffer)?;
    }
    Ok(())
}

fn main(rt: HostRuntime) -> io::Result<()> {
    let mut buffer = [0u8; MOST];
    answer_all(&mut rt.stdin(), &mut rt.stdout(), &mut buffer)
}
