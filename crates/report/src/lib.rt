// What a replay prints, and what undoing a journal prints.

#![tactic(auto)]

ghost use Rattle.std.specs.Prelude.{◌≡◌, ◌++◌, ◌+◌, ◌≤◌, length};
ghost use Rattle.rules.specs.Tables.{live_flows, live_groups};
ghost use Rattle.rules.specs.Journal.{decimal, item, line, Replayed.Replays, Replayed.Fails, report};
ghost use Rattle.rules.specs.Undo.{word_payloads, word_bytes, undo_report};
ghost use Rattle.replaying.specs.Reading.{progress_of};
ghost use Rattle.replaying.specs.Replaying.{result_of};
ghost use Rattle.tables.specs.Arrays.{arrays_of};
ghost use Rattle.report.specs.Reporting.{Front, Puts, told_undone, told_outcome};

use itoa::Buffer;
use journal::put_bytes;
use listing::Listed;
use replaying::reader::Progress;
use replaying::replay::{ReplayFault, Replayed};
use rules::{FlowRow, GroupHead, MAX_MEMBERS};
use tables::Places;

fn put_number(out: &mut [u8], at: usize, n: u64) -> usize
    requires { at + 20 ≤ length out.old }
    ensures { Puts result out.new at (decimal n) out.old 20 }
{
    let mut digits = Buffer::new();
    let text = digits.format(n).as_bytes();
    put_bytes(out, at, text);
    at + text.len()
}

// A word, a space, a number.
fn put_item(out: &mut [u8], at: usize, word: &[u8], n: u64) -> usize
    requires { at + length word.now + 21 ≤ length out.old }
    ensures { Puts result out.new at (item word.now n) out.old (length word.now + 21) }
{
    put_bytes(out, at, word);
    let end = at + word.len();
    put_bytes(out, end, &[b' ']);
    put_number(out, end + 1, n)
}

fn put_line(out: &mut [u8], at: usize, word: &[u8], n: u64) -> usize
    requires { at + length word.now + 22 ≤ length out.old }
    ensures { Puts result out.new at (line word.now n) out.old (length word.now + 22) }
{
    let end = put_item(out, at, word, n);
    put_bytes(out, end, &[b'\n']);
    end + 1
}

// How many places are live: a count beyond the places there are counts as all of them.
fn live_flows(count: usize, flows: &[FlowRow]) -> u64
    ensures { result ≡ length (live_flows count flows.now) }
{
    numbers::min(count, flows.len()) as u64
}

fn live_groups(count: usize, heads: &[GroupHead], members: &[[u16; MAX_MEMBERS]]) -> u64
    ensures { result ≡ length (live_groups count heads.now members.now) }
{
    numbers::min(count, numbers::min(heads.len(), members.len())) as u64
}

// The five lines.
fn put_progress(out: &mut [u8], p: Progress, places: &Places) -> usize
    requires { 160 ≤ length out.old }
    ensures { Puts result out.new 0 (report (Replays (progress_of p (arrays_of places.now)))) out.old 160 }
{
    let counts = p.counts;
    let live = live_flows(counts.flows, &places.flows);
    let groups = live_groups(counts.groups, &places.heads, &places.members);
    let a = put_line(out, 0, b"ports", p.terms.ports as u64);
    let b = put_line(out, a, b"lines", p.records);
    let c = put_line(out, b, b"charged", p.charged);
    let d = put_line(out, c, b"flows", live);
    put_line(out, d, b"groups", groups)
}

// The line of a fault.
fn put_fault(out: &mut [u8], answer: u64, at: u64) -> usize
    requires { 160 ≤ length out.old }
    ensures { Puts result out.new 0 (report (Fails answer at)) out.old 160 }
{
    let a = put_item(out, 0, b"refused", answer);
    put_bytes(out, a, &[b' ']);
    put_line(out, a + 1, b"line", at)
}

// The lines that the program prints, at the start of a buffer, and how many bytes they have.
pub fn report(out: &mut [u8; 160], q: Replayed, places: &Places) -> usize
    ensures puts { Puts result out.new 0 (report (result_of q (arrays_of places.now))) out.old 160 }
    ensures front { Front result out.new }
{
    match q {
        Ok(progress) => put_progress(out, progress, places),
        Err(fault) => put_fault(out, answers::refusal_number(fault.refusal), fault.at),
    }
}

// The two lines of a list.
fn put_list(out: &mut [u8], count: u64, size: u64) -> usize
    requires { 160 ≤ length out.old }
    ensures { Puts result out.new 0 (line word_payloads count ++ line word_bytes size) out.old 160 }
{
    let a = put_line(out, 0, b"payloads", count);
    put_line(out, a, b"bytes", size)
}

/// The same of an undone journal: its list's two lines, or the fault; 15 and 16 have no line of the journal.
pub fn undone(out: &mut [u8; 160], answer: u64, at: u64, count: u64, size: u64) -> usize
    ensures puts { Puts result out.new 0 (undo_report (told_undone answer at count size)) out.old 160 }
    ensures front { Front result out.new }
{
    if answer == 0 {
        put_list(out, count, size)
    } else if 14 < answer {
        put_line(out, 0, b"refused", answer)
    } else {
        put_fault(out, answer, at)
    }
}

/// The same of what undoing gives.
pub fn undo_outcome(out: &mut [u8; 160], u: Result<Listed, ReplayFault>) -> usize
    ensures puts { Puts result out.new 0 (undo_report (told_outcome u)) out.old 160 }
    ensures front { Front result out.new }
{
    match u {
        Ok(listed) => undone(out, 0, 0, listed.count, listed.size as u64),
        Err(fault) => undone(out, answers::refusal_number(fault.refusal), fault.at, 0, 0),
    }
}
