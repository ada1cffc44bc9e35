// A journal undone (rules, specs/Undo.antt): the list of payloads that gives the tables after its first n records back.

#![tactic(auto)]

ghost use Rattle.std.specs.Prelude.{◌≡◌, Err, IfOk};
ghost use Rattle.rules.specs.Tables.{tables_of};
ghost use Rattle.rules.specs.Undo.{payloads, fitted, undo_from, undo};
ghost use Rattle.replaying.specs.Replaying.{result_of};
ghost use Rattle.listing.specs.Listing.{InOrder};
ghost use Rattle.tables.specs.Arrays.{arrays_of};
ghost use Rattle.undoing.specs.Undoing.{Is};

use earlier::reading;
use earlier::reading::Ended;
use listing::Listed;
use replaying::replay::ReplayFault;
use rules::{Counts, Refusal};
use tables::Places;

/// What undoing gives: how many payloads and bytes the list has; or why nothing is written, with the record of a journal's fault.
pub type Undone = Result<Listed, ReplayFault>;

// A refusal that no record of the journal is named for.
fn refuse(refusal: Refusal) -> Undone
    ensures { result ≡ Err (record { refusal = refusal; at = 0 }) }
{
    Err(ReplayFault { refusal, at: 0 })
}

// The list for two pairs of tables, at the start of a room that has place for it; else 16, and the room as it was: the list is made elsewhere
// first, to learn how long it is.
fn fit(
    room: &mut [u8],
    early_counts: Counts,
    early: &Places,
    counts: Counts,
    places: &Places,
) -> Undone
    requires { (InOrder (tables_of early_counts (arrays_of early.now))) × (InOrder (tables_of counts (arrays_of places.now))) }
    ensures { Is result room.new (fitted (payloads (tables_of early_counts (arrays_of early.now)) (tables_of counts (arrays_of places.now))) room.old) }
{
    let mut elsewhere = [0u8; 1];
    let needs = listing::list(&mut elsewhere, early_counts, early, counts, places);
    if room.len() < needs.size {
        return refuse(Refusal::RoomShort);
    }
    Ok(listing::list(room, early_counts, early, counts, places))
}

// The list of a journal that was read to its end: 10 to 14, then 15, then 16.
pub fn write(ended: Ended, n: u64, room: &mut [u8], places: &Places, early: &Places) -> Undone
    requires { (InOrder (tables_of ended.early (arrays_of early.now))) × (IfOk ended.result (λ p. InOrder (tables_of p.counts (arrays_of places.now)))) }
    ensures { Is result room.new (undo_from (result_of ended.result (arrays_of places.now)) n (tables_of ended.early (arrays_of early.now)) room.old) }
{
    let p = ended.result?;
    if p.records < n {
        return refuse(Refusal::TooFewRecords);
    }
    fit(room, ended.early, early, p.counts, places)
}

// From a journal and a number n, the list at the start of a room. What stands in the lent arrays before makes no difference.
pub fn undo(
    journal: &[u8],
    n: u64,
    room: &mut [u8],
    places: &mut Places,
    early: &mut Places,
) -> Undone
    ensures { Is result room.new (undo journal.now n room.old) }
{
    let ended = reading::finish(reading::open(n), journal, places, early);
    write(ended, n, room, places, early)
}
