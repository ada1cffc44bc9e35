// A journal read in one pass that keeps a second pair of tables as they stood after record n (rules, specs/Undo.antt: `tables_then`).

#![tactic(auto)]

mod front;
pub mod reading;
