// The programs' input: a file or standard input, read in pieces of which what is not used yet is kept (`pieces`), a journal replayed from
// it (`reading`), what a replay prints (`reports`), and what is opened and named on the way (`files`).

#![tactic(auto)]

pub mod pieces;
pub mod reading;
pub mod reports;

pub use files;
