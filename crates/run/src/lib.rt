// A run of a file: calls out of its table are offered to the stations, turn by turn, and a book is kept of what took effect when, in one row of numbers.
// Its modules: parts (where the row's parts start), calls (which call is whose next), book (what is kept by stations and by calls), drive (the loop over
// the turns), ran (the run of a whole file), tracing (what the rooms above have of a run).
#![tactic(auto)]

use bench::Bench;
use card::Claim;

mod book;
mod calls;
mod drive;
mod parts;
mod ran;
mod tracing;

pub use parts::{BY_CALL, LAST, LIST, OWN, PLACES, POINT, RESULT};
pub use tracing::traced;

// The numbers of a run: the calls of its table, its turns, idle turns, calls begun, ended and listed, and V at its end.
// The four counts of `Tally` stand flat in it: what `TracedTo` is made of (`trace_by`, `given_trace`) and `book_of` name them so.
#[derive(Clone, Copy, PartialEq, Eq)]
pub struct Trace {
    pub calls: usize,
    pub turns: u32,
    pub idle: u32,
    pub begun: u32,
    pub ended: u32,
    pub listed: u32,
    pub val: u32,
    pub seq: u32,
}

// The counts of a run so far: idle turns, calls begun, calls ended, calls listed.
#[derive(Clone, Copy, PartialEq, Eq, Default)]
pub struct Tally {
    pub idle: u32,
    pub begun: u32,
    pub ended: u32,
    pub listed: u32,
}

// The book of a run: the row that it is kept in, which is lent, and its counts.
// That the two fit each other (`Fits`) is a clause of its methods and no ghost field: tried, it is asked at each write, and between two writes of `enter` it is false.
#[derive(Drop)]
pub(crate) struct Ledger<'a> {
    pub row: &'a mut [u32],
    pub tally: Tally,
}

// What a turn is for that is not idle: its number, its station, the call, and whether the station was at rest, a fact of its own: the call is there either way.
#[derive(Clone, Copy)]
pub(crate) struct Errand {
    pub turn: u32,
    pub station: u32,
    pub call: u32,
    pub rests: bool,
}

// What a turn's operation that did not end its call was: the own turns made, the claim that V.seq was raised to, if it was, and of how many stations.
#[derive(Clone, Copy)]
pub(crate) struct Operation {
    pub own: u32,
    pub raise: Option<Claim>,
    pub n: u32,
}

// What a turn that ended its call handed back: the fields of `Answer::Ended`. A variant's fields are no type of their own, and `finishes e f` takes one.
#[derive(Clone, Copy)]
pub(crate) struct Finish {
    pub result: u32,
    pub own: u32,
}

// The bench and the counts at the end of a run.
#[derive(Clone, Copy)]
pub(crate) struct Drove {
    pub bench: Bench,
    pub tally: Tally,
}
