// Run files: a file is read or refused by number, its parts are handed out without a copy, and a run is written.
// Its modules: layout (the bytes of a call and of the trailer), checks (the refusals that reader and writer share),
// reading, writing, and promises (what is proved of both together).
#![tactic(auto)]

mod checks;
mod layout;
mod promises;
mod reading;
mod writing;

pub use layout::call_at;
pub use promises::{
    buffer_is_enough, calls_are_spelled, read_writes_back, reads_are_settled, refused_exactly,
    trailer_points_back, writer_is_settled, writes_only_output, written_reads_back,
};
pub use reading::{part, read, table, turns};
pub use writing::write;

// What a run file holds: x, n, and how many calls q and turns t. The call table starts at start, the turns at middle.
#[derive(Clone, Copy, PartialEq, Eq)]
pub struct Contents {
    pub x: u32,
    pub n: u32,
    pub q: usize,
    pub t: usize,
    pub start: usize,
    pub middle: usize,
}

// A call of the table: kind 0 is read, 1 set, 2 swap. It stays a number, since the bytes of a call may say any (refusal 7), and `call_at` tells them.
// It does not hold a `method::Call`: this room does not rest on `method`, and the specs' `call_of` is flat.
#[derive(Clone, Copy, Default)]
pub struct CallRecord {
    pub station: u32,
    pub kind: u32,
    pub a: u32,
    pub b: u32,
}

// The trailer's six numbers; first and second are the distances back to the call table and to the turns.
#[derive(Clone, Copy)]
pub(crate) struct Trailer {
    pub x: u32,
    pub n: u32,
    pub form: u32,
    pub q: u32,
    pub first: u32,
    pub second: u32,
}
