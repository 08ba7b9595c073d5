// A bench in numbers, one turn of it, and what came of that, docs/PROBE.md. The input is fed in byte by byte.
// Its modules: numbers (a bench out of a row of numbers), texts (the text of a case), feed (where numbers and cases end).
#![tactic(auto)]

ghost use Rattle.probing.specs.Promise.{NumbersSayBenches, CasesAreRead, FeedingSettled};

mod feed;
mod numbers;
mod texts;

pub use feed::{closed, fed, goes_on};

// How far a case is read: how many of its numbers are whole, whether a word has begun, and the number that the word is so far.
// A number of 4,294,967,296 or more is none. It is no `Option`, since `FedTo` speaks of each such number: the probe comes back with it.
// The flag stays beside the number, since `FedTo` speaks of a number without a word too; and the row stays beside `filled`, since
// `FedTo` and the parameters of `fed` have the two apart.
#[derive(Clone, Copy, PartialEq, Eq)]
pub struct Reading {
    pub filled: usize,
    pub word: bool,
    pub number: u64,
}

impl Reading {
    // Before the first byte of a case.
    pub const NONE: Reading = Reading {
        filled: 0,
        word: false,
        number: 0,
    };
}

// The number of the case, from 1, and how far it is read. Past a case that can't be read it stays as it is.
#[derive(Clone, Copy)]
pub struct Probe {
    pub k: u32,
    pub reading: Reading,
}

// How far the input is read after a byte, and how long the text is that was written for that byte.
#[derive(Clone, Copy)]
pub struct Said {
    pub probe: Probe,
    pub len: usize,
}

// The numbers of a bench say that bench.
#[tactic(auto, using(crate::proofs::Says::numbers_say_benches))]
pub fn numbers_say_benches()
    ensures { NumbersSayBenches }
{}

// A case that is written out is read as it was written, wherever it stands.
#[tactic(auto, using(crate::proofs::Whole::cases_are_read))]
pub fn cases_are_read()
    ensures { CasesAreRead }
{}

// The contracts of feeding allow one answer, one row and one buffer for each input.
#[tactic(auto, using(crate::proofs::Goes::feeding_is_settled))]
pub fn feeding_is_settled()
    ensures { FeedingSettled }
{}
