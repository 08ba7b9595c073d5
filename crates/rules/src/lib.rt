// What every refusing function shares: rules as lists of tests, and the refusal that a table gives, with its K.
// Beside the reasons it has definitions and their laws alone; its functions with an empty body stand for those laws.
#![tactic(auto)]

ghost use Rattle.std.specs.Prelude.{◌≡◌};
ghost use Rattle.rules.specs.Reason.{number_of, k_of, NumbersTell};
ghost use Rattle.rules.specs.Refusal.{FirstIsGiven, LowestIsGiven};
ghost use Rattle.rules.specs.Row.{ExactRows};

// The limits for stations, calls and turns (specs/Limits).
pub const STATIONS: u32 = 32;

pub const CALLS: u32 = 1024;

pub const TURNS: u32 = 40960;

// Why something was refused, in the order of document 01's "Numbered refusals". A call's or a turn's place counts from 1.
#[derive(Clone, Copy, PartialEq, Eq)]
pub enum Reason {
    FileLength,
    Form,
    Stations,
    Calls,
    Turns,
    Lengths,
    Call(usize),
    Turn(usize),
    Unsound,
    Station,
    Offer,
    Count,
    Version,
    Room,
}

impl Reason {
    // N of document 01. Two reasons carry a place, so the numbers can't be the variants' own.
    pub fn number(self) -> u32
        ensures { result ≡ number_of self }
    {
        match self {
            Reason::FileLength => 1,
            Reason::Form => 2,
            Reason::Stations => 3,
            Reason::Calls => 4,
            Reason::Turns => 5,
            Reason::Lengths => 6,
            Reason::Call(_) => 7,
            Reason::Turn(_) => 8,
            Reason::Unsound => 9,
            Reason::Station => 10,
            Reason::Offer => 11,
            Reason::Count => 12,
            Reason::Version => 13,
            Reason::Room => 14,
        }
    }

    // K of document 01, 0 where it names none.
    pub fn k(self) -> usize
        ensures { result ≡ k_of self }
    {
        match self {
            Reason::Call(call) => call,
            Reason::Turn(turn) => turn,
            _ => 0,
        }
    }
}

// Of any table, the first in its order that holds is given, and no refusal where none holds.
#[tactic(auto, using(crate::proofs::Exactly::exactly))]
pub fn first_is_given()
    ensures { FirstIsGiven }
{}

// Where the table's numbers rise, that is the lowest number that holds.
#[tactic(auto, using(crate::proofs::Exactly::lowest_given))]
pub fn lowest_is_given()
    ensures { LowestIsGiven }
{}

// The same of a table with its K: each number comes with the K that its row names.
#[tactic(auto, using(crate::proofs::Rows::exact_rows))]
pub fn rows_are_exact()
    ensures { ExactRows }
{}

// An answer's numbers tell the answer: its reason, or its length.
#[tactic(auto, using(crate::proofs::Reasons::numbers_tell))]
pub fn numbers_tell_answers()
    ensures { NumbersTell }
{}
