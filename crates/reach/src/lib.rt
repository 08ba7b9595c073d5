// What one turn can reach, and a station's move on it: the table's operation of its place, with the refusals 11 to 13.
// Its module: moves.
#![tactic(auto)]

use card::{Claim, Halves};
use method::{Answer, Station};

mod moves;

pub use moves::reaches;

// What one turn of station id can reach: V, P, the one entry of A and of R, and the station's record.
#[derive(Clone, Copy, PartialEq, Eq)]
pub struct Reach {
    pub id: u32,
    pub v: Halves,
    pub p: Claim,
    pub a: Halves,
    pub r: Halves,
    pub station: Station,
}

// What a move hands back.
#[derive(Clone, Copy, PartialEq, Eq)]
pub struct Moved {
    pub answer: Answer,
    pub reach: Reach,
}
