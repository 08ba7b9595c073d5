// The method of document 001, Algorithm 1: the places where a station can stand, its record, and what a turn answers.
// The step table over them is in specs/Table, over anything that holds the registers.
#![tactic(auto)]

ghost use Rattle.std.specs.Prelude.{◌≡◌};
ghost use Rattle.method.specs.Promise.{EveryRunIsGood};
ghost use Rattle.method.specs.Record.{num, Names};

use card::{Claim, Halves};

// Where a station stands: at rest, or before the operation of 001's line of that number.
#[derive(Clone, Copy, PartialEq, Eq, Default)]
pub enum Place {
    #[default]
    Rest = 0,
    At11 = 11,
    At12 = 12,
    At13 = 13,
    At14 = 14,
    At15 = 15,
    At16 = 16,
    At18 = 18,
    At19 = 19,
    At20 = 20,
}

// A number that is no place's.
#[derive(Clone, Copy, PartialEq, Eq)]
pub struct NoPlace;

// Kind 0 is read, 1 set, 2 swap and 3 none. The kind stays a number: refusal 11 is about kinds over 3, so an offer may hold any.
#[derive(Clone, Copy, PartialEq, Eq, Default)]
pub struct Call {
    pub kind: u32,
    pub a: u32,
    pub b: u32,
}

// s is the version that place 5 read, saw what place 15 read of P, entry what place 16 read of A[saw.pid].
#[derive(Clone, Copy, PartialEq, Eq, Default)]
pub struct Station {
    pub place: Place,
    pub call: Call,
    pub s: u32,
    pub own: u32,
    pub c: u32,
    pub saw: Claim,
    pub entry: Halves,
}

// What a turn answers. A refusal is its number, since the definitions of a turn (`or_refused`) give the number that a table of refusals gives.
#[derive(Clone, Copy, PartialEq, Eq)]
pub enum Answer {
    Idle,
    Going,
    Ended { result: u32, own: u32 },
    Refused(u32),
}

impl Place {
    // 001's line number; 0 at rest.
    pub fn number(self) -> u32
        ensures { result ≡ num self }
    {
        self as u32
    }
}

// The place with this number; an error where no place has it.
impl TryFrom<u32> for Place {
    type Error = NoPlace;

    ghost try_from_gives = { Names };

    fn try_from(number: u32) -> Result<Self, NoPlace> {
        match number {
            0 => Ok(Place::Rest),
            11 => Ok(Place::At11),
            12 => Ok(Place::At12),
            13 => Ok(Place::At13),
            14 => Ok(Place::At14),
            15 => Ok(Place::At15),
            16 => Ok(Place::At16),
            18 => Ok(Place::At18),
            19 => Ok(Place::At19),
            20 => Ok(Place::At20),
            _ => Err(NoPlace),
        }
    }
}

// Every run, of any number of stations on any words, behaves as the words served one call at a time.
#[tactic(auto, using(crate::proofs::Inv::every_run_is_good))]
pub fn every_run_is_good()
    ensures { EveryRunIsGood }
{}
