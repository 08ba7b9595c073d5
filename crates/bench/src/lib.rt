// The bench: its registers and stations, and what a turn takes and hands back. A fresh bench is made here.
// Its modules: sound (the test of a bench), turns (one turn of a bench).
#![tactic(auto)]

ghost use Rattle.std.specs.Prelude.{◌≡◌, true};
ghost use Rattle.bench.specs.Record.{blank};
ghost use Rattle.bench.specs.Sound.{sound};
ghost use Rattle.bench.specs.Turn.{fresh_of};

use card::{Claim, Halves};
use method::{Answer, Station};
use reach::Reach;
use rules::Reason;

mod sound;
mod turns;

// Entry 0 of a and r belongs to no station, nor does record 0, which stays as fresh. A, R and the stations stay arrays of their own: document 01 has them so.
#[derive(Clone, Copy)]
pub struct Bench {
    pub n: u32,
    pub v: Halves,
    pub p: Claim,
    pub a: [Halves; 33],
    pub r: [Halves; 33],
    pub stations: [Station; 33],
}

// A bench that is sound, so that no turn of it tests that. A run keeps one and turns it where it is.
#[derive(Clone, Copy)]
pub struct SoundBench {
    pub bench: Bench,
    pub ghost is_sound: { sound bench ≡ true },
}

// What a turn hands back. It and `Moved` of reach stay two types, since `turn_of` and `move_of` give these records.
#[derive(Clone, Copy)]
pub struct Turned {
    pub answer: Answer,
    pub bench: Bench,
}

// What the making of a fresh bench hands back: refused is 3, or 0. It is a number, since `fresh_of` tells it, and a refusal hands back a bench too.
#[derive(Clone, Copy)]
pub struct Made {
    pub refused: u32,
    pub bench: Bench,
}

impl Bench {
    // The limits of `rules` again, since document 01 wants them here: a constructor beside associated constants.
    pub const STATIONS: u32 = rules::STATIONS;

    pub const CALLS: u32 = rules::CALLS;

    pub const TURNS: u32 = rules::TURNS;
    // The largest count of a station.
    pub const COUNT: u32 = Reach::COUNT;
    // The largest version that a contest may start from.
    pub const VERSION: u32 = Reach::VERSION;

    fn blank(x: u32, n: u32) -> Bench
        ensures { result ≡ blank x n }
    {
        Bench {
            n,
            v: Halves {
                first: 0,
                second: x,
            },
            p: Claim::default(),
            a: [Halves::default(); 33],
            r: [Halves::default(); 33],
            stations: [Station::default(); 33],
        }
    }

    // A fresh bench of n stations with the starting value x; refused, a bench of all zeros.
    #[tactic(auto, unfolding(crate::specs::Turn::fresh_of))]
    pub fn fresh(x: u32, n: u32) -> Made
        ensures { result ≡ fresh_of x n }
    {
        if n == 0 || Self::STATIONS < n {
            return Made {
                refused: Reason::Stations.number(),
                bench: Self::blank(0, 0),
            };
        }
        Made {
            refused: 0,
            bench: Self::blank(x, n),
        }
    }
}
