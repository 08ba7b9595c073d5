// One turn of the bench: its refusals 9 and 10, and then the station's move on what the turn reaches, with 11 to 13.
ghost use Rattle.std.specs.Prelude.{◌≡◌};
ghost use Rattle.bench.specs.Record.{turned};
ghost use Rattle.bench.specs.Turn.{turn_of};

use crate::{Bench, SoundBench, Turned};
use method::{Answer, Call};
use reach::{Reach, reaches};
use rules::Reason;

impl SoundBench {
    // One turn, which changes the bench where it is. Refused, nothing changes.
    #[tactic(auto, using(crate::proofs::InPlace::in_place), unfolding(crate::specs::Turn::turn_of))]
    pub fn turn(&mut self, station: u32, offer: Call) -> Answer
        ensures { turned result self.new.bench ≡ turn_of self.old.bench station offer.kind offer.a offer.b }
    {
        if station == 0 || self.bench.n < station {
            return Answer::Refused(Reason::Station.number());
        }
        let at = station as usize;
        let t = self.bench.stations[at];
        let to = reaches(t, station) as usize;
        let taken = Reach {
            id: station,
            v: self.bench.v,
            p: self.bench.p,
            a: self.bench.a[to],
            r: self.bench.r[to],
            station: t,
        };
        let m = taken.moved(offer);
        self.bench.v = m.reach.v;
        self.bench.p = m.reach.p;
        self.bench.a[to] = m.reach.a;
        self.bench.r[to] = m.reach.r;
        self.bench.stations[at] = m.reach.station;
        m.answer
    }
}

impl Bench {
    // One turn: the bench goes in and comes back. A refused turn hands back the bench given. `mut self`, written and handed back, is document 01's form.
    #[tactic(auto, unfolding(crate::specs::Turn::turn_of))]
    pub fn turn(mut self, station: u32, offer: Call) -> Turned
        ensures { result ≡ turn_of self station offer.kind offer.a offer.b }
    {
        if !self.sound() {
            return Turned {
                answer: Answer::Refused(Reason::Unsound.number()),
                bench: self,
            };
        }
        let mut w = SoundBench { bench: self };
        let answer = w.turn(station, offer);
        self = w.bench;
        Turned {
            answer,
            bench: self,
        }
    }
}
