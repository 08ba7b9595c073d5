// One station's operation, on what one turn can reach. Small values are moved here, and not the bench, so that a turn costs little.
// The move of a place wants its station's numbers able to grow (`Movable`); `Reach::moved` tests that.
ghost use Rattle.std.specs.Prelude.{◌≡◌, ◌<◌, false};
ghost use Rattle.rules.specs.Reason.{number_of};
ghost use Rattle.method.specs.Table.{handed, goes, after16, row5, row11, row12, row13, row14, row15, row16, row18, row19, row20};
ghost use Rattle.reach.specs.Step.{bad_offer, step_of, step_on};
ghost use Rattle.reach.specs.Reach.{Ready, ready, reaching, on_reach, moved, move_of};
ghost use Rattle.method.specs.declared.Place.TheVariants.{Rest};
ghost use Rattle.method.specs.declared.Answer.TheVariants.{Going, Refused};

use crate::{Moved, Reach};
use card::{Claim, Halves};
use method::{Answer, Call, Place, Station};
use rules::Reason;

// What a turn reaches, where the station's numbers can grow without wrapping.
#[derive(Clone, Copy)]
struct Movable {
    reach: Reach,
    ghost ready: { Ready reach.station },
}

// What a set or a swap hands back. The truth is R's ret, 0 or 1, and the kind a number as in `Call`: so has the definition both.
fn handed(kind: u32, truth: u32, read: u32) -> u32
    ensures { result ≡ handed kind truth read }
{
    if kind == 2 { read } else { truth }
}

fn after_16(saw: Claim, entry: Halves) -> Place
    ensures { result ≡ after16 saw entry }
{
    if saw.seq % 2 == 0 && saw.c == entry.first {
        Place::At18
    } else {
        Place::At20
    }
}

// The entry of A and R that the turn of station i reaches: the saved pid's at 16 and 18, else its own.
#[tactic(auto, unfolding(crate::specs::Reach::reaching))]
pub fn reaches(t: Station, i: u32) -> u32
    ensures { result ≡ reaching t.place i t }
{
    match t.place {
        Place::At16 | Place::At18 => t.saw.pid,
        _ => i,
    }
}

// Whether the station's numbers can grow by a turn, as those of a sound bench can.
fn ready(t: Station) -> bool
    ensures { result ≡ ready t }
{
    t.own < 10 && t.c <= Reach::COUNT && t.s <= Reach::VERSION
}

fn bad_offer(offer: Call) -> bool
    ensures { result ≡ bad_offer offer.kind offer.a offer.b }
{
    3 < offer.kind || (offer.kind == 0 || offer.kind == 3) && (offer.a != 0 || offer.b != 0)
}

// Each move takes `mut self` and hands the new state back, as document 01 has it, also one that writes nothing by itself.
impl Reach {
    // The largest count of a station.
    pub const COUNT: u32 = 65535;
    // The largest version that a contest may start from.
    pub const VERSION: u32 = 4294967292;

    // The turn ends with the answer.
    fn answers(self, answer: Answer) -> Moved
        ensures { result ≡ moved answer self }
    {
        Moved {
            answer,
            reach: self,
        }
    }

    // The station goes on to the place, one own turn later.
    fn goes(mut self, place: Place) -> Moved
        requires { self.station.own < 10 }
        ensures { result ≡ moved Going (on_reach.put_station self.id (goes self.station place) self) }
    {
        self.station.place = place;
        self.station.own += 1;
        self.answers(Answer::Going)
    }

    // Refused, and nothing moved.
    fn refused(self, reason: Reason) -> Moved
        ensures { result ≡ moved (Refused (number_of reason)) self }
    {
        self.answers(Answer::Refused(reason.number()))
    }

    fn move_5(mut self, offer: Call) -> Moved
        ensures { result ≡ row5 on_reach self self.id self.station offer.kind offer.a offer.b }
    {
        if self.v.second != offer.a {
            let result = handed(offer.kind, 0, self.v.second);
            return self.answers(Answer::Ended { result, own: 1 });
        }
        if offer.a == offer.b {
            let result = handed(offer.kind, 1, self.v.second);
            return self.answers(Answer::Ended { result, own: 1 });
        }
        self.station = Station {
            call: offer,
            s: self.v.first,
            c: self.station.c,
            ..Station::default()
        };
        self.goes(Place::At11)
    }

    // A station at rest begins the offered call, or is refused 12 or 13.
    #[tactic(auto, using(crate::proofs::Rest::at_rest))]
    fn move_rest(mut self, offer: Call) -> Moved
        requires { bad_offer offer.kind offer.a offer.b ≡ false }
        ensures { result ≡ step_of on_reach Rest self self.id self.station offer.kind offer.a offer.b }
    {
        if offer.kind == 3 {
            return self.answers(Answer::Idle);
        }
        if offer.kind == 0 {
            let result = self.v.second;
            return self.answers(Answer::Ended { result, own: 1 });
        }
        if self.station.c == Self::COUNT {
            return self.refused(Reason::Count);
        }
        if Self::VERSION < self.v.first {
            return self.refused(Reason::Version);
        }
        self.move_5(offer)
    }

    // One station's move. Refused 9, and nothing moved, where its numbers could wrap, as those of a sound bench cannot; then 11 to 13 as a turn is.
    #[tactic(auto, unfolding(crate::specs::Reach::move_of, crate::specs::Step::step_of))]
    pub fn moved(mut self, offer: Call) -> Moved
        ensures { result ≡ move_of self offer.kind offer.a offer.b }
    {
        if !ready(self.station) {
            return self.refused(Reason::Unsound);
        }
        if bad_offer(offer) {
            return self.refused(Reason::Offer);
        }
        Movable { reach: self }.moves(offer)
    }
}

impl Movable {
    fn move_11(mut self) -> Moved
        ensures { result ≡ row11 on_reach self.reach self.reach.id self.reach.station }
    {
        self.reach.station.c += 1;
        let t = self.reach.station;
        self.reach.a = Halves {
            first: t.c,
            second: t.call.b,
        };
        self.reach.goes(Place::At12)
    }

    fn move_12(mut self) -> Moved
        ensures { result ≡ row12 on_reach self.reach self.reach.id self.reach.station }
    {
        self.reach.r = Halves {
            first: self.reach.station.c,
            second: 0,
        };
        self.reach.goes(Place::At13)
    }

    fn move_13(mut self) -> Moved
        ensures { result ≡ row13 on_reach self.reach self.reach.id self.reach.station }
    {
        let t = self.reach.station;
        self.reach.p = self.reach.p.max_write(t.s + 1, self.reach.id, t.c);
        self.reach.goes(Place::At14)
    }

    fn move_14(mut self) -> Moved
        ensures { result ≡ row14 on_reach self.reach self.reach.id self.reach.station }
    {
        self.reach.p = self.reach.p.half_max(self.reach.station.s + 2);
        self.reach.goes(Place::At15)
    }

    fn move_15(mut self) -> Moved
        ensures { result ≡ row15 on_reach self.reach self.reach.id self.reach.station }
    {
        self.reach.station.saw = self.reach.p;
        self.reach.goes(Place::At16)
    }

    fn move_16(mut self) -> Moved
        ensures { result ≡ row16 on_reach self.reach self.reach.id self.reach.station }
    {
        self.reach.station.entry = self.reach.a;
        let place = after_16(self.reach.station.saw, self.reach.a);
        self.reach.goes(place)
    }

    fn move_18(mut self) -> Moved
        ensures { result ≡ row18 on_reach self.reach self.reach.id self.reach.station }
    {
        self.reach.r = self.reach.r.max_write(self.reach.station.entry.first, 1);
        self.reach.goes(Place::At19)
    }

    fn move_19(mut self) -> Moved
        ensures { result ≡ row19 on_reach self.reach self.reach.id self.reach.station }
    {
        let t = self.reach.station;
        self.reach.v = self.reach.v.max_write(t.saw.seq, t.entry.second);
        self.reach.goes(Place::At20)
    }

    fn move_20(mut self) -> Moved
        ensures { result ≡ row20 on_reach self.reach self.reach.id self.reach.station }
    {
        let t = self.reach.station;
        let result = handed(t.call.kind, self.reach.r.second, t.call.a);
        self.reach.station = Station {
            c: t.c,
            ..Station::default()
        };
        let own = t.own + 1;
        self.reach.answers(Answer::Ended { result, own })
    }

    // The operation of the place where the station stands.
    #[tactic(auto, unfolding(crate::specs::Step::step_of, method::specs::Table::row))]
    fn moves(mut self, offer: Call) -> Moved
        requires { bad_offer offer.kind offer.a offer.b ≡ false }
        ensures { result ≡ step_on on_reach self.reach self.reach.id self.reach.station offer.kind offer.a offer.b }
    {
        match self.reach.station.place {
            Place::Rest => self.reach.move_rest(offer),
            Place::At11 => self.move_11(),
            Place::At12 => self.move_12(),
            Place::At13 => self.move_13(),
            Place::At14 => self.move_14(),
            Place::At15 => self.move_15(),
            Place::At16 => self.move_16(),
            Place::At18 => self.move_18(),
            Place::At19 => self.move_19(),
            Place::At20 => self.move_20(),
        }
    }
}
