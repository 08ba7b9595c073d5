// The test of a sound bench, sentence by sentence. It assumes nothing of the bench.
ghost use Rattle.std.specs.Prelude.{◌≡◌, ◌<◌, not, ◌&&◌, ◌||◌, leb, eqb};
ghost use Rattle.rules.specs.Test.{passes, pass, all_kept};
ghost use Rattle.method.specs.Record.{num};
ghost use Rattle.reach.specs.Step.{count_limit};
ghost use Rattle.bench.specs.Record.{a_at, r_at, station_at};
ghost use Rattle.bench.specs.Sound.{unread, zero_but_count, fresh_station, own_turns, called, agreed, zero_halves, a_rules, r_rules, rules_of, entry_kept, each_entry, head_rules, sound};

use crate::Bench;
use card::{Claim, Halves};
use method::{Place, Station};

// What is asked under a condition alone.
fn given(condition: bool, asked: bool) -> bool
    ensures { result ≡ (not condition || asked) }
{
    !condition || asked
}

fn zero(e: Halves) -> bool
    ensures { result ≡ pass (zero_halves e) }
{
    e == Halves::default()
}

fn unread(t: Station) -> bool
    ensures { result ≡ pass (unread t) }
{
    t.saw == Claim::default() && zero(t.entry)
}

fn zero_but_count(t: Station) -> bool
    ensures { result ≡ pass (zero_but_count t) }
{
    let fresh = Station {
        place: t.place,
        c: t.c,
        ..Station::default()
    };
    t == fresh
}

fn fresh(t: Station) -> bool
    ensures { result ≡ pass (fresh_station t.place t) }
{
    t == Station::default()
}

fn own_turns(t: Station) -> bool
    ensures { result ≡ passes (own_turns t.place t.own) }
{
    match t.place {
        Place::Rest => t.own == 0,
        Place::At11 => t.own == 1,
        Place::At12 => t.own == 2,
        Place::At13 => t.own == 3,
        Place::At14 => t.own == 4,
        Place::At15 => t.own == 5,
        Place::At16 => t.own == 6,
        Place::At18 => t.own == 7,
        Place::At19 => t.own == 8,
        Place::At20 => t.own == 7 || t.own == 9,
    }
}

fn called(t: Station, n: u32) -> bool
    ensures { result ≡ pass (called count_limit n t) }
{
    (t.call.kind == 1 || t.call.kind == 2)
        && t.call.a != t.call.b
        && t.s % 2 == 0
        && t.s <= Bench::VERSION
        && t.saw.pid <= n
        && t.saw.c <= Bench::COUNT
        && t.entry.first <= Bench::COUNT
}

fn agreed(t: Station) -> bool
    ensures { result ≡ pass (agreed t) }
{
    t.saw.seq % 2 == 0 && t.saw.c == t.entry.first
}

// Both as the definition has them, by number: two functions, since with `matches!` in the test itself the search leaves two goals.
fn at_11_to_15(p: Place) -> bool
    ensures { result ≡ (leb 11 (num p) && leb (num p) 15) }
{
    matches!(
        p,
        Place::At11 | Place::At12 | Place::At13 | Place::At14 | Place::At15
    )
}

fn at_18_or_19(p: Place) -> bool
    ensures { result ≡ (eqb (num p) 18 || eqb (num p) 19) }
{
    matches!(p, Place::At18 | Place::At19)
}

fn station_ok(t: Station, n: u32, i: u32) -> bool
    ensures { result ≡ all_kept (rules_of count_limit n i t) }
{
    let zero_but_count = zero_but_count(t);
    let fresh = fresh(t);
    t.c <= Bench::COUNT
        && given(n < i, fresh)
        && given(i == 0, fresh)
        && given(t.place == Place::Rest, zero_but_count)
        && own_turns(t)
        && given(t.place != Place::Rest, called(t, n))
        && given(t.place == Place::At11, t.c < Bench::COUNT)
        && given(at_11_to_15(t.place), unread(t))
        && given(t.place == Place::At16, zero(t.entry))
        && given(at_18_or_19(t.place), agreed(t))
}

fn a_ok(a: Halves, n: u32, i: u32) -> bool
    ensures { result ≡ all_kept (a_rules count_limit n i a) }
{
    a.first <= Bench::COUNT && given(n < i, zero(a))
}

fn r_ok(r: Halves, n: u32, i: u32) -> bool
    ensures { result ≡ all_kept (r_rules count_limit n i r) }
{
    r.first <= Bench::COUNT && r.second <= 1 && given(n < i, zero(r))
}

impl Bench {
    fn head_ok(&self) -> bool
        ensures { result ≡ all_kept (head_rules count_limit self.now) }
    {
        1 <= self.n
            && self.n <= Self::STATIONS
            && self.p.c <= Self::COUNT
            && self.v.first % 2 == 0
            && self.p.pid <= self.n
    }

    // Entry i of A and R, and station i.
    #[tactic(auto, unfolding(crate::specs::Sound::entry_kept))]
    fn entry_ok(&self, i: u32) -> bool
        requires { i < 33 }
        ensures { result ≡ entry_kept count_limit self.now.n i (a_at self.now i) (r_at self.now i) (station_at self.now i) }
    {
        let at = i as usize;
        a_ok(self.a[at], self.n, i)
            && r_ok(self.r[at], self.n, i)
            && station_ok(self.stations[at], self.n, i)
    }

    fn entries_ok(&self) -> bool
        ensures { result ≡ each_entry count_limit self.now 33 }
    {
        (0..33).all(|i| self.entry_ok(i))
    }

    // Whether this is a sound bench.
    #[tactic(auto, unfolding(crate::specs::Sound::sound))]
    pub fn sound(self) -> bool
        ensures { result ≡ sound self }
    {
        self.head_ok() && self.entries_ok()
    }
}
