// The book of a run, in a lent row with its counts: who has a point, and in which order.
ghost use Rattle.std.specs.Prelude.{◌≡◌, cond, [], ◌∷◌, ◌<◌};
ghost use Rattle.run.specs.Book.{enters, all_enter, waiters, acts_for, goes_on, finishes, idles, unended};
ghost use Rattle.run.specs.Row.{by_station, HasPlaces};
ghost use Rattle.run.specs.Ledger.{Opens, Fits, Takes, Changes, Within, next_in, wait_in};

use crate::parts::{HEAD, LAST, LATEST, LIST, NEXT, OWN, POINT, RESULT, WAIT};
use crate::{Errand, Finish, Ledger, Operation, Tally};
use card::Claim;
use method::Answer;

impl<'a> Ledger<'a> {
    // A ledger with nothing counted.
    pub(crate) fn new(row: &'a mut [u32]) -> Ledger<'a>
        ensures { Opens row.entry result }
    {
        Ledger {
            row,
            tally: Tally::default(),
        }
    }

    // The latest call of station j has its point in this turn, if it is in one that has none yet.
    fn enter(&mut self, j: u32, turn: u32)
        requires { Fits self.old × ((j < by_station) × (0 < turn)) }
        ensures { Changes self.old (enters turn j) self.new }
    {
        let c = self.row[LATEST + j as usize];
        if c == 0 {
            return;
        }
        let at = POINT + c as usize;
        let has_point = self.row[at] != 0;
        if has_point {
            return;
        }
        self.row[at] = turn;
        self.row[LIST + self.tally.listed as usize] = c;
        self.tally.listed += 1;
    }

    // Where place 19 raises V.seq to the saved version: the call of the saved pid's station, then those of the others that wait for that version, by station number.
    #[tactic(auto, using(crate::proofs::Ledgers::none_yet))]
    fn raise(&mut self, saw: Claim, n: u32, turn: u32)
        requires { Fits self.old × ((n < by_station) × ((saw.pid < by_station) × (0 < turn))) }
        ensures { Changes self.old (all_enter turn (saw.pid ∷ waiters (wait_in self.old) saw.pid saw.seq n)) self.new }
    {
        self.enter(saw.pid, turn);
        for j in 1..=n {
            if j != saw.pid && self.row[WAIT + j as usize] == saw.seq {
                self.enter(j, turn);
            }
        }
    }

    // An operation for the errand's call makes so many own turns; a station at rest begins the call with it.
    fn acted(&mut self, e: Errand, turns: u32)
        requires { Takes self.old e }
        ensures { Changes self.old (acts_for e turns (next_in self.old)) self.new }
    {
        let at = e.station as usize;
        let c = e.call as usize;
        self.row[OWN + c] = turns;
        if e.rests {
            self.row[HEAD + at] = self.row[NEXT + c];
            self.row[LATEST + at] = e.call;
            self.tally.begun += 1;
        }
    }

    // A turn with an operation that did not end its call.
    #[tactic(auto, unfolding(crate::specs::Book::goes_on, crate::specs::Book::all_enter))]
    fn operated(&mut self, e: Errand, o: Operation)
        requires { Takes self.old e × Within o }
        ensures { Changes self.old (goes_on e o (next_in self.old) (wait_in self.old)) self.new }
    {
        self.acted(e, o.own);
        if let Some(saw) = o.raise {
            self.raise(saw, o.n, e.turn);
        }
    }

    // A call that ends in its first turn has its point there.
    #[tactic(auto, using(crate::proofs::Ledgers::still), unfolding(crate::specs::Book::all_enter))]
    fn at_once(&mut self, e: Errand)
        requires { Fits self.old × HasPlaces e }
        ensures { Changes self.old (all_enter e.turn (cond e.rests (e.station ∷ []) [])) self.new }
    {
        if e.rests {
            self.enter(e.station, e.turn);
        }
    }

    // A turn that ended its call with a result.
    pub(crate) fn finished(&mut self, e: Errand, f: Finish)
        requires { Takes self.old e }
        ensures { Changes self.old (finishes e f (next_in self.old)) self.new }
    {
        self.acted(e, f.own);
        self.at_once(e);
        let c = e.call as usize;
        self.row[RESULT + c] = f.result;
        self.row[LAST + c] = e.turn;
        self.tally.ended += 1;
    }

    // A turn passes with nothing to do.
    pub(crate) fn idled(&mut self)
        requires { Fits self.old × (self.old.tally.idle < 65536) }
        ensures { Changes self.old idles self.new }
    {
        self.tally.idle += 1;
    }

    // A turn that did not end its call: idle, an operation after which the call goes on, or refused, which counts for nothing.
    #[tactic(auto, using(crate::proofs::Ledgers::still), unfolding(crate::specs::Book::unended))]
    pub(crate) fn not_ended(&mut self, x: Answer, e: Errand, o: Operation)
        requires { Takes self.old e × Within o }
        ensures { Changes self.old (unended x e o (next_in self.old) (wait_in self.old)) self.new }
    {
        match x {
            Answer::Idle => self.idled(),
            Answer::Going => self.operated(e, o),
            Answer::Ended { .. } | Answer::Refused(_) => {}
        }
    }
}
