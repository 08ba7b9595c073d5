// Whose next call is which: found once for the whole table, so that a turn finds it in one step.
ghost use Rattle.std.specs.Prelude.{◌≡◌, true, cond, ◌<◌, ◌≤◌};
ghost use Rattle.method.specs.declared.Call.{Call};
ghost use Rattle.rules.specs.Limits.{call_limit};
ghost use Rattle.runfile.specs.Layout.{records};
ghost use Rattle.run.specs.Calls.{offer, errand_of, waits, operation_of, StationsWithin};
ghost use Rattle.run.specs.Row.{zero_row};
ghost use Rattle.run.specs.Drive.{LinkedIn};

use crate::parts::{HEAD, NEXT};
use crate::{Errand, Operation};
use card::Halves;
use method::{Call, Place, Station};

// What the turn of a station is for, which stands at t, has call next on offer and has made call latest last.
// At rest with no call left it is for nothing: it is idle.
pub(crate) fn errand(t: Station, turn: u32, station: u32, next: u32, latest: u32) -> Option<Errand>
    ensures { result ≡ errand_of t.place turn station next latest }
{
    let rests = t.place == Place::Rest;
    if rests && next == 0 {
        return None;
    }
    Some(Errand {
        turn,
        station,
        call: if rests { next } else { latest },
        rests,
    })
}

// The errand's call as an offer to a station at rest; none to a station in one.
// A `Call` from a `CallRecord` is made here and by no `From`: neither type is this crate's.
#[tactic(auto, unfolding(runfile::specs::Layout::call_of))]
pub(crate) fn offered(table: &[u8], e: Errand) -> Call
    requires { e.rests ≡ true → 0 < e.call }
    ensures { result ≡ offer table.now (cond e.rests e.call 0) }
{
    if !e.rests {
        return Call {
            kind: 3,
            ..Call::default()
        };
    }
    let r = runfile::call_at(table, e.call as usize);
    Call {
        kind: r.kind,
        a: r.a,
        b: r.b,
    }
}

// The version that a station in a call waits for: V.seq when its contest is over. 0 at rest.
pub(crate) fn waiting(t: Station) -> u32
    requires { t.s ≤ 4294967292 }
    ensures { result ≡ waits t }
{
    if t.place == Place::Rest { 0 } else { t.s + 2 }
}

// The operation of a station at t that did not end its call, on a bench of n stations: it found V as v, and made so many own turns.
pub(crate) fn operation(t: Station, v: Halves, own: u32, n: u32) -> Operation
    ensures { result ≡ operation_of t v own n }
{
    let raises = t.place == Place::At19 && v.first < t.saw.seq;
    Operation {
        own,
        raise: raises.then_some(t.saw),
        n,
    }
}

// Leaves in a zero row each station's first call, and, for each call, its station's next one.
pub(crate) fn link(table: &[u8], row: &mut [u32])
    requires { (row.old ≡ zero_row) × ((records table.now ≤ call_limit) × StationsWithin table.now) }
    ensures { LinkedIn table.now row.new 0 }
{
    for c in (1..=table.len() / 12).rev() {
        let at = HEAD + runfile::call_at(table, c).station as usize;
        row[NEXT + c] = row[at];
        row[at] = c as u32;
    }
}
