// The refusals that reader and writer share: 3 to 6 of the numbers, 7 and 8 of the calls and turns.
ghost use Rattle.std.specs.Prelude.{◌≡◌, false, length, None};
ghost use Rattle.rules.specs.Row.{verdict_of};
ghost use Rattle.rules.specs.Reason.{verdict_in};
ghost use Rattle.runfile.specs.First.{Tells};
ghost use Rattle.runfile.specs.Layout.{records};
ghost use Rattle.runfile.specs.Reading.{bad_call, bad_call_at, bad_turn_at, limit_rows, part_rows};

use crate::layout::{field, record_at};
use rules::{CALLS, Reason, STATIONS, TURNS};

const MOST_CALLS: usize = CALLS as usize;

const MOST_TURNS: usize = TURNS as usize;

// Whether a call's 12 bytes are bad. They are a slice, as the places of the table are: `[u8; 12]` would be no plainer, since each caller would turn its slice into one.
#[tactic(auto, unfolding(crate::specs::Reading::bad_call))]
fn bad_call(n: u32, s: &[u8]) -> bool
    requires { length s.now ≡ 12 }
    ensures { result ≡ bad_call n s.now }
{
    let c = record_at(s);
    let zero = field(&s[3..4]);
    c.station == 0
        || n < c.station
        || 2 < c.kind
        || zero != 0
        || (c.kind == 0 && (c.a != 0 || c.b != 0))
}

// The first bad call, from 0. Whole records are looked at. A loop: `chunks_exact(12).position(..)` was tried, and the fact about earlier calls did not close;
// `(0..q).find(..)` was tried, and what it ensures did not close by itself, where the loop needs one line.
fn first_call(n: u32, table: &[u8]) -> Option<usize>
    ensures { Tells (bad_call_at n table.now) (records table.now) result }
{
    for call in 0..table.len() / 12 {
        if bad_call(n, &table[12 * call..12 * call + 12]) {
            return Some(call);
        }
    }
    None
}

// Whether a turn may be bad. Every turn is looked at, so that the compiler can take many at a time; where it says no, none is.
fn may_be_bad(n: u32, turns: &[u8]) -> bool
    ensures { result ≡ false → Tells (bad_turn_at n turns.now) (length turns.now) None }
{
    let Ok(most) = u8::try_from(n) else {
        return true;
    };
    let mut bad = false;
    for b in turns {
        bad |= (*b == 0) | (most < *b);
    }
    bad
}

// The first bad turn, from 0. The search stops there.
fn search_turns(n: u32, turns: &[u8]) -> Option<usize>
    ensures { Tells (bad_turn_at n turns.now) (length turns.now) result }
{
    turns.iter().position(|b| *b == 0 || n < u32::from(*b))
}

// The same; only where one may be bad is it searched for.
fn first_turn(n: u32, turns: &[u8]) -> Option<usize>
    ensures { Tells (bad_turn_at n turns.now) (length turns.now) result }
{
    if may_be_bad(n, turns) {
        return search_turns(n, turns);
    }
    None
}

// Refusals 3 to 6.
pub(crate) fn limits(n: u32, q: usize, t: usize, agree: bool) -> Result<(), Reason>
    ensures { verdict_in result ≡ verdict_of (limit_rows n q t agree) }
{
    if n == 0 || STATIONS < n {
        return Err(Reason::Stations);
    }
    if MOST_CALLS < q {
        return Err(Reason::Calls);
    }
    if MOST_TURNS < t {
        return Err(Reason::Turns);
    }
    if !agree {
        return Err(Reason::Lengths);
    }
    Ok(())
}

// Refusals 7 and 8.
pub(crate) fn parts(n: u32, table: &[u8], turns: &[u8]) -> Result<(), Reason>
    ensures { verdict_in result ≡ verdict_of (part_rows n table.now turns.now) }
{
    if let Some(call) = first_call(n, table) {
        return Err(Reason::Call(call + 1));
    }
    if let Some(turn) = first_turn(n, turns) {
        return Err(Reason::Turn(turn + 1));
    }
    Ok(())
}
