// The call table and the turns that a text tells, gathered into two lent rows.
ghost use Rattle.std.specs.Prelude.{◌≤◌, length};
ghost use Rattle.octets.specs.Bytes.{bytes};
ghost use Rattle.script.specs.Page.{Writes};
ghost use Rattle.runfile.specs.Layout.{record_bytes};
ghost use Rattle.drafting.specs.Draft.{call_from, turn_from, call_made, turn_made};
ghost use Rattle.drafting.specs.Held.{drafted, Begun};
ghost use Rattle.drafting.specs.Gather.{Filled, GatheredTo, Lasts, ToldTo};

use crate::drafts::lacking_at;
use crate::scanning::{fresh, line_ended, step};
use crate::{Complaint, Draft, Expected, Scan};
use runfile::CallRecord;
use script::Page;

// The K bytes of x, lowest first.
fn little<const K: usize>(page: &mut Page, x: u32)
    requires { K ≤ 4 }
    ensures { Writes page.old page.new (bytes K x) }
{
    let mut part = [0u8; K];
    octets::store(&mut part, u64::from(x));
    page.word(&part);
}

fn put_record(page: &mut Page, c: CallRecord)
    ensures { Writes page.old page.new (record_bytes c) }
{
    little::<2>(page, c.station);
    little::<1>(page, c.kind);
    little::<1>(page, 0);
    little::<4>(page, c.a);
    little::<4>(page, c.b);
}

#[tactic(auto, using(script::proofs::Pages::blank), unfolding(crate::specs::Draft::call_from))]
fn put_call(page: &mut Page, q: usize, d: Draft)
    ensures { Writes page.old page.new (call_from q (drafted d)) }
{
    if q != d.q {
        put_record(page, d.call);
    }
}

#[tactic(auto, using(script::proofs::Pages::blank), unfolding(crate::specs::Draft::turn_from))]
fn put_turn(page: &mut Page, t: usize, d: Draft)
    ensures { Writes page.old page.new (turn_from t (drafted d)) }
{
    if t != d.t {
        little::<1>(page, d.call.station);
    }
}

// What a draft has more than the one before it. The two pages go side by side (tried: the check does not tie an array to a page
// that a second struct holds).
fn put_more(calls: &mut Page, moves: &mut Page, before: Draft, d: Draft)
    ensures { Filled calls.old calls.new (call_made (drafted before) (drafted d)) moves.old moves.new (turn_made (drafted before) (drafted d)) }
{
    put_call(calls, before.q, d);
    put_turn(moves, before.t, d);
}

// The text to its end, by its places: a word is a part of the text, which begins and ends at one.
fn gathered(text: &[u8], calls: &mut Page, moves: &mut Page) -> Result<Scan, Complaint>
    ensures { GatheredTo text.now calls.old calls.new moves.old moves.new result }
{
    let mut s = fresh();
    for i in 0..text.len() {
        let line = s.line;
        let next = step(text, s, i).map_err(|expected| Complaint { line, expected })?;
        put_more(calls, moves, s.draft, next.draft);
        s = next;
    }
    Ok(s)
}

// The end of the text ends its last line.
fn at_end(text: &[u8], s: Scan) -> Result<Draft, Expected>
    requires { Begun (length text.now) s.within }
    ensures { Lasts text.now s result }
{
    let d = line_ended(text, s, text.len())?;
    lacking_at(d.stage)?;
    Ok(d)
}

// What the text tells, with its calls and its turns on two pages.
#[tactic(auto, using(crate::proofs::Fills::refused_last))]
pub(crate) fn told(text: &[u8], calls: &mut Page, moves: &mut Page) -> Result<Draft, Complaint>
    ensures { ToldTo text.now calls.old calls.new moves.old moves.new result }
{
    let s = gathered(text, calls, moves)?;
    let line = s.line;
    let d = at_end(text, s).map_err(|expected| Complaint { line, expected })?;
    put_more(calls, moves, s.draft, d);
    Ok(d)
}
