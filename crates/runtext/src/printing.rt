// A run file as text.
ghost use Rattle.std.specs.Prelude.{◌≡◌, cond, [], ◌∷◌, ◌++◌, ◌<◌, length};
ghost use Rattle.script.specs.Wrote.{Wrote};
ghost use Rattle.script.specs.Page.{Writes};
ghost use Rattle.script.specs.Decimal.{decimal};
ghost use Rattle.runtext.specs.Letters.{newline, space};
ghost use Rattle.runfile.specs.Layout.{records};
ghost use Rattle.rules.specs.Reason.{numbers};
ghost use Rattle.runtext.specs.Text.{head_text, values_text, call_text, calls_text, row_ends, rows_text, turns_text, text_of, PrintedTo};

use rules::Reason;
use runfile::{CallRecord, call_at};
use script::Page;

fn put_head(page: &mut Page, x: u32, n: u32)
    ensures { Writes page.old page.new (head_text x n) }
{
    page.word(b"start ");
    page.decimal(x);
    page.word(b"\nstations ");
    page.decimal(n);
    page.put(b'\n');
}

#[tactic(auto, using(script::proofs::Pages::blank), unfolding(crate::specs::Text::values_text))]
fn put_values(page: &mut Page, c: CallRecord)
    ensures { Writes page.old page.new (values_text c) }
{
    if c.kind != 0 {
        page.put(b' ');
        page.decimal(c.a);
        page.put(b' ');
        page.decimal(c.b);
    }
}

fn put_call(page: &mut Page, c: CallRecord)
    ensures { Writes page.old page.new (call_text c) }
{
    page.decimal(c.station);
    page.put(b' ');
    page.kind(c.kind);
    put_values(page, c);
    page.put(b'\n');
}

// Calls go by number, from 1 on, and are counted from 0: `1..=` is no plainer, since the loop then ends in two ways, each with an answer
// of its own, and keeps the lines of i - 1 calls.
#[tactic(auto, using(script::proofs::Pages::blank), unfolding(crate::specs::Text::calls_text))]
fn put_calls(page: &mut Page, table: &[u8])
    ensures { Writes page.old page.new (calls_text table.now (records table.now)) }
{
    for i in 0..table.len() / 12 {
        put_call(page, call_at(table, i + 1));
    }
}

// A row ends after its twentieth turn, and after the last.
fn row_ends(turns: &[u8], i: usize) -> bool
    requires { i < length turns.now }
    ensures { result ≡ row_ends turns.now i }
{
    (i + 1) % 20 == 0 || i + 1 == turns.len()
}

// A turn, which is a station, and what stands after it.
fn put_turn(page: &mut Page, station: u8, ends: bool)
    ensures { Writes page.old page.new (decimal station ++ (cond ends newline space ∷ [])) }
{
    page.decimal(u32::from(station));
    if ends {
        page.put(b'\n');
    } else {
        page.put(b' ');
    }
}

#[tactic(auto, using(script::proofs::Pages::blank), unfolding(crate::specs::Text::rows_text))]
fn put_rows(page: &mut Page, turns: &[u8])
    ensures { Writes page.old page.new (rows_text turns.now (length turns.now)) }
{
    for (i, b) in turns.iter().enumerate() {
        put_turn(page, *b, row_ends(turns, i));
    }
}

#[tactic(auto, using(script::proofs::Pages::blank), unfolding(crate::specs::Text::turns_text))]
fn put_turns(page: &mut Page, turns: &[u8])
    ensures { Writes page.old page.new (turns_text turns.now) }
{
    if !turns.is_empty() {
        page.word(b"turns\n");
        put_rows(page, turns);
    }
}

// The whole text, from the front of the buffer on. Only here are all four parts of a run taken, so they have no struct.
fn put_text(out: &mut [u8], x: u32, n: u32, table: &[u8], turns: &[u8]) -> usize
    ensures { Wrote out.old out.new 0 result (text_of x n table.now turns.now) }
{
    let mut page = Page::new(out);
    put_head(&mut page, x, n);
    put_calls(&mut page, table);
    put_turns(&mut page, turns);
    page.at
}

// Prints a file that reads well to the front of the buffer, and tells the text's length; refused, it leaves the buffer as it was.
pub fn print(file: &[u8], out: &mut [u8]) -> Result<usize, Reason>
    ensures { PrintedTo file.now out.old (numbers result) out.new }
{
    let r = runfile::read(file)?;
    let table = runfile::table(file);
    let turns = runfile::turns(file);
    let len = put_text(&mut [0u8; 1], r.x, r.n, table, turns);
    if out.len() < len {
        return Err(Reason::Room);
    }
    put_text(out, r.x, r.n, table, turns);
    Ok(len)
}
