// The text of a report: a line for each listed call and a last line, written to a lent buffer as far as it goes.
#![tactic(auto)]

ghost use Rattle.std.specs.Prelude.{◌≡◌, ◌≤◌, get_or};
ghost use Rattle.script.specs.Wrote.{Wrote};
ghost use Rattle.script.specs.Page.{Writes};
ghost use Rattle.runfile.specs.Layout.{part};
ghost use Rattle.run.specs.declared.Trace.{Trace};
ghost use Rattle.run.specs.Row.{by_call, row_places};
ghost use Rattle.run.specs.Trace.{book_of};
ghost use Rattle.lines.specs.Lines.{spaced_number, answer_word, line_text, line_of, lines_text, last_text, sheet_text};

use run::{BY_CALL, LAST, LIST, OWN, POINT, RESULT, Trace};
use runfile::call_at;
use script::Page;

// What a line says of a listed call; it has an answer if it has ended. The kind is the number in the file's table.
#[derive(Clone, Copy)]
pub struct Line {
    pub place: u32,
    pub station: u32,
    pub call: u32,
    pub kind: u32,
    pub answer: Option<u32>,
    pub own: u32,
    pub point: u32,
}

// A number and the space after it.
fn put_field(page: &mut Page, x: u32)
    ensures { Writes page.old page.new (spaced_number x) }
{
    page.decimal(x);
    page.put(b' ');
}

#[tactic(auto, unfolding(crate::specs::Lines::answered))]
fn put_answer(page: &mut Page, l: Line)
    ensures { Writes page.old page.new (answer_word l) }
{
    match l.answer {
        None => page.word(b"open"),
        Some(answer) if l.kind != 1 => page.decimal(answer),
        Some(0) => page.word(b"false"),
        Some(_) => page.word(b"true"),
    }
}

fn put_line(page: &mut Page, l: Line)
    ensures { Writes page.old page.new (line_text l) }
{
    put_field(page, l.place);
    put_field(page, l.station);
    put_field(page, l.call);
    page.kind(l.kind);
    page.put(b' ');
    put_answer(page, l);
    page.put(b' ');
    put_field(page, l.own);
    page.decimal(l.point);
    page.put(b'\n');
}

fn put_last(page: &mut Page, t: Trace)
    ensures { Writes page.old page.new (last_text t) }
{
    put_field(page, t.turns);
    put_field(page, t.idle);
    put_field(page, t.begun);
    put_field(page, t.ended);
    put_field(page, t.val);
    page.decimal(t.seq);
    page.put(b'\n');
}

// The number at place i of the part by call that starts at a place of the row; 0 past the part's end, or the row's. It takes every i,
// since a call's number and a place of the list come from any row. (`probing` reads a row that has no parts, by a `cell` of its own.)
fn cell(row: &[u32], start: usize, i: u32) -> u32
    requires { start ≤ row_places }
    ensures { result ≡ get_or (part row.now start by_call) i 0 }
{
    let at = i as usize;
    if BY_CALL <= at {
        return 0;
    }
    row.get(start + at).copied().unwrap_or(0)
}

// Call c's line at a place of the list.
fn line_of(table: &[u8], row: &[u32], place: u32, c: u32) -> Line
    ensures { (t : Trace) → result ≡ line_of table.now (book_of t row.now) place c }
{
    let r = call_at(table, c as usize);
    let answer = cell(row, RESULT, c);
    Line {
        place,
        station: r.station,
        call: c,
        kind: r.kind,
        answer: (cell(row, LAST, c) != 0).then_some(answer),
        own: cell(row, OWN, c),
        point: cell(row, POINT, c),
    }
}

// The whole sheet of a trace and its row, from the front of the buffer on. It is told for every trace and row, so the list may be
// longer than the row: the loop counts the trace's calls, and reads 0 past the row. Trace, table and row have no struct: only this
// function, which is public as it is, and `has_room` of `sheet` take all three.
pub fn put_sheet(out: &mut [u8], t: Trace, table: &[u8], row: &[u32]) -> usize
    ensures { Wrote out.old out.new 0 result (sheet_text t table.now (book_of t row.now)) }
{
    let mut page = Page::new(out);
    for i in 0..t.listed {
        let c = cell(row, LIST, i);
        put_line(&mut page, line_of(table, row, i + 1, c));
    }
    put_last(&mut page, t);
    page.at
}
