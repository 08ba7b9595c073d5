// The input byte by byte: words, numbers, whole cases.
ghost use Rattle.std.specs.Prelude.{◌≡◌, ◌<◌, cond, ltb, set};
ghost use Rattle.script.specs.Number.{no_number};
ghost use Rattle.script.specs.Page.{Writes};
ghost use Rattle.probing.specs.Feed.{case_size, no_reading, probe, is_blank, goes_on, is_cut, step, stored, k_more, text_at, next_at, FedTo, ClosedTo};

use crate::numbers::places_good;
use crate::texts::{put_case, put_fault};
use crate::{Probe, Reading, Said};
use script::Page;

const CASE_SIZE: usize = 538;

const NO_NUMBER: u64 = 4294967296;

fn is_blank(b: u8) -> bool
    ensures { result ≡ is_blank b }
{
    matches!(b, b' ' | b'\n')
}

// Whether there is more to read of the case; not so where it can't be read.
pub fn goes_on(s: Reading) -> bool
    ensures { result ≡ goes_on s }
{
    s.filled < CASE_SIZE && s.number < NO_NUMBER
}

fn is_cut(s: Reading) -> bool
    ensures { result ≡ is_cut s }
{
    0 < s.filled && goes_on(s)
}

// A number goes to its place in the row, if the row has it.
fn keep(row: &mut [u32], at: usize, x: u32)
    ensures { row.new ≡ set row.old at x }
{
    if at < row.len() {
        row[at] = x;
    }
}

// A byte more of a case that goes on; a word that is no number leaves none in the row.
// The digit is read here and not by `script::number_more`, which has one none: `digit_more` keeps the number that goes over the limit.
#[tactic(auto, unfolding(crate::specs::Feed::step, crate::specs::Feed::stored))]
fn step(row: &mut [u32], s: Reading, b: u8) -> Reading
    requires { s.filled < case_size }
    ensures value { result ≡ step s b }
    ensures row_after { row.new ≡ cond (ltb s.number no_number) (stored s b row.old) row.old }
{
    if !is_blank(b) {
        let number = if b.is_ascii_digit() && s.number < NO_NUMBER {
            10 * s.number + u64::from(b - b'0')
        } else {
            NO_NUMBER
        };
        return Reading {
            word: true,
            number,
            ..s
        };
    }
    if !s.word {
        return s;
    }
    if let Ok(number) = u32::try_from(s.number) {
        keep(row, s.filled, number);
    }
    Reading {
        filled: s.filled + 1,
        ..Reading::NONE
    }
}

fn next_case(k: u32) -> Probe
    ensures { result ≡ probe (k_more k) no_reading }
{
    Probe {
        k: k.saturating_add(1),
        reading: Reading::NONE,
    }
}

// A case as far as it is read: its text where it is whole, and the line that ends the output where it can't be read.
#[tactic(auto, unfolding(crate::specs::Feed::text_at, crate::specs::Feed::next_at))]
fn took_up(page: &mut Page, row: &[u32], p: Probe) -> Probe
    ensures goes { result ≡ next_at p.k p.reading row.now }
    ensures written { Writes page.old page.new (text_at p.k p.reading row.now) }
{
    if NO_NUMBER <= p.reading.number {
        put_fault(page, p.k, b": number expected\n");
        return p;
    }
    if p.reading.filled < CASE_SIZE {
        return p;
    }
    if !places_good(row) {
        put_fault(page, p.k, b": no such place\n");
        return p;
    }
    put_case(page, row);
    next_case(p.k)
}

// A byte more of the input; past a case that can't be read nothing changes.
#[tactic(auto, unfolding(crate::specs::Feed::fed_probe, crate::specs::Feed::fed_row, crate::specs::Feed::fed_text))]
pub fn fed(row: &mut [u32], out: &mut [u8], p: Probe, b: u8) -> Said
    ensures { FedTo p b row.old row.new out.old out.new result }
{
    if !goes_on(p.reading) {
        return Said { probe: p, len: 0 };
    }
    let reading = step(row, p.reading, b);
    let mut page = Page::new(out);
    let probe = took_up(&mut page, row, Probe { reading, ..p });
    Said {
        probe,
        len: page.at,
    }
}

// The end of the input: it ends the last word, as a newline does, and may cut a case.
#[tactic(auto, unfolding(crate::specs::Feed::closed_text))]
pub fn closed(row: &mut [u32], out: &mut [u8], p: Probe) -> usize
    ensures { ClosedTo p row.old row.new out.old out.new result }
{
    let f = fed(row, out, p, b'\n');
    if !is_cut(f.probe.reading) {
        return f.len;
    }
    let mut page = Page { out, at: f.len };
    put_fault(&mut page, f.probe.k, b": cut\n");
    page.at
}
