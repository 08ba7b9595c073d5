// The text of a case, docs/PROBE.md, written to a page.
// Four writers of a few texts keep an answer, `search (rules, then)`: an attribute's `using(script::proofs::Pages::then)` was tried, and the proofs didn't close.
ghost use Rattle.std.specs.Prelude.{◌≡◌, [], ◌∷◌, ◌<◌, get_or};
ghost use Rattle.script.specs.Page.{Writes};
ghost use Rattle.card.specs.Register.{halves};
ghost use Rattle.method.specs.Record.{resting};
ghost use Rattle.probing.specs.Numbers.{entry_numbers, station_numbers, rows};
ghost use Rattle.probing.specs.Text.{spaced, hex_digit, hexes, sound_text, refused_text, ended_text, answer_text, bench_text, drawn_text, picture_text, case_text, fault_text};

use crate::numbers::{bench_of, call_from, cell};
use bench::Bench;
use card::Halves;
use method::{Answer, Station};
use script::Page;

// A space before each number.
#[tactic(auto, using(script::proofs::Pages::blank), unfolding(crate::specs::Text::spaced))]
fn put_numbers(page: &mut Page, numbers: &[u32])
    ensures { Writes page.old page.new (spaced numbers.now) }
{
    for x in numbers {
        page.put(b' ');
        page.decimal(*x);
    }
}

// By index: `rows` tells the text by place, and a `zip` of the two has none, so that is no plainer.
fn put_entries(page: &mut Page, a: &[Halves; 33], r: &[Halves; 33])
    ensures { Writes page.old page.new (spaced (rows (λ i. entry_numbers (get_or a.now i (halves 0 0)) (get_or r.now i (halves 0 0))) 33)) }
{
    for i in 0..33 {
        put_numbers(page, &[a[i].first, a[i].second, r[i].first, r[i].second]);
    }
}

fn put_station(page: &mut Page, t: Station)
    ensures { Writes page.old page.new (spaced (station_numbers t)) }
{
    put_numbers(
        page,
        &[
            t.place.number(),
            t.call.kind,
            t.call.a,
            t.call.b,
            t.s,
            t.own,
            t.c,
            t.saw.seq,
            t.saw.pid,
            t.saw.c,
            t.entry.first,
            t.entry.second,
        ],
    );
}

fn put_stations(page: &mut Page, stations: &[Station; 33])
    ensures { Writes page.old page.new (spaced (rows (λ i. station_numbers (get_or stations.now i (resting 0))) 33)) }
{
    for t in stations {
        put_station(page, *t);
    }
}

fn put_bench(page: &mut Page, w: Bench)
    ensures { Writes page.old page.new (bench_text w) }
{
    page.decimal(w.n);
    put_numbers(page, &[w.v.first, w.v.second, w.p.seq, w.p.pid, w.p.c]);
    put_entries(page, &w.a, &w.r);
    put_stations(page, &w.stations);
    page.put(b'\n');
}

fn hex_digit(d: u8) -> u8
    requires { d < 16 }
    ensures { result ≡ hex_digit d }
{
    if d < 10 {
        return b'0' + d;
    }
    b'a' + (d - 10)
}

#[tactic(auto, using(script::proofs::Pages::blank), unfolding(crate::specs::Text::hexes))]
fn put_hexes(page: &mut Page, bytes: &[u8])
    ensures { Writes page.old page.new (hexes bytes.now) }
{
    for b in bytes {
        page.put(hex_digit(*b / 16));
        page.put(hex_digit(*b % 16));
    }
}

fn put_refused(page: &mut Page, n: u32)
    ensures { Writes page.old page.new (refused_text n) }
{
    page.word(b"refused ");
    page.decimal(n);
    page.put(b'\n');
}

fn put_ended(page: &mut Page, res: u32, own: u32)
    ensures { Writes page.old page.new (ended_text res own) }
{
    page.word(b"ended ");
    page.decimal(res);
    page.put(b' ');
    page.decimal(own);
    page.put(b'\n');
}

#[tactic(auto, unfolding(crate::specs::Text::answer_text))]
fn put_answer(page: &mut Page, answer: Answer)
    ensures { Writes page.old page.new (answer_text answer) }
{
    match answer {
        Answer::Idle => page.word(b"idle\n"),
        Answer::Going => page.word(b"going\n"),
        Answer::Ended { result, own } => put_ended(page, result, own),
        Answer::Refused(n) => put_refused(page, n),
    }
}

fn put_sound(page: &mut Page, good: bool)
    ensures { Writes page.old page.new (sound_text good) }
{
    if good {
        page.word(b"sound\n");
    } else {
        page.word(b"unsound\n");
    }
}

fn put_drawn(page: &mut Page, bytes: &[u8])
    ensures { Writes page.old page.new (drawn_text bytes.now) }
{
    page.word(b"picture ");
    put_hexes(page, bytes);
    page.put(b'\n');
}

fn put_picture(page: &mut Page, w: Bench)
    ensures { Writes page.old page.new (picture_text w) }
{
    let mut drawn = [0u8; 528];
    match picture::picture(w, &mut drawn) {
        Ok(len) => put_drawn(page, &drawn[..len]),
        Err(reason) => put_refused(page, reason.number()),
    }
}

// The four lines of a case.
pub(crate) fn put_case(page: &mut Page, row: &[u32])
    ensures { Writes page.old page.new (case_text row.now) }
{
    let w = bench_of(row);
    let x = w.turn(cell(row, 534), call_from(row, 535));
    put_sound(page, w.sound());
    put_answer(page, x.answer);
    put_bench(page, x.bench);
    put_picture(page, x.bench);
}

// The line that ends the output.
pub(crate) fn put_fault(page: &mut Page, k: u32, words: &[u8])
    ensures { Writes page.old page.new (fault_text k words.now) }
{
    page.word(b"case ");
    page.decimal(k);
    page.word(words);
}
