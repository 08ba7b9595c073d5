// The picture of a bench's registers, drawn into a lent buffer.
#![tactic(auto)]

ghost use Rattle.std.specs.Prelude.{◌≡◌, ◌+◌, ◌*◌, ◌≤◌, length};
ghost use Rattle.std.proofs.lemmas.List.Edits.{sets};
ghost use Rattle.octets.specs.Bytes.{bytes};
ghost use Rattle.rules.specs.Reason.{numbers};
ghost use Rattle.picture.specs.Picture.{entry_words, registers, in_bytes, DrawnTo};

use bench::Bench;
use card::Halves;
use rules::Reason;

#[tactic(auto, using(crate::proofs::Drawn::part_stored))]
fn put_word(out: &mut [u8], at: usize, x: u64)
    requires { at + 8 ≤ length out.old }
    ensures { out.new ≡ sets out.old at (bytes 8 x) }
{
    octets::store(&mut out[at..at + 8], x);
}

// The words of entries 1 to n. Array and n stay apart: a slice `&bench.a[1..=n]` was tried, and the proof didn't close, since `entry_words` counts by the whole array.
// A place stays beside the buffer here and in `put_word`: `sets` is told by place, so that what is drawn adds up.
#[tactic(auto, using(crate::proofs::Drawn::entry_more), unfolding(crate::specs::Picture::entry_words, crate::specs::Picture::in_bytes))]
fn put_entries(out: &mut [u8], from: usize, entries: [Halves; 33], n: usize)
    requires { (n ≤ 32) × (from + 8 * n ≤ length out.old) }
    ensures { out.new ≡ sets out.old from (in_bytes (entry_words entries n)) }
{
    for i in 0..n {
        put_word(out, from + 8 * i, entries[i + 1].word());
    }
}

#[tactic(auto, using(crate::proofs::Drawn::all_drawn))]
fn put_registers(out: &mut [u8], bench: Bench)
    requires { (bench.n ≤ 32) × (16 + 16 * bench.n ≤ length out.old) }
    ensures { out.new ≡ sets out.old 0 (in_bytes (registers bench)) }
{
    let n = bench.n as usize;
    put_word(out, 0, bench.v.word());
    put_word(out, 8, bench.p.word());
    put_entries(out, 16, bench.a, n);
    put_entries(out, 16 + 8 * n, bench.r, n);
}

// Draws V, P, A[1..n] and R[1..n], and hands back how many bytes. Refused, no byte changes.
#[tactic(auto, using(bench::proofs::Sounds::few_stations_lem, crate::proofs::Drawn::in_front), unfolding(crate::specs::Picture::drawing_of, crate::specs::Picture::drawn_on))]
pub fn picture(bench: Bench, out: &mut [u8]) -> Result<usize, Reason>
    ensures { DrawnTo bench out.old (numbers result) out.new }
{
    if !bench.sound() {
        return Err(Reason::Unsound);
    }
    let len = 16 + 16 * bench.n as usize;
    if out.len() < len {
        return Err(Reason::Room);
    }
    put_registers(out, bench);
    Ok(len)
}
