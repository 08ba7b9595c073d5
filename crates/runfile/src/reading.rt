// A run file is read, and its parts are handed out.
ghost use Rattle.std.specs.Prelude.{◌≡◌};
ghost use Rattle.rules.specs.Row.{verdict_of};
ghost use Rattle.rules.specs.Reason.{verdict_in};
ghost use Rattle.runfile.specs.Layout.{part};
ghost use Rattle.runfile.specs.Reading.{trailer_rows, read_numbers, read_of, table_of, turns_of};

use crate::checks::{limits, parts};
use crate::layout::trailer_at;
use crate::{Contents, Trailer};
use rules::{CALLS, Reason, TURNS};

// The bytes of the longest file.
const LONGEST: usize = 16 + TURNS as usize + 12 * CALLS as usize;

// Refusals 2 to 8 of a file with this trailer. The distances are added as 64-bit numbers, where they do not wrap.
fn judged(file: &[u8], z: Trailer) -> Result<(), Reason>
    ensures { verdict_in result ≡ verdict_of (trailer_rows file.now z) }
{
    if z.form != 1 {
        return Err(Reason::Form);
    }
    let q = z.q as usize;
    let t = z.second as usize;
    let first = z.first as usize;
    let agree = first == t + 12 * q && file.len() == 16 + first;
    limits(z.n, q, t, agree)?;
    let (table, rest) = file.split_at(12 * q);
    parts(z.n, table, &rest[..t])
}

// What the file holds, or its refusal.
#[tactic(auto, unfolding(crate::specs::Reading::read_of))]
pub fn read(file: &[u8]) -> Result<Contents, Reason>
    ensures { read_numbers result ≡ read_of file.now }
{
    let len = file.len();
    if len < 16 || LONGEST < len {
        return Err(Reason::FileLength);
    }
    let z = trailer_at(&file[len - 16..]);
    judged(file, z)?;
    let q = z.q as usize;
    Ok(Contents {
        x: z.x,
        n: z.n,
        q,
        t: z.second as usize,
        start: 0,
        middle: 12 * q,
    })
}

// The k bytes from place at on, as far as there are so many.
pub fn part(s: &[u8], at: usize, k: usize) -> &[u8]
    ensures { result.now ≡ part s.now at k }
{
    let rest = &s[at.min(s.len())..];
    &rest[..k.min(rest.len())]
}

// The call table of a file, a part of it; empty for a refused one. It and `turns` are two public functions, of one line each.
pub fn table(file: &[u8]) -> &[u8]
    ensures { result.now ≡ table_of file.now }
{
    match read(file) {
        Ok(r) => part(file, r.start, 12 * r.q),
        Err(_) => &file[..0],
    }
}

// The turns of a file, a part of it; empty for a refused one.
pub fn turns(file: &[u8]) -> &[u8]
    ensures { result.now ≡ turns_of file.now }
{
    match read(file) {
        Ok(r) => part(file, r.middle, r.t),
        Err(_) => &file[..0],
    }
}
