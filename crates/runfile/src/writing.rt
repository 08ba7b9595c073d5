// A run is written as a file into a lent buffer.
ghost use Rattle.std.specs.Prelude.{◌≡◌, ◌≤◌, ◌++◌, length, drop};
ghost use Rattle.rules.specs.Row.{verdict_of};
ghost use Rattle.rules.specs.Reason.{numbers, verdict_in};
ghost use Rattle.runfile.specs.Layout.{trailer_bytes, file_of};
ghost use Rattle.runfile.specs.Writing.{file_length, write_rows, Written};

use crate::Trailer;
use crate::checks::{limits, parts};
use rules::Reason;

// The trailer's bytes, into a slice, as `write` lends it: an array would be no plainer.
fn put_trailer(out: &mut [u8], z: Trailer)
    requires { length out.old ≡ 16 }
    ensures { out.new ≡ trailer_bytes z }
{
    octets::store(&mut out[0..4], u64::from(z.x));
    octets::store(&mut out[4..5], u64::from(z.n));
    octets::store(&mut out[5..6], u64::from(z.form));
    octets::store(&mut out[6..8], u64::from(z.q));
    octets::store(&mut out[8..12], u64::from(z.first));
    octets::store(&mut out[12..16], u64::from(z.second));
}

// Copies from over to, of the same length. `copy_from_slice` would be plainer; it calls C's memmove, which a controller's archive does without.
fn lay(to: &mut [u8], from: &[u8])
    requires { length to.old ≡ length from.now }
    ensures { to.new ≡ from.now }
{
    for (i, b) in from.iter().enumerate() {
        to[i] = *b;
    }
}

// Writes the whole file to the front of the buffer. Its length is bounded so that the trailer's numbers fit their fields.
fn put_file(out: &mut [u8], x: u32, n: u32, table: &[u8], turns: &[u8])
    requires { (file_length table.now turns.now ≤ length out.old) × (file_length table.now turns.now ≤ 65536) }
    ensures { out.new ≡ file_of x n table.now turns.now ++ drop (file_length table.now turns.now) out.old }
{
    let a = table.len();
    let t = turns.len();
    let q = a / 12;
    let z = Trailer {
        x,
        n,
        form: 1,
        q: q as u32,
        first: (t + 12 * q) as u32,
        second: t as u32,
    };
    lay(&mut out[..a], table);
    lay(&mut out[a..a + t], turns);
    put_trailer(&mut out[a + t..a + t + 16], z);
}

// The writer's refusals, with a buffer of room bytes.
fn writable(n: u32, table: &[u8], turns: &[u8], room: usize) -> Result<(), Reason>
    ensures { verdict_in result ≡ verdict_of (write_rows n table.now turns.now room) }
{
    let l = table.len();
    let t = turns.len();
    limits(n, l / 12, t, l % 12 == 0)?;
    parts(n, table, turns)?;
    if room < 16 + t + l {
        return Err(Reason::Room);
    }
    Ok(())
}

// Writes the file of x, n, the call table and the turns to the front of the buffer, and tells its length; refused, it leaves the buffer as it was.
// The four come one by one, as `stepbench_write` has them of C; a struct of them with methods was written, and its proof did not close.
pub fn write(x: u32, n: u32, table: &[u8], turns: &[u8], out: &mut [u8]) -> Result<usize, Reason>
    ensures { Written x n table.now turns.now out.old (numbers result) out.new }
{
    let l = table.len();
    let t = turns.len();
    writable(n, table, turns, out.len())?;
    put_file(out, x, n, table, turns);
    Ok(16 + t + l)
}
