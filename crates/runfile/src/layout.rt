// The bytes of a call and of the trailer, as numbers.
ghost use Rattle.std.specs.Prelude.{◌≡◌, ◌≤◌, length};
ghost use Rattle.octets.specs.Bytes.{spelled};
ghost use Rattle.runfile.specs.Layout.{call_record, call_of, trailer_of};

use crate::{CallRecord, Trailer};

// The number that a part of at most four bytes spells.
pub(crate) fn field(part: &[u8]) -> u32
    requires { length part.now ≤ 4 }
    ensures { result ≡ spelled part.now }
{
    octets::number(part) as u32
}

// The trailer in 16 bytes. A slice, as for `record_at`: an array would be no plainer, since each caller would turn its slice into one.
pub(crate) fn trailer_at(s: &[u8]) -> Trailer
    requires { length s.now ≡ 16 }
    ensures { result ≡ trailer_of s.now }
{
    Trailer {
        x: field(&s[0..4]),
        n: field(&s[4..5]),
        form: field(&s[5..6]),
        q: field(&s[6..8]),
        first: field(&s[8..12]),
        second: field(&s[12..16]),
    }
}

// The call in 12 bytes.
pub(crate) fn record_at(s: &[u8]) -> CallRecord
    requires { length s.now ≡ 12 }
    ensures { result ≡ call_record s.now }
{
    CallRecord {
        station: field(&s[0..2]),
        kind: field(&s[2..3]),
        a: field(&s[4..8]),
        b: field(&s[8..12]),
    }
}

// The call of number k of a table, from 1; all zero where the table has none of that number.
#[tactic(auto, unfolding(crate::specs::Layout::call_of))]
pub fn call_at(table: &[u8], k: usize) -> CallRecord
    ensures { result ≡ call_of table.now k }
{
    if k == 0 || table.len() / 12 < k {
        return CallRecord::default();
    }
    let a = 12 * (k - 1);
    record_at(&table[a..a + 12])
}
