// The run of a file that reads well, in a row of zeros that is just long enough. It assumes that the file was read once, since that takes a look at each turn.
// After the list the row is zero again: what the loop kept for itself is no part of the trace.
ghost use Rattle.std.specs.Prelude.{◌≡◌, Ok};
ghost use Rattle.runfile.specs.Reading.{read_numbers, read_of};
ghost use Rattle.run.specs.Row.{zero_row};
ghost use Rattle.run.specs.Trace.{RanTo};

use crate::Trace;
use crate::calls::link;
use crate::drive::drive;
use crate::parts::LIST;
use bench::{Bench, SoundBench};
use runfile::{Contents, part};

pub(crate) fn ran(file: &[u8], row: &mut [u32], has: Contents) -> Trace
    requires { (row.old ≡ zero_row) × (read_numbers (Ok has) ≡ read_of file.now) }
    ensures { RanTo file.now result row.new }
{
    let table = part(file, has.start, 12 * has.q);
    let turns = part(file, has.middle, has.t);
    link(table, row);
    let bench = Bench::fresh(has.x, has.n).bench;
    let d = drive(SoundBench { bench }, table, turns, row);
    row[LIST + d.tally.listed as usize..].fill(0);
    Trace {
        calls: has.q,
        turns: has.t as u32,
        idle: d.tally.idle,
        begun: d.tally.begun,
        ended: d.tally.ended,
        listed: d.tally.listed,
        val: d.bench.v.second,
        seq: d.bench.v.first,
    }
}
