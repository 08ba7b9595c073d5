// The run loop: it keeps its own bench in place, turns it, and keeps the book.
// It assumes good turns and good calls. Its bench is sound by its type, so that no turn tests it.
// The WAIT part is written in two places: document 01's `let .. else` has two ends, and each follows a change of the book.
ghost use Rattle.run.specs.Drive.{Drivable, Driven};

use crate::calls::{errand, offered, operation, waiting};
use crate::parts::{HEAD, LATEST, WAIT};
use crate::{Drove, Finish, Ledger};
use bench::SoundBench;
use method::Answer;

pub(crate) fn drive(mut w: SoundBench, table: &[u8], turns: &[u8], row: &mut [u32]) -> Drove
    requires { Drivable w.bench table.now turns.now row.old }
    ensures { Driven w.bench table.now turns.now row.old result row.new }
{
    let mut book = Ledger::new(row);
    for (k, b) in turns.iter().enumerate() {
        let i = u32::from(*b);
        let at = i as usize;
        let turn = k as u32 + 1;
        let before = w.bench.stations[at];
        let Some(e) = errand(before, turn, i, book.row[HEAD + at], book.row[LATEST + at]) else {
            book.idled();
            continue;
        };
        let v = w.bench.v;
        let x = w.turn(i, offered(table, e));
        let after = w.bench.stations[at];
        let waits = waiting(after);
        let Answer::Ended { result, own } = x else {
            let o = operation(before, v, after.own, w.bench.n);
            book.not_ended(x, e, o);
            book.row[WAIT + at] = waits;
            continue;
        };
        book.finished(e, Finish { result, own });
        book.row[WAIT + at] = waits;
    }
    Drove {
        bench: w.bench,
        tally: book.tally,
    }
}
