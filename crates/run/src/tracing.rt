// The trace of a file's run: its numbers, and its book in a row that the caller lends.
ghost use Rattle.run.specs.Trace.{trace_numbers, TracedTo};

use crate::Trace;
use crate::parts::PLACES;
use crate::ran::ran;
use rules::Reason;

// Runs a file that reads well and leaves its book at the front of the row, in its parts; a row that is too short is refused. Refused, it leaves the row as it was.
#[tactic(auto, using(crate::proofs::Traces::too_short))]
pub fn traced(file: &[u8], row: &mut [u32]) -> Result<Trace, Reason>
    ensures { TracedTo file.now row.old (trace_numbers result) row.new }
{
    let contents = runfile::read(file)?;
    if row.len() < PLACES {
        return Err(Reason::Room);
    }
    let front = &mut row[..PLACES];
    front.fill(0);
    Ok(ran(file, front, contents))
}
