// The report of a file: its run's sheet, or its refusal.
ghost use Rattle.std.specs.Prelude.{◌≡◌, ◌≤◌, leb, length};
ghost use Rattle.rules.specs.Reason.{numbers};
ghost use Rattle.run.specs.Trace.{book_of};
ghost use Rattle.lines.specs.Lines.{sheet_text};
ghost use Rattle.sheet.specs.Report.{ReportedTo, AlwaysEnough, ReportSettled};

use lines::put_sheet;
use rules::Reason;
use run::{PLACES, Trace};
use runfile::part;

// Whether the sheet has its place: 40,960 bytes are enough, and what is less is held to what the sheet takes on a buffer of one byte.
fn has_room(room: usize, t: Trace, table: &[u8], row: &[u32]) -> bool
    requires { length (sheet_text t table.now (book_of t row.now)) ≤ 40960 }
    ensures { result ≡ leb (length (sheet_text t table.now (book_of t row.now))) room }
{
    40960 <= room || put_sheet(&mut [0u8; 1], t, table, row) <= room
}

// Writes the report of a file that reads well to the front of the buffer, and tells its length; refused, it leaves the buffer as it was.
pub fn report(file: &[u8], out: &mut [u8]) -> Result<usize, Reason>
    ensures { ReportedTo file.now out.old (numbers result) out.new }
{
    let mut row = [0u32; PLACES];
    let t = run::traced(file, &mut row)?;
    let table = part(file, 0, 12 * t.calls);
    if !has_room(out.len(), t, table, &row) {
        return Err(Reason::Room);
    }
    Ok(put_sheet(out, t, table, &row))
}

// A buffer of 40,960 bytes is always enough.
#[tactic(auto, using(crate::proofs::Reports::always_enough))]
pub fn buffer_is_enough()
    ensures { AlwaysEnough }
{}

// The contract of the report allows one answer and one buffer for each input.
#[tactic(auto, using(crate::proofs::Reports::settled))]
pub fn answer_is_settled()
    ensures { ReportSettled }
{}
