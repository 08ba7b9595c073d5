// What the program report writes of a file: its report, or the line of its refusal.
ghost use Rattle.std.specs.Prelude.{length};
ghost use Rattle.script.specs.Output.{OutputTo};
ghost use Rattle.sheet.specs.Output.{report_output, ReportOutputWhole};

use crate::reporting::report;
use script::told_refusal;

// Writes it to the front of the buffer, as far as that goes, and tells how many of its bytes are there.
pub fn output(file: &[u8], out: &mut [u8]) -> usize
    ensures { OutputTo (report_output file.now (length out.old)) out.old result out.new }
{
    match report(file, out) {
        Ok(len) => len,
        Err(reason) => told_refusal(out, reason.number(), reason.k() as u32),
    }
}

// In a buffer of 40,960 bytes the output is whole: the report, or the line of the file's own refusal.
#[tactic(auto, using(crate::proofs::Outputs::output_is_whole))]
pub fn output_is_whole()
    ensures { ReportOutputWhole }
{}
