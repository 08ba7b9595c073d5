// What the program read_run writes of a file: its text, or the line of its refusal.
ghost use Rattle.runtext.specs.Output.{PrintOutput};

use crate::Outcome;
use crate::printing::print;
use script::told_refusal;

// Writes it to the front of the buffer, as far as that goes, and tells which it is and how many of its bytes are there.
pub fn output(file: &[u8], out: &mut [u8]) -> Outcome
    ensures { PrintOutput file.now out.old result out.new }
{
    match print(file, out) {
        Ok(len) => Outcome::Text(len),
        Err(reason) => Outcome::Refusal(told_refusal(out, reason.number(), reason.k() as u32)),
    }
}
