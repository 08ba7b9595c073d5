// A text as a run file.
ghost use Rattle.drafting.specs.Parse.{parsed_numbers, ParsedTo};

use crate::drafts::{MOST_CALLS, MOST_TURNS};
use crate::gathering::told;
use crate::{Complaint, Expected};
use script::Page;

// Writes the file that the text tells to the front of the buffer, and tells its length; refused, it leaves the buffer as it was.
pub fn parse(text: &[u8], out: &mut [u8]) -> Result<usize, Complaint>
    ensures { ParsedTo text.now out.old (parsed_numbers result) out.new }
{
    // A call has 12 bytes, a turn 1.
    let mut table = [0u8; 12 * MOST_CALLS];
    let mut turns = [0u8; MOST_TURNS];
    let mut calls = Page::new(&mut table);
    let mut moves = Page::new(&mut turns);
    let d = told(text, &mut calls, &mut moves)?;
    let a = calls.at;
    let b = moves.at;
    runfile::write(d.x, d.n, &table[..a], &turns[..b], out).map_err(|_| Complaint {
        line: 0,
        expected: Expected::Room,
    })
}
