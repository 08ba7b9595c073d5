// Why a text cannot be read, in words: the line that `write_run` tells a person.
#![tactic(auto)]

ghost use Rattle.std.specs.Prelude.{◌≡◌, min};
ghost use Rattle.script.specs.Wrote.{Wrote};
ghost use Rattle.drafting.specs.Parse.{parsed};
ghost use Rattle.messages.specs.Complaint.{words_for, complaint_of};

use script::Page;

#[tactic(auto, unfolding(crate::specs::Complaint::words_for, script::specs::Decimal::decimal, script::specs::Decimal::digits_in))]
fn words(expected: u32) -> &'static [u8]
    ensures { result.now ≡ words_for expected }
{
    match expected {
        1 => b"start",
        2 => b"a value from 0 to 4294967295",
        3 => b"the end of the line",
        4 => b"stations",
        5 => b"a number of stations from 1 to 32",
        6 => b"a station or turns",
        7 => b"read, set or swap",
        8 => b"a station",
        9 => b"no more than 1024 calls",
        10 => b"no more than 40960 turns",
        _ => b"a longer buffer",
    }
}

// A line's number, no further than the largest value.
fn narrow(line: usize) -> u32
    ensures { result ≡ min line 4294967295 }
{
    u32::try_from(line).unwrap_or(u32::MAX)
}

// `line L: expected W` and a newline, from the front of the buffer on, as far as it goes. W goes by the number of what was expected.
pub fn complain(line: usize, expected: u32, out: &mut [u8]) -> usize
    ensures { Wrote out.old out.new 0 result (complaint_of (parsed line expected 0)) }
{
    let mut page = Page::new(out);
    page.word(b"line ");
    page.decimal(narrow(line));
    page.word(b": expected ");
    page.word(words(expected));
    page.put(b'\n');
    page.at
}
