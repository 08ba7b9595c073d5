// A text turned back into a run file, docs/RUN-TEXT.md: word by word, by way of a draft of the run that grows with each.
// Its modules: words and drafts (what the words of a text say, one at a time), scanning (where words and lines end),
// gathering (what a text's calls and turns are) and parsing; promises (what is proved of printing and parsing together).
#![tactic(auto)]

ghost use Rattle.std.specs.Prelude.{◌≡◌};
ghost use Rattle.drafting.specs.Expected.{expected_number};

mod drafts;
mod gathering;
mod parsing;
mod promises;
mod scanning;
mod words;

pub use parsing::parse;
pub use promises::{
    answer_is_settled, buffer_is_enough, numbers_tell_answers, printed_reads_back,
    texts_tell_good_runs,
};
use runfile::CallRecord;

// What was expected of a text that cannot be read; Room is a longer buffer.
#[derive(Clone, Copy, PartialEq, Eq)]
pub enum Expected {
    Start = 1,
    Value = 2,
    LineEnd = 3,
    Stations = 4,
    StationCount = 5,
    StationOrTurns = 6,
    Kind = 7,
    Station = 8,
    FewerCalls = 9,
    FewerTurns = 10,
    Room = 14,
}

impl Expected {
    // The number that docs/RUN-TEXT.md gives it.
    pub fn number(self) -> u32
        ensures { result ≡ expected_number self }
    {
        self as u32
    }
}

// The line, from 1, and what was expected there; `parse` gives line 0 with Room.
#[derive(Clone, Copy, PartialEq, Eq)]
pub struct Complaint {
    pub line: usize,
    pub expected: Expected,
}

// The word that comes next, or that the line has to end.
#[derive(Clone, Copy, Default)]
pub(crate) enum Stage {
    #[default]
    Start,
    StartValue,
    AfterStart,
    Stations,
    Count,
    AfterCount,
    Call,
    Kind,
    First,
    Second,
    AfterCall,
    Turn,
}

// q and t count the calls and turns so far; call is the last of them, of which a turn has the station alone.
#[derive(Clone, Copy, Default)]
pub(crate) struct Draft {
    pub stage: Stage,
    pub x: u32,
    pub n: u32,
    pub q: usize,
    pub t: usize,
    pub call: CallRecord,
}

// Between words, in a comment, or in the word that begins at a place of the text.
#[derive(Clone, Copy)]
pub(crate) enum Within {
    Blank,
    Comment,
    Word(usize),
}

// The line from 1, where in it the text has come, and what was said before the word so far.
#[derive(Clone, Copy)]
pub(crate) struct Scan {
    pub line: usize,
    pub within: Within,
    pub draft: Draft,
}
