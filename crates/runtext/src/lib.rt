// The text form of a run file, docs/RUN-TEXT.md: a file that reads well is printed as text. Its modules: printing; showing (what
// the program read_run writes); promises (what is proved of them). How a text is turned back into a file is the next room's,
// `drafting`.
#![tactic(auto)]

mod printing;
mod promises;
mod showing;

pub use printing::print;
pub use promises::{answer_is_settled, buffer_is_enough, output_is_settled, output_is_whole};
pub use showing::output;

// What is written of a file: the text or the line of the refusal, with how many of its bytes stand at the front of a lent buffer.
// No `Result`: both are text that is written, and an `Err` of a length would say nothing.
#[derive(Clone, Copy, PartialEq, Eq)]
pub enum Outcome {
    Text(usize),
    Refusal(usize),
}
