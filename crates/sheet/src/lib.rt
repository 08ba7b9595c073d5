// The report of a run file as text, in a lent buffer.
// Its modules: reporting (the report of a file, and what is proved of it) and showing (what the program report writes). The text
// itself is that of `lines`.
#![tactic(auto)]

mod reporting;
mod showing;

pub use reporting::{answer_is_settled, buffer_is_enough, report};
pub use showing::{output, output_is_whole};
