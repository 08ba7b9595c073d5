// What is proved of parsing, and of printing and parsing together; each function stands for the promise that it ensures.
ghost use Rattle.drafting.specs.Promise.{PrintedReadsBack, TextsTellGoodRuns, ParseEnough, ParseSettled, NumbersTell};

// A file that was printed is turned back into the same bytes.
#[tactic(auto, using(crate::proofs::Promised::printed_reads_back))]
pub fn printed_reads_back()
    ensures { PrintedReadsBack }
{}

// A text that is not refused gives a file that reads well and holds what the text tells.
#[tactic(auto, using(crate::proofs::Promised::texts_tell_good_runs))]
pub fn texts_tell_good_runs()
    ensures { TextsTellGoodRuns }
{}

// A buffer of 53,264 bytes is enough for the file of any text.
#[tactic(auto, using(crate::proofs::Small::parse_enough))]
pub fn buffer_is_enough()
    ensures { ParseEnough }
{}

// The contract of parsing allows one answer and one buffer for each input.
#[tactic(auto, using(crate::proofs::Promised::answer_is_settled))]
pub fn answer_is_settled()
    ensures { ParseSettled }
{}

// An answer's numbers tell the answer: its line and what was expected there, or its length.
pub fn numbers_tell_answers()
    ensures { NumbersTell }
{}
