// What is proved of printing; each function stands for the promise that it ensures.
ghost use Rattle.runtext.specs.Output.{PrintOutputSettled, PrintOutputWhole};
ghost use Rattle.runtext.specs.Promise.{AlwaysEnough, PrintSettled};

// A buffer of 153,635 bytes is enough for the text of any file.
#[tactic(auto, using(crate::proofs::Promised::buffer_is_enough))]
pub fn buffer_is_enough()
    ensures { AlwaysEnough }
{}

// The contract of printing allows one answer and one buffer for each input.
#[tactic(auto, using(crate::proofs::Promised::answer_is_settled))]
pub fn answer_is_settled()
    ensures { PrintSettled }
{}

// The contract of the output allows one answer and one buffer for each input.
#[tactic(auto, using(crate::proofs::Outputs::output_is_settled))]
pub fn output_is_settled()
    ensures { PrintOutputSettled }
{}

// In a buffer of 153,635 bytes the output is whole: the text, or the line of the file's own refusal.
#[tactic(auto, using(crate::proofs::Outputs::output_is_whole))]
pub fn output_is_whole()
    ensures { PrintOutputWhole }
{}
