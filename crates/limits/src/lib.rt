// How far a run can go: no turn of a file's run is refused, and the numbers that its report prints are small.
// Theorems alone: a function for each, whose contract is the theorem and whose body is empty. They rest on the rooms' own proofs and assume nothing.
#![tactic(auto)]

ghost use Rattle.limits.specs.Answers.{NoneRefused};
ghost use Rattle.limits.specs.Small.{SmallNumbers};

// Of a file of bytes that reads well, no turn is refused: 9 to 13 are not reached.
#[tactic(auto, using(crate::proofs::Promised::none_refused))]
pub fn no_run_is_refused()
    ensures { NoneRefused }
{}

// Its report's numbers: 40,960 turns, 1,024 calls, 10 own turns, 32-bit answers, a version of 81,920 at most.
#[tactic(auto, using(crate::proofs::Promised::small_numbers))]
pub fn numbers_are_small()
    ensures { SmallNumbers }
{}
