// The promises: a function for each, whose contract is the theorem and whose body is empty, so that the gate's log lists what the customer was promised.
// They rest on the rooms' own proofs and assume nothing.
#![tactic(auto)]

ghost use Rattle.card.specs.Promise.{Card};
ghost use Rattle.bench.specs.Promise.{RefusesExactly, KeptSound, OwnTurnsAreOperations};
ghost use Rattle.order.specs.Demand.{EveryRun, WaitFree};
ghost use Rattle.order.specs.Decided.{LogDecided};
ghost use Rattle.order.specs.Files.{EveryFile};
ghost use Rattle.order.specs.Winners.{WinnersAreNamed};
ghost use Rattle.promises.specs.Runs.{RunsToCheck};
ghost use Rattle.promises.specs.Facts.{SoundFacts};
ghost use Rattle.promises.specs.Refused.{LowestRefusals};
ghost use Rattle.promises.specs.Unique.{OneResult};

// R9, P's packing over any split, and that P is a register of two halves.
#[tactic(auto, using(card::proofs::Card::card))]
pub fn registers_are_as_written()
    ensures { Card }
{}

// R1 to R9 of document 01, from the bytes of the file to the text of the report.
#[tactic(auto, using(crate::proofs::Runs::runs_to_check))]
pub fn runs_are_as_written()
    ensures { RunsToCheck }
{}

// The lowest number that holds is given: of the reader, the writer, a turn, a move, a fresh bench and a picture. Refused, a fresh bench is all zeros, and a picture changes no byte.
#[tactic(auto, using(crate::proofs::Refused::lowest_refusals))]
pub fn lowest_refusals_are_given()
    ensures { LowestRefusals }
{}

// Demand 1 for turns: each refusal exactly when it holds and none before it does, and a refused turn hands back the same bench.
#[tactic(auto, using(bench::proofs::Clear::refuses_exactly))]
pub fn turns_are_refused_exactly()
    ensures { RefusesExactly }
{}

// Fresh benches are sound, and so is the bench that a turn of a sound one hands back.
#[tactic(auto, using(bench::proofs::Promised::kept_sound))]
pub fn turns_keep_a_bench_sound()
    ensures { KeptSound }
{}

// Of a sound bench: P's word loses nothing, the picture has 16 + 16n bytes, a swap's place 5 read its a, and a call that ends leaves zero in all but c.
#[tactic(auto, using(crate::proofs::Facts::sound_facts))]
pub fn sound_benches_fit()
    ensures { SoundFacts }
{}

// Demand 3's first sentence: own turns are the table's operations done, 1, 8 or 10 of them, and a call has ended by the tenth.
#[tactic(auto, using(bench::proofs::Own::own_operations))]
pub fn own_turns_are_operations()
    ensures { OwnTurnsAreOperations }
{}

// Demand 3: every run from a fresh bench, with any turns and offers, behaves as one word served one call at a time.
#[tactic(auto, using(order::proofs::Runs::every_run))]
pub fn every_run_is_one_word()
    ensures { EveryRun }
{}

// The log that it speaks of is decided by the turns of the run: two logs that are pinned to them say the same.
#[tactic(auto, using(order::proofs::Decided::log_decided))]
pub fn the_turns_decide_the_log()
    ensures { LogDecided }
{}

// Where place 19 raises V.seq, the saved pid's station is past 5 with s two below, in the very call that the saved claim was made for.
#[tactic(auto, using(order::proofs::Winners::winners_are_named))]
pub fn raises_name_the_winner()
    ensures { WinnersAreNamed }
{}

// No call waits for another station: from a fresh bench, a turn of a station in a call, with a good offer, does an operation of it.
#[tactic(auto, using(order::proofs::WaitFree::wait_free))]
pub fn no_call_waits()
    ensures { WaitFree }
{}

// Demand 3 for every file that reads well, with its call numbers and the very list that the report prints.
#[tactic(auto, using(order::proofs::Files::every_file))]
pub fn every_file_is_one_word()
    ensures { EveryFile }
{}

// Two results that a public function's contract allows for one input are equal: those whose contract is more than one equation.
#[tactic(auto, using(crate::proofs::Unique::one_result))]
pub fn results_are_unique()
    ensures { OneResult }
{}
