// What is proved of reading and writing together; each function stands for the promise that it ensures.
ghost use Rattle.runfile.specs.Promise.{CallsSpelled, WrittenReadsBack, WritesOnlyOutput, ReadWritesBack, TrailerPointsBack, WriterEnough, RefusedExactly, WriterSettled, ReadsSettled};

// The bytes of a call tell the call, and are told by it.
#[tactic(auto, using(crate::proofs::Calls::calls_spelled))]
pub fn calls_are_spelled()
    ensures { CallsSpelled }
{}

// What is read from a written file is what was written.
#[tactic(auto, using(crate::proofs::Trips::written_reads_back))]
pub fn written_reads_back()
    ensures { WrittenReadsBack }
{}

// Success changes just the bytes of the output, a refusal changes none.
#[tactic(auto, using(crate::proofs::Writes::writes_only_output))]
pub fn writes_only_output()
    ensures { WritesOnlyOutput }
{}

// A file that reads well is, byte for byte, what the writer makes of what was read.
#[tactic(auto, using(crate::proofs::Trips::read_writes_back))]
pub fn read_writes_back()
    ensures { ReadWritesBack }
{}

// The trailer of a file that reads well points back to the call table and to the turns.
#[tactic(auto, using(crate::proofs::Answers::points_back))]
pub fn trailer_points_back()
    ensures { TrailerPointsBack }
{}

// A buffer of 53,264 bytes is enough for the file of any run.
#[tactic(auto, using(crate::proofs::Exact::writer_enough))]
pub fn buffer_is_enough()
    ensures { WriterEnough }
{}

// Reader and writer refuse exactly when a row of the table holds, with the first such call or turn as K.
#[tactic(auto, using(crate::proofs::Exact::refused_exactly))]
pub fn refused_exactly()
    ensures { RefusedExactly }
{}

// The writer's contract allows one answer and one buffer for each input.
#[tactic(auto, using(crate::proofs::Exact::writer_settled))]
pub fn writer_is_settled()
    ensures { WriterSettled }
{}

// The numbers of the reader's answer, which its contract gives, tell the answer.
#[tactic(auto, using(crate::proofs::Answers::reads_settled))]
pub fn reads_are_settled()
    ensures { ReadsSettled }
{}
