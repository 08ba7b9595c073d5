// The bench for programs in C: numbers and byte slices go in, a word comes back. include/stepbench.h tells a C programmer the same.
// A slice is passed as a pointer and a length. No function has a `requires`, so a caller owes nothing but memory that is its own.
#![tactic(auto)]

ghost use Rattle.std.specs.Prelude.{◌≡◌};
ghost use Rattle.rules.specs.Reason.{numbers};
ghost use Rattle.sheet.specs.Report.{reported_on};
ghost use Rattle.runfile.specs.Writing.{out_of};
ghost use Rattle.runtext.specs.Text.{printed_on};
ghost use Rattle.drafting.specs.Parse.{parsed_on};
ghost use Rattle.stepbench.specs.Word.{packed_word, WordsComeApart};
ghost use Rattle.stepbench.specs.Answer.{told_word, report_word, print_word, parse_word, write_word, read_word, x_left, n_left, q_left, t_left, AnswersComeApart};

use rules::Reason;

// A refusal, its K and a length in one word.
fn word(refused: u32, k: usize, len: usize) -> u64
    ensures { result ≡ packed_word refused k len }
{
    let n = u64::from(refused % 256);
    let k = (k % 16777216) as u64;
    let len = (len % 4294967296) as u64;
    (n * 16777216 + k) * 4294967296 + len
}

// An answer that is a length, or the reason why there is none.
fn told(answer: Result<usize, Reason>) -> u64
    ensures { result ≡ told_word (numbers answer) }
{
    match answer {
        Ok(len) => word(0, 0, len),
        Err(reason) => word(reason.number(), reason.k(), 0),
    }
}

// The report of a run file.
#[unsafe(no_mangle)]
pub extern "C" fn stepbench_report(file: &[u8], out: &mut [u8]) -> u64
    ensures value { result ≡ report_word file.now out.old }
    ensures out_after { out.new ≡ reported_on file.now out.old }
{
    told(sheet::report(file, out))
}

// A run file as text.
#[unsafe(no_mangle)]
pub extern "C" fn stepbench_print(file: &[u8], out: &mut [u8]) -> u64
    ensures value { result ≡ print_word file.now out.old }
    ensures out_after { out.new ≡ printed_on file.now out.old }
{
    told(runtext::print(file, out))
}

// A text as a run file; the word has what was expected for its refusal, and the line for its K.
// A line number that does not fit into a word is told as the largest that does.
#[unsafe(no_mangle)]
pub extern "C" fn stepbench_parse(text: &[u8], out: &mut [u8]) -> u64
    ensures value { result ≡ parse_word text.now out.old }
    ensures out_after { out.new ≡ parsed_on text.now out.old }
{
    match drafting::parse(text, out) {
        Ok(len) => word(0, 0, len),
        Err(c) => word(c.expected.number(), c.line.min(16777215), 0),
    }
}

// A run file of x, n, a call table and turns.
#[unsafe(no_mangle)]
pub extern "C" fn stepbench_write(x: u32, n: u32, table: &[u8], turns: &[u8], out: &mut [u8]) -> u64
    ensures value { result ≡ write_word n table.now turns.now out.old }
    ensures out_after { out.new ≡ out_of x n table.now turns.now out.old }
{
    told(runfile::write(x, n, table, turns, out))
}

// The four numbers of a run file; refused, they stay as they were.
#[unsafe(no_mangle)]
pub extern "C" fn stepbench_read(
    file: &[u8],
    x: &mut u32,
    n: &mut u32,
    q: &mut usize,
    t: &mut usize,
) -> u64
    ensures value { result ≡ read_word file.now }
    ensures x_after { x.new ≡ x_left file.now x.old }
    ensures n_after { n.new ≡ n_left file.now n.old }
    ensures q_after { q.new ≡ q_left file.now q.old }
    ensures t_after { t.new ≡ t_left file.now t.old }
{
    match runfile::read(file) {
        Ok(found) => {
            *x = found.x;
            *n = found.n;
            *q = found.q;
            *t = found.t;
            told(Ok(0))
        }
        Err(reason) => told(Err(reason)),
    }
}

// What was put into a word comes out of it again.
#[tactic(auto, using(crate::proofs::Words::words_come_apart))]
pub fn words_come_apart()
    ensures { WordsComeApart }
{}

// All that these functions answer comes out of its word again, and keeps the bounds that the header states.
#[tactic(auto, using(crate::proofs::Bounds::answers_come_apart))]
pub fn answers_come_apart()
    ensures { AnswersComeApart }
{}
