// Text appended to a page, which is a lent buffer with a place in it: a byte, a word, a decimal number, the word for a call's kind,
// the line of a refusal. What has no place in the buffer is not written, but the page's place counts it, so a text is measured by
// writing it to a buffer of one byte. Its module number: a number read from a text, a digit at a time.
// A page, and no `Display`: the contracts say where each byte stands in a buffer that may be too short. What `write!` promises is the
// bytes of a `String` only, and the project allows no heap.
#![tactic(auto)]

ghost use Rattle.std.specs.Prelude.{◌≡◌, [], ◌∷◌, ◌≤◌};
ghost use Rattle.script.specs.Wrote.{last_place};
ghost use Rattle.script.specs.Decimal.{decimal};
ghost use Rattle.script.specs.Kind.{kind_word};
ghost use Rattle.script.specs.Output.{refused_text, OutputTo, OutputSettled, OutputWhole};
ghost use Rattle.script.specs.Promise.{WritersSettled};

mod number;

pub use number::number_more;

// A lent buffer and the place where the next byte goes.
#[derive(Drop)]
pub struct Page<'a> {
    pub out: &'a mut [u8],
    pub at: usize,
    pub ghost in_place: { at ≤ last_place },
}

impl<'a> Page<'a> {
    ghost use Rattle.script.specs.Page.{Opens, Writes};

    // A page with nothing written.
    pub fn new(out: &'a mut [u8]) -> Page<'a>
        ensures { Opens out.entry result }
    {
        Page { out, at: 0 }
    }

    // One byte, if the buffer has its place.
    pub fn put(&mut self, b: u8)
        ensures { Writes self.old self.new (b ∷ []) }
    {
        if self.at < self.out.len() {
            self.out[self.at] = b;
        }
        self.at = self.at.saturating_add(1);
    }

    // The bytes of text.
    pub fn word(&mut self, text: &[u8])
        ensures { Writes self.old self.new text.now }
    {
        for b in text {
            self.put(*b);
        }
    }

    // A number in decimal, without leading zeros. The digits are made here, and not by the kit's `itoa`: the room's own `decimal` stands
    // under every theorem of text, and `itoa` would want a lemma that the kit's is the same.
    pub fn decimal(&mut self, x: u32)
        ensures { Writes self.old self.new (decimal x) }
    {
        let mut digits = [0u8; 10];
        let mut first: usize = 9;
        let mut n = x;
        // counts down n itself, by its digits
        while 10 <= n {
            digits[first] = (48 + n % 10) as u8;
            n /= 10;
            first -= 1;
        }
        digits[first] = (48 + n) as u8;
        self.word(&digits[first..]);
    }

    // The word for a call's kind, which stays a number, as it is in a file's bytes: 0 is read, 1 set, any other swap.
    #[tactic(auto, unfolding(crate::specs::Kind::kind_word))]
    pub fn kind(&mut self, kind: u32)
        ensures { Writes self.old self.new (kind_word kind) }
    {
        match kind {
            0 => self.word(b"read"),
            1 => self.word(b"set"),
            _ => self.word(b"swap"),
        }
    }

    // The line that tells a refusal and its K. Both are numbers, and no reason of `rules`: the function is public, and its text is
    // told for any two numbers.
    pub fn refused(&mut self, number: u32, k: u32)
        ensures { Writes self.old self.new (refused_text number k) }
    {
        self.word(b"refused ");
        self.decimal(number);
        self.put(b' ');
        self.decimal(k);
        self.put(b'\n');
    }
}

// The line that tells a refusal and its K, at the front of a lent buffer as far as that goes; how many of its bytes are there.
// Both are numbers here too, as in `refused`.
pub fn told_refusal(out: &mut [u8], number: u32, k: u32) -> usize
    ensures { OutputTo (refused_text number k) out.old result out.new }
{
    let mut page = Page::new(out);
    page.refused(number, k);
    page.at.min(page.out.len())
}

// The contract of a writer allows one buffer and one next place for each input.
#[tactic(auto, using(crate::proofs::Writes::writers_are_settled))]
pub fn writers_are_settled()
    ensures { WritersSettled }
{}

// The contract of a program's output allows one length and one buffer for each output.
#[tactic(auto, using(crate::proofs::Outputs::outputs_are_settled))]
pub fn outputs_are_settled()
    ensures { OutputSettled }
{}

// Where the buffer has room for it, its front is the output.
#[tactic(auto, using(crate::proofs::Outputs::outputs_are_whole))]
pub fn outputs_are_whole()
    ensures { OutputWhole }
{}
