// The register card: words of two 32-bit halves, P, and the two operations that the card has besides read and write.
// Every function takes a register's value and hands the new value back; nothing is assumed of the values.
#![tactic(auto)]

ghost use Rattle.std.specs.Prelude.{◌≡◌, cond};
ghost use Rattle.card.specs.Register.{at_least, max_write, half_max, max_claim, half_claim};
ghost use Rattle.card.specs.Word.{revision_a, word_of, claim_word};

// V, A[i] and R[i]: a first and a second half.
#[derive(Clone, Copy, Default, PartialEq, Eq)]
pub struct Halves {
    pub first: u32,
    pub second: u32,
}

// P: seq is its first half; pid and c share its second.
#[derive(Clone, Copy, Default, PartialEq, Eq)]
pub struct Claim {
    pub seq: u32,
    pub pid: u32,
    pub c: u32,
}

// What max-write of f leaves of a register with that first half: `new` where f is at least that half. Equal counts.
fn max_written<R: Copy>(first: u32, f: u32, new: R, old: R) -> R
    ensures { result ≡ cond (at_least f first) new old }
{
    if first <= f { new } else { old }
}

impl Halves {
    // Its parameters and those of `Claim`'s are the halves, as document 01 writes them, so the two have a name each over `max_written`.
    pub fn max_write(self, f: u32, g: u32) -> Halves
        ensures { result ≡ max_write self f g }
    {
        let new = Halves {
            first: f,
            second: g,
        };
        max_written(self.first, f, new, self)
    }

    pub fn half_max(self, f: u32) -> Halves
        ensures { result ≡ half_max self f }
    {
        Halves {
            first: self.first.max(f),
            ..self
        }
    }

    // The 64-bit word of the picture.
    pub fn word(self) -> u64
        ensures { result ≡ word_of self }
    {
        u64::from(self.first) * 4294967296 + u64::from(self.second)
    }
}

impl Claim {
    pub fn max_write(self, f: u32, pid: u32, c: u32) -> Claim
        ensures { result ≡ max_claim self f pid c }
    {
        max_written(self.seq, f, Claim { seq: f, pid, c }, self)
    }

    // As of two halves; one function for both would be longer than the two, since only the first half's name differs.
    pub fn half_max(self, f: u32) -> Claim
        ensures { result ≡ half_claim self f }
    {
        Claim {
            seq: self.seq.max(f),
            ..self
        }
    }

    // The 64-bit word of the picture, on a revision A card.
    pub fn word(self) -> u64
        ensures { result ≡ claim_word revision_a self }
    {
        let half = Halves {
            first: self.seq,
            second: self.pid % 65536 * 65536 + self.c % 65536,
        };
        half.word()
    }
}
