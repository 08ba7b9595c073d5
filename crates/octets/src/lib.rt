// Numbers in little-endian bytes. A number's width is that of the part it is written to or read from.
#![tactic(auto)]

ghost use Rattle.std.specs.Prelude.{◌≡◌, length, take};
ghost use Rattle.octets.specs.Bytes.{bytes, spelled};
ghost use Rattle.octets.specs.Promise.{Inverse};

// Fills the part with the bytes of x, lowest first. The part has any width; `to_le_bytes` has one, eight.
pub fn store(out: &mut [u8], x: u64)
    ensures { out.new ≡ bytes (length out.old) x }
{
    let mut y = x;
    for b in out.iter_mut() {
        *b = (y % 256) as u8;
        y /= 256;
    }
}

// A byte as a wider number.
pub fn wide(b: u8) -> u32
    ensures { result ≡ b }
{
    u32::from(b)
}

// The number that the part spells, lowest byte first. A part of over 8 bytes is read as far as its eighth.
pub fn number(part: &[u8]) -> u64
    ensures { result ≡ spelled (take 8 part.now) }
{
    let mut x = 0;
    for b in part[..part.len().min(8)].iter().rev() {
        x = u64::from(wide(*b)) + 256 * x;
    }
    x
}

// Spelling and writing are each other's inverse, at every width.
#[tactic(auto, using(crate::proofs::Spelled::inverse))]
pub fn bytes_spell_numbers()
    ensures { Inverse }
{}
