// Standard input and output for the programs, with nothing lost in silence: a read that fails is not the end of the input, and a write that fails is told.
// What is read and written no contract can say; how many bytes of the buffer were read it does.
#![tactic(auto)]

ghost use Rattle.std.specs.Prelude.{◌≡◌, ◌≤◌, length, take, IfErr};
ghost use Rattle.std.specs.Io.{ReadsAtMost};

use std::io::Read;

// A read failed; so many bytes had come before it.
#[derive(Clone, Copy)]
pub struct Failed {
    pub len: usize,
}

// Reads until the buffer is full, the input ends or a read fails.
fn read_full(from: &mut impl Read, buf: &mut [u8]) -> usize
    ensures { result ≤ length buf.new }
{
    let mut len = 0;
    // A turn adds what came, so there is no range to go through.
    while len < buf.len() {
        match from.read(&mut buf[len..]) {
            Ok(0) | Err(_) => return len,
            Ok(n) => len += n,
        }
    }
    len
}

// How many bytes stand at the front of the buffer. One more read tells the end of the input from a read that failed.
pub fn read_input(from: &mut impl Read, buf: &mut [u8]) -> Result<usize, Failed>
    ensures ok { ReadsAtMost result buf.new }
    ensures err { IfErr result (λ f. (f.len ≤ length buf.new) × (f.len ≡ length (take f.len buf.new))) }
{
    let len = read_full(from, buf);
    match from.read(&mut [0u8; 1]) {
        Ok(more) if len == buf.len() || more == 0 => Ok(len),
        _ => Err(Failed { len }),
    }
}

// Writes the front of a buffer. Where that fails, or the buffer is shorter, the line lost goes to standard error.
pub fn write_front(to: &impl Print, err: &impl Print, buf: &[u8], len: usize, lost: &[u8]) {
    if !buf
        .get(..len)
        .is_some_and(|bytes| to.write_all(bytes).is_ok())
    {
        let _ = err.write_all(lost);
    }
}
