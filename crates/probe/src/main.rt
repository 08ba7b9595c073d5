// Benches and turns in numbers on standard input, what came of each turn on standard output, docs/PROBE.md.
// A case's text is at most 6,975 bytes: `unsound` 8, an answer 28, 534 numbers 5,874, a picture 1,065.
#![tactic(auto)]

use probing::{Probe, Reading};
use std::io::Read;

fn complain(rt: &impl Eprint, line: &str) {
    let _ = rt.eprintln(line);
}

// Writes the text at the front of the buffer; a text that the buffer had no room for is not cut down.
fn written(rt: &(impl Print + Eprint), out: &[u8], len: usize) -> bool {
    let done = out
        .get(..len)
        .is_some_and(|text| rt.write_all(text).is_ok());
    if !done {
        complain(rt, "probe: writing failed");
    }
    done
}

// The numbers of the case, the text that is written for it, and how far the input is read.
#[derive(Drop)]
struct Case {
    row: [u32; 538],
    out: [u8; 8192],
    probe: Probe,
}

impl Case {
    // A byte more, and whether there is more to do.
    fn byte(&mut self, rt: &(impl Print + Eprint), b: u8) -> bool {
        let f = probing::fed(&mut self.row, &mut self.out, self.probe, b);
        self.probe = f.probe;
        written(rt, &self.out, f.len) && probing::goes_on(f.probe.reading)
    }

    // The bytes of a piece of the input, as long as there is more to do.
    fn piece(&mut self, rt: &(impl Print + Eprint), bytes: &[u8]) -> bool {
        for b in bytes {
            if !self.byte(rt, *b) {
                return false;
            }
        }
        true
    }

    // The end of the input.
    fn end(&mut self, rt: &(impl Print + Eprint)) {
        let len = probing::closed(&mut self.row, &mut self.out, self.probe);
        written(rt, &self.out, len);
    }

    // Reads once, and feeds what came.
    fn some(&mut self, rt: &(impl Print + Eprint), from: &mut impl Read, buf: &mut [u8]) -> bool {
        match from.read(buf) {
            Ok(0) => self.end(rt),
            Ok(n) => return self.piece(rt, &buf[..n]),
            Err(_) => complain(rt, "probe: reading failed"),
        }
        false
    }

    // A proved loop has to end, and nothing says that the input does. So the loop has a number of turns that no run uses up.
    fn all(&mut self, rt: &(impl Print + Eprint), from: &mut impl Read, buf: &mut [u8]) {
        for _ in 0..u64::MAX {
            if !self.some(rt, from, buf) {
                return;
            }
        }
    }
}

fn main(rt: HostRuntime) {
    let mut buf = [0u8; 65536];
    let mut case = Case {
        row: [0; 538],
        out: [0; 8192],
        probe: Probe {
            k: 1,
            reading: Reading::NONE,
        },
    };
    case.all(&rt, &mut rt.stdin(), &mut buf);
}
