// A run file on standard input as text on standard output. A refused file gives `refused N K` on standard error.
// The buffer is longer than any good file, so one that is too long is refused 1 and not cut down. Reading or writing that fails is told on standard error.
#![tactic(auto)]

use runtext::Outcome;

fn printed(out: &impl Print, err: &impl Print, file: &[u8], text: &mut [u8]) {
    let lost = b"read_run: writing failed\n";
    match runtext::output(file, text) {
        Outcome::Text(len) => {
            prove!(len <= text.len());
            standard::write_front(out, err, text, len, lost);
        }
        Outcome::Refusal(len) => {
            prove!(len <= text.len());
            standard::write_front(err, err, text, len, lost);
        }
    }
}

fn main(rt: HostRuntime) {
    let mut file = [0u8; 65536];
    let mut text = [0u8; 153635];
    let Ok(len) = standard::read_input(&mut rt.stdin(), &mut file) else {
        let _ = eprintln!(rt; "read_run: reading failed");
        return;
    };
    printed(&rt.stdout(), &rt.stderr(), &file[..len], &mut text);
}
