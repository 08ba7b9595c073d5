// A text on standard input as a run file on standard output. A text that cannot be read gives one line on standard error:
// the line of the text, and what was expected there. A text that fills the buffer may have been cut, and is not read. Reading or writing that fails is told on standard error.
#![tactic(auto)]

fn turned(out: &impl Print, err: &impl Print, text: &[u8]) {
    let lost = b"write_run: writing failed\n";
    let mut file = [0u8; 53264];
    match drafting::parse(text, &mut file) {
        Ok(len) => {
            prove!(len <= file.len());
            standard::write_front(out, err, &file, len, lost);
        }
        Err(complaint) => {
            let mut line = [0u8; 128];
            let len = messages::complain(complaint.line, complaint.expected.number(), &mut line);
            prove!(len <= line.len());
            standard::write_front(err, err, &line, len, lost);
        }
    }
}

fn main(rt: HostRuntime) {
    let mut text = [0u8; 262144];
    let Ok(len) = standard::read_input(&mut rt.stdin(), &mut text) else {
        let _ = eprintln!(rt; "write_run: reading failed");
        return;
    };
    if len == 262144 {
        let _ = eprintln!(rt; "expected a text of under 262144 bytes");
        return;
    }
    turned(&rt.stdout(), &rt.stderr(), &text[..len]);
}
