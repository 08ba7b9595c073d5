// A run file on standard input, its report on standard output: a line for each call that took effect, and a last line.
// A refused file gives `refused N K`, on standard output too. The buffer is longer than any good file, so one that is too long
// is refused 1 and not cut down; what is written has 40,960 bytes at most. Reading or writing that fails is told on standard error.
#![tactic(auto)]

fn main(rt: HostRuntime) {
    let mut file = [0u8; 65536];
    let mut text = [0u8; 40960];
    let Ok(len) = standard::read_input(&mut rt.stdin(), &mut file) else {
        let _ = eprintln!(rt; "report: reading failed");
        return;
    };
    let len = sheet::output(&file[..len], &mut text);
    prove!(len <= text.len());
    standard::write_front(
        &rt.stdout(),
        &rt.stderr(),
        &text,
        len,
        b"report: writing failed\n",
    );
}
