// Both sides of the bench's limits, one line a case: what is just let through, and what is just refused.
// It builds benches by hand, sound ones and others, and prints what a turn answers and what it changed.
#![tactic(auto)]

ghost use Rattle.std.specs.Prelude.{◌<◌};

use bench::Bench;
use card::{Claim, Halves};
use method::{Answer, Call, Place, Station};
use std::io;

// The numbers at a line's end. A line is written in pieces, each as soon as it is known, so that as much of it is out as could be written.
fn numbers(rt: &impl Print, xs: &[u32]) -> io::Result<()> {
    for x in xs {
        print!(rt; " {x}")?;
    }
    println!(rt; "")
}

fn tell(rt: &impl Print, label: &str, answer: Answer) -> io::Result<()> {
    print!(rt; "{label}")?;
    match answer {
        Answer::Idle => print!(rt; ": idle")?,
        Answer::Going => print!(rt; ": going")?,
        Answer::Ended { result, own } => {
            print!(rt; ": ended")?;
            return numbers(rt, &[result, own]);
        }
        Answer::Refused(n) => {
            print!(rt; ": refused")?;
            return numbers(rt, &[n]);
        }
    }
    println!(rt; "")
}

fn made(rt: &impl Print, label: &str, n: u32) -> io::Result<()> {
    let m = Bench::fresh(7, n);
    let w = m.bench;
    print!(rt; "{label}: refused, n, V.val, sound")?;
    numbers(rt, &[m.refused, w.n, w.v.second, u32::from(w.sound())])
}

// A fresh bench of two stations that holds 7.
fn two() -> Bench {
    Bench::fresh(7, 2).bench
}

// A record at rest with the count c: station 1, or record 0, which belongs to no station.
fn with_count(entry: usize, c: u32) -> Bench
    requires { entry < 33 }
{
    let mut w = two();
    w.stations[entry].c = c;
    w
}

fn with_version(seq: u32) -> Bench {
    let mut w = two();
    w.v.first = seq;
    w
}

// Station 1 at place 18 of a set 7 8, with the saved pid.
fn at_18(pid: u32) -> Bench {
    let mut w = two();
    w.stations[1] = Station {
        place: Place::At18,
        call: offer(1, 7, 8),
        s: 0,
        own: 7,
        c: 1,
        saw: Claim { seq: 2, pid, c: 0 },
        entry: Halves {
            first: 0,
            second: 8,
        },
    };
    w
}

fn offer(kind: u32, a: u32, b: u32) -> Call {
    Call { kind, a, b }
}

fn turn(rt: &impl Print, label: &str, w: Bench, station: u32, offer: Call) -> io::Result<()> {
    tell(rt, label, w.turn(station, offer).answer)
}

fn fresh_benches(rt: &impl Print) -> io::Result<()> {
    made(rt, "fresh, n 0", 0)?;
    made(rt, "fresh, n 1", 1)?;
    made(rt, "fresh, n 32", 32)?;
    made(rt, "fresh, n 33", 33)
}

fn counts(rt: &impl Print) -> io::Result<()> {
    let cases = [
        ("c 65,534, set 7 8", 65534, offer(1, 7, 8)),
        ("c 65,535, set 7 8", 65535, offer(1, 7, 8)),
        (
            "c 65,535, set 8 9, which would end at 5",
            65535,
            offer(1, 8, 9),
        ),
        ("c 65,535, swap 7 8", 65535, offer(2, 7, 8)),
        ("c 65,535, read", 65535, offer(0, 0, 0)),
        ("c 65,536, read", 65536, offer(0, 0, 0)),
    ];
    for (label, c, offered) in cases {
        turn(rt, label, with_count(1, c), 1, offered)?;
    }
    Ok(())
}

fn versions(rt: &impl Print) -> io::Result<()> {
    let cases = [
        ("V.seq 4,294,967,292, set 7 8", 4294967292, offer(1, 7, 8)),
        ("V.seq 4,294,967,294, set 7 8", 4294967294, offer(1, 7, 8)),
        ("V.seq 4,294,967,294, read", 4294967294, offer(0, 0, 0)),
        ("V.seq 4,294,967,293, read", 4294967293, offer(0, 0, 0)),
    ];
    for (label, seq, offered) in cases {
        turn(rt, label, with_version(seq), 1, offered)?;
    }
    Ok(())
}

fn stations(rt: &impl Print) -> io::Result<()> {
    let cases = [
        ("station 0 of 2, read", 0, offer(0, 0, 0)),
        ("station 2 of 2, read", 2, offer(0, 0, 0)),
        ("station 3 of 2, read", 3, offer(0, 0, 0)),
        ("station 3 of 2, kind 4", 3, offer(4, 0, 0)),
    ];
    for (label, station, offered) in cases {
        turn(rt, label, two(), station, offered)?;
    }
    turn(
        rt,
        "record 0 with c 1, read",
        with_count(0, 1),
        1,
        offer(0, 0, 0),
    )
}

// Every kind on offer to a station at rest, and kinds that come with no values.
fn kinds(rt: &impl Print) -> io::Result<()> {
    let cases = [
        ("kind 0", offer(0, 0, 0)),
        ("kind 1, 7 8", offer(1, 7, 8)),
        ("kind 1, 7 7", offer(1, 7, 7)),
        ("kind 1, 8 7", offer(1, 8, 7)),
        ("kind 2, 7 8", offer(2, 7, 8)),
        ("kind 2, 8 7", offer(2, 8, 7)),
        ("kind 3", offer(3, 0, 0)),
        ("kind 4", offer(4, 0, 0)),
        ("kind 0, a 1", offer(0, 1, 0)),
        ("kind 0, b 1", offer(0, 0, 1)),
        ("kind 3, a 1", offer(3, 1, 0)),
        ("kind 3, b 1", offer(3, 0, 1)),
    ];
    for (label, offered) in cases {
        turn(rt, label, two(), 1, offered)?;
    }
    Ok(())
}

fn in_a_call(rt: &impl Print) -> io::Result<()> {
    let cases = [
        ("at 18, none", 1, offer(3, 0, 0)),
        ("at 18, set 1 2", 1, offer(1, 1, 2)),
        ("at 18, none with a 1", 1, offer(3, 1, 0)),
        ("at 18, kind 4", 1, offer(4, 0, 0)),
        ("at 18 with saved pid 3 of 2", 3, offer(3, 0, 0)),
    ];
    for (label, pid, offered) in cases {
        turn(rt, label, at_18(pid), 1, offered)?;
    }
    Ok(())
}

fn of_pid_0(rt: &impl Print) -> io::Result<()> {
    let x = at_18(0).turn(1, offer(3, 0, 0));
    tell(rt, "at 18 with saved pid 0", x.answer)?;
    let r = x.bench.r[0];
    print!(rt; "R[0] after it:")?;
    numbers(rt, &[r.first, r.second])
}

fn row(rt: &impl Print, bytes: &[u8]) -> io::Result<()> {
    for b in bytes {
        print!(rt; " {b:02x}")?;
    }
    println!(rt; "")
}

// A picture of a bench of one station into all but the first and last guard bytes of a buffer.
fn pictured(rt: &impl Print, label: &str, w: Bench, out: &mut [u8]) -> io::Result<()> {
    let len = out.len();
    if len < 16 {
        return Ok(());
    }
    let (refused, bytes) = match picture::picture(w, &mut out[8..len - 8]) {
        Ok(bytes) => (0, bytes),
        Err(reason) => (reason.number(), 0),
    };
    print!(rt; "{label}: refused, bytes")?;
    print!(rt; " {refused}")?;
    print!(rt; " {bytes}")?;
    println!(rt; "")?;
    row(rt, out)
}

fn pictures(rt: &impl Print) -> io::Result<()> {
    let fresh = Bench::fresh(258, 1).bench;
    let begun = fresh.turn(1, offer(1, 258, 3)).bench;
    let grown = begun.turn(1, offer(3, 0, 0)).bench;
    let mut right = [238u8; 48];
    pictured(rt, "31 bytes lent", grown, &mut [238u8; 47])?;
    pictured(rt, "32 bytes lent", grown, &mut right)?;
    pictured(rt, "33 bytes lent", grown, &mut [238u8; 49])?;
    pictured(
        rt,
        "not sound, 32 bytes lent",
        with_count(1, 65536),
        &mut right,
    )
}

fn main(rt: HostRuntime) -> io::Result<()> {
    fresh_benches(&rt)?;
    counts(&rt)?;
    versions(&rt)?;
    stations(&rt)?;
    kinds(&rt)?;
    in_a_call(&rt)?;
    of_pid_0(&rt)?;
    pictures(&rt)
}
