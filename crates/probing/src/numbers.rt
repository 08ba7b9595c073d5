// A bench out of a row of numbers, docs/PROBE.md. A number past the row's end is 0.
ghost use Rattle.std.specs.Prelude.{◌≡◌, ◌≤◌, ◌+◌, get_or};
ghost use Rattle.probing.specs.Numbers.{place_of, is_place, halves_from, claim_from, call_from, each, station_from, entries_from, stations_from, bench_of, places_to};

use bench::Bench;
use card::{Claim, Halves};
use method::{Call, Place, Station};
use std::array;

// A number of the row, 0 past its end.
pub(crate) fn cell(row: &[u32], i: usize) -> u32
    ensures { result ≡ get_or row.now i 0 }
{
    row.get(i).copied().unwrap_or(0)
}

// The place of that number; at rest where it is no place's. Test and place stay two functions, since `is_place` and `place_of` stand under
// `NumbersSayBenches` and `case_text`, which know a bench of any row.
#[tactic(auto, using(crate::proofs::Places::named))]
fn place_of(x: u32) -> Place
    ensures { result ≡ place_of x }
{
    Place::try_from(x).unwrap_or(Place::Rest)
}

#[tactic(auto, using(crate::proofs::Places::names_one))]
fn is_place(x: u32) -> bool
    ensures { result ≡ is_place x }
{
    Place::try_from(x).is_ok()
}

// K numbers of the row, from number at on.
fn cells<const K: usize>(row: &[u32], at: usize) -> [u32; K]
    requires { at + K ≤ 1003 }
    ensures { result ≡ each (λ i. get_or row.now (at + i) 0) K }
{
    array::from_fn(|i| cell(row, at + i))
}

#[tactic(auto, unfolding(crate::specs::Numbers::each))]
fn halves_from(row: &[u32], at: usize) -> Halves
    requires { at ≤ 1000 }
    ensures { result ≡ halves_from row.now at }
{
    let [first, second] = cells::<2>(row, at);
    Halves { first, second }
}

#[tactic(auto, unfolding(crate::specs::Numbers::each))]
fn claim_from(row: &[u32], at: usize) -> Claim
    requires { at ≤ 1000 }
    ensures { result ≡ claim_from row.now at }
{
    let [seq, pid, c] = cells::<3>(row, at);
    Claim { seq, pid, c }
}

#[tactic(auto, unfolding(crate::specs::Numbers::each))]
pub(crate) fn call_from(row: &[u32], at: usize) -> Call
    requires { at ≤ 1000 }
    ensures { result ≡ call_from row.now at }
{
    let [kind, a, b] = cells::<3>(row, at);
    Call { kind, a, b }
}

fn station_from(row: &[u32], at: usize) -> Station
    requires { at ≤ 900 }
    ensures { result ≡ station_from row.now at }
{
    Station {
        place: place_of(cell(row, at)),
        call: call_from(row, at + 1),
        s: cell(row, at + 4),
        own: cell(row, at + 5),
        c: cell(row, at + 6),
        saw: claim_from(row, at + 7),
        entry: halves_from(row, at + 10),
    }
}

fn entries_from(row: &[u32], from: usize) -> [Halves; 33]
    requires { from ≤ 8 }
    ensures { result ≡ entries_from row.now from 33 }
{
    array::from_fn(|i| halves_from(row, from + 4 * i))
}

fn stations_from(row: &[u32]) -> [Station; 33]
    ensures { result ≡ stations_from row.now 33 }
{
    array::from_fn(|i| station_from(row, 138 + 12 * i))
}

#[tactic(auto, unfolding(crate::specs::Numbers::bench_of))]
pub(crate) fn bench_of(row: &[u32]) -> Bench
    ensures { result ≡ bench_of row.now }
{
    Bench {
        n: cell(row, 0),
        v: halves_from(row, 1),
        p: claim_from(row, 3),
        a: entries_from(row, 6),
        r: entries_from(row, 8),
        stations: stations_from(row),
    }
}

// Whether every station stands at a place.
pub(crate) fn places_good(row: &[u32]) -> bool
    ensures { result ≡ places_to row.now 33 }
{
    (0..33).all(|i| is_place(cell(row, 138 + 12 * i)))
}
