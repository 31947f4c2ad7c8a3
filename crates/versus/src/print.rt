// What the program writes: sheets of document 01, counts, and differences.
use std::io::Result;

pub fn text<R: Print>(rt: &R, s: &[u8]) -> Result<()> {
    rt.write_all(s)
}

// A space and a number.
fn spaced<R: Print>(rt: &R, x: u64) -> Result<()> {
    print!(rt; " {x}")
}

// Three numbers that say where: a seed, its list and the call, or a horizon and a budget.
#[derive(Clone, Copy)]
pub struct Spot {
    pub seed: u64,
    pub list: u64,
    pub call: u64,
}

// The word that differs first, the library's and the second side's.
pub fn difference<R: Print>(rt: &R, spot: Spot, place: u64, first: u64, second: u64) -> Result<()> {
    let Spot { seed, list, call } = spot;
    println!(rt; "difference: {seed} {list} {call} {place} {first} {second}")
}

// So many counts, and the last: differences.
fn counts<R: Print>(rt: &R, totals: &[u64; 24], n: usize) -> Result<()> {
    for x in totals.iter().take(n) {
        spaced(rt, *x)?;
    }
    spaced(rt, totals[23])?;
    text(rt, b"\n")
}

pub fn run_counts<R: Print>(rt: &R, totals: &[u64; 24]) -> Result<()> {
    text(
        rt,
        b"models, refusals, runs, segments; runs done, spent; records ended, overrun, ready, waiting; differences:",
    )?;
    counts(rt, totals, 10)
}

pub fn list_counts<R: Print>(rt: &R, totals: &[u64; 24]) -> Result<()> {
    text(
        rt,
        b"models, lists, calls; requests, grants, finishes, later than the floor; refused 10, 11, 12, 13, 14, 15, 19; 14 and 15 by running threads, 15 at the floor; calls with two or more running, most running; lists ended, gone on; overrun on hearing; differences:",
    )?;
    counts(rt, totals, 22)
}
