// The plain run against a second simulator: stored models (model M, cases 2 and 3, examples of the source documents), whose sheets
// are written, and generated ones; then lists of calls against a second scheduler, on generated models. Counts follow each; every
// difference is a line of its own.
#![tactic(auto)]

mod compare;
mod library;
mod orders;
mod print;

use crate::print::Spot;
use second::number::at;
use second::{draw, layout, number, simulator};
use std::io::{Read, Result};

// The first seed, and how many models.
const SEED: u64 = 24000;

const MODELS: u64 = 2400;

// Places of the counts. Records ended, overrun, ready and waiting stand from 6 on.
const OF_MODELS: u64 = 0;

const REFUSALS: u64 = 1;

const RUNS: u64 = 2;

const SEGMENTS: u64 = 3;

const DONE: u64 = 4;

const RECORDS: u64 = 6;

pub const DIFFERENCES: u64 = 23;

pub fn add(totals: &mut [u64; 24], i: u64, x: u64) {
    let k = (i % 24) as usize;
    totals[k] = totals[k].wrapping_add(x);
}

fn count_records(totals: &mut [u64; 24], desk: &[u64; 640]) {
    for k in 0..at(desk, simulator::THREADS, 0) {
        let x = at(desk, simulator::RECORDS, k);
        add(totals, RECORDS + simulator::kind_of(x) % 4, 1);
    }
}

fn count(totals: &mut [u64; 24], desk: &[u64; 640]) {
    add(totals, RUNS, 1);
    add(totals, SEGMENTS, at(desk, simulator::RAN, 0));
    add(totals, DONE + at(desk, simulator::SPENT, 0) % 2, 1);
    count_records(totals, desk);
}

// One run of both.
fn hold<R: Print>(
    rt: &R,
    totals: &mut [u64; 24],
    seed: u64,
    bytes: &[u8; 16384],
    size: usize,
    budget: u64,
) -> Result<()> {
    let file = number::first(bytes, size);
    let mut desk = [0u64; 640];
    simulator::simulate(file, budget, &mut desk);
    count(totals, &desk);
    let mut held = [0u64; 640];
    library::run(library::model_in(file), budget, &mut held);
    let spot = Spot {
        seed,
        list: simulator::field(file, 4, 0, 4),
        call: budget,
    };
    let words = layout::words_of(&desk);
    compare::hold(rt, totals, spot, &held, &words, layout::ALL)?;
    Ok(())
}

// Budgets inside and at the end of a run of n segments.
fn budget(i: u64, seed: u64, n: u64, most: u64) -> u64 {
    match i {
        1 => n.saturating_sub(1),
        2 => n,
        3 => draw::pick(seed, i, n),
        4 => n.wrapping_add(1),
        5 => 1,
        6 => 0,
        7 | 9 | 11 | 13 | 15 => draw::pick(seed, i, most),
        _ => most,
    }
}

// The model's own horizon, and those around a thread's time.
fn horizon(i: u64, own: u64, time: u64) -> u64 {
    let h = match i / 2 {
        0 | 1 | 2 | 3 => own,
        4 => time.saturating_sub(1),
        5 => time,
        6 => time.wrapping_add(1),
        _ => 1,
    };
    h.max(1).min(1000000000)
}

// A model of which a run takes n segments and a thread ends at a time, at its horizons and budgets.
fn hold_each<R: Print>(
    rt: &R,
    totals: &mut [u64; 24],
    seed: u64,
    file: &mut [u8; 16384],
    size: usize,
    n: u64,
    time: u64,
    most: u64,
) -> Result<()> {
    let own = simulator::field(file, 4, 0, 4);
    for i in 0..16 {
        draw::put(file, 4, 4, horizon(i, own, time));
        hold(rt, totals, seed, file, size, budget(i, seed, n, most))?;
    }
    Ok(())
}

fn hold_all<R: Print>(
    rt: &R,
    totals: &mut [u64; 24],
    seed: u64,
    file: &mut [u8; 16384],
    size: usize,
    most: u64,
) -> Result<()> {
    let mut desk = [0u64; 640];
    simulator::simulate(file, most, &mut desk);
    let k = draw::pick(seed, 8, at(&desk, simulator::THREADS, 0));
    let time = at(&desk, simulator::RECORDS, k) / 268435456;
    let n = at(&desk, simulator::RAN, 0);
    hold_each(rt, totals, seed, file, size, n, time, most)?;
    add(totals, OF_MODELS, 1);
    Ok(())
}

// A model against the file rules, by its counts: 11, and nothing run.
fn refuse<R: Print>(
    rt: &R,
    totals: &mut [u64; 24],
    seed: u64,
    file: &[u8; 16384],
    size: usize,
) -> Result<()> {
    let mut x = library::model_in(number::first(file, size));
    match seed % 5 {
        0 => x.t = 0,
        1 => x.t = 33,
        2 => x.n = 0,
        3 => x.v = 65,
        _ => x.e = 33,
    }
    let mut held = [0u64; 640];
    library::run(x, 300, &mut held);
    let mut refused = [0u64; 640];
    refused[layout::ANSWER] = 11;
    let spot = Spot {
        seed,
        list: 0,
        call: 300,
    };
    if compare::hold(rt, totals, spot, &held, &refused, layout::ALL)? {
        add(totals, REFUSALS, 1);
    }
    Ok(())
}

// A file that is not written again byte by byte is a difference.
fn hold_written(totals: &mut [u64; 24], bytes: &[u8; 16384], size: usize) {
    let file = number::first(bytes, size);
    if !library::is_written_again(file) {
        add(totals, DIFFERENCES, 1);
    }
}

// A generated model: written again, its runs, and lists of calls.
fn hold_drawn<R: Print>(
    rt: &R,
    runs: &mut [u64; 24],
    lists: &mut [u64; 24],
    seed: u64,
) -> Result<()> {
    let mut file = [0u8; 16384];
    let size = draw::model_of(seed, &mut file) as usize;
    hold_written(runs, &file, size);
    orders::hold_lists(rt, lists, seed, &file, size)?;
    let most = if draw::is_long(seed) { 3300 } else { 300 };
    hold_all(rt, runs, seed, &mut file, size, most)?;
    refuse(rt, runs, seed, &file, size)
}

fn all_drawn<R: Print>(rt: &R) -> Result<()> {
    let mut runs = [0u64; 24];
    let mut lists = [0u64; 24];
    for seed in SEED..SEED + MODELS {
        hold_drawn(rt, &mut runs, &mut lists, seed)?;
    }
    print::run_counts(rt, &runs)?;
    print::list_counts(rt, &lists)
}

// The sheet of a stored model.
fn write_sheet<R: Print>(rt: &R, file: &[u8]) -> Result<()> {
    let m = library::model_in(file);
    let mut out = [0u8; 8192];
    let size = sheet_print::sheet(m.v, m.t, plain_core::plain_run(m, 1000000), &mut out);
    print::text(rt, number::first(&out, size))
}

// A name and a model; whether there was one.
fn hold_next<R: Print, F: Read>(rt: &R, stored: &mut F, totals: &mut [u64; 24]) -> Result<bool> {
    let mut file = [0u8; 16384];
    let n = parts::next_part(stored, &mut file)?;
    if n == 0 {
        return Ok(false);
    }
    print::text(rt, number::first(&file, n))?;
    let size = parts::next_part(stored, &mut file)?;
    write_sheet(rt, number::first(&file, size))?;
    hold_all(rt, totals, 0, &mut file, size, 1000000)?;
    Ok(true)
}

fn all_stored<R: Print, F: Read>(rt: &R, stored: &mut F) -> Result<()> {
    let mut totals = [0u64; 24];
    for _ in 0..1000 {
        if !hold_next(rt, stored, &mut totals)? {
            break;
        }
    }
    print::run_counts(rt, &totals)
}

fn main(rt: HostRuntime) -> Result<()> {
    all_stored(&rt, &mut rt.stdin())?;
    all_drawn(&rt)?;
    Ok(())
}
