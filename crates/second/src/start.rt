// Where a list of calls starts, by seed and list: lists 0 to 2 fresh, the others at a drawn state.
ghost use Rattle.std.specs.Prelude.{◌≡◌};
ghost use Rattle.second.specs.Desk.{word_at};

use crate::graph::{Graph, Mapped};
use crate::number::{at, put};
use crate::simulator::{State, record_at, state_of};
use crate::view::View;
use crate::{draw, graph, held, log, places, simulator};

fn drawn_time(seed: u64) -> u64 {
    match draw::pick(seed, 61, 9) {
        0 | 1 | 2 => 0,
        3 | 4 => 1,
        5 => 2,
        6 => 3,
        7 => 5,
        _ => 2000000000,
    }
}

fn drawn_delta(seed: u64) -> u64 {
    match draw::pick(seed, 62, 10) {
        0 | 1 | 2 | 3 => 0,
        4 | 5 => 1,
        6 => 2,
        7 => 1022,
        _ => 1023,
    }
}

// Ready, waiting and running more often than not; none waits without events.
fn drawn_state(seed: u64, e: u64) -> State {
    match draw::pick(seed, 63, 14) {
        0 => State::Ended,
        1 => State::Overrun,
        2 | 3 | 4 | 5 => State::Running,
        6 | 7 | 8 if e != 0 => State::Waiting,
        _ => State::Ready,
    }
}

// Any segment; the thread's first where a way from it names a port that the thread leaves unused.
fn drawn_segment(graph: &Graph, seed: u64, n: u64, ports: u64, first: u64) -> u64 {
    let segment = draw::pick(seed, 65, n);
    if graph.lacks(Mapped { segment, ports }) {
        first
    } else {
        segment
    }
}

// One that runs is not later than the last key that is run, but for a few.
fn state_at(seed: u64, e: u64, key: u64, end: u64) -> State {
    let state = drawn_state(seed, e);
    if state == State::Running && end < key && draw::pick(seed, 69, 25) != 0 {
        State::Ready
    } else {
        state
    }
}

fn drawn_record(seed: u64, s: u64, e: u64, end: u64) -> u64 {
    let key = drawn_time(seed) % 4294967296 * 1024 + drawn_delta(seed) % 1024;
    let state = state_at(seed, e, key, end);
    let event = if state == State::Waiting {
        draw::pick(seed, 64, e)
    } else {
        0
    };
    simulator::record(state, s, event, key)
}

// Records; how many places are counted for those that are running.
fn draw_records(file: &[u8], desk: &mut [u64; 640], seed: u64, e: u64) -> u64 {
    let end = at(desk, simulator::END, 0);
    let n = at(desk, simulator::SEGMENTS, 0);
    let mut words = [0u64; 24576];
    graph::fill_uses(file, desk, &mut words, n);
    let graph = Graph::new(&words);
    for k in 0..at(desk, simulator::THREADS, 0) {
        let x = draw::mixed(seed, k.wrapping_add(300));
        let first = simulator::first_of(file, desk, k);
        let s = drawn_segment(&graph, x, n, at(desk, simulator::PORTS, k), first);
        put(desk, simulator::RECORDS, k, drawn_record(x, s, e, end));
    }
    places::all(&View { graph, desk })
}

fn logged_key(seed: u64) -> u64 {
    let time = draw::pick(seed, 66, 40);
    let units = if time == 39 { 1000000000 } else { time };
    units % 4294967296 * 1024 + drawn_delta(seed) % 1024
}

// So many notifications, or a few less.
fn draw_log(desk: &mut [u64; 640], seed: u64, e: u64, count: u64) {
    for i in 0..600 {
        if count <= at(desk, log::COUNT, 0) {
            return;
        }
        let x = draw::mixed(seed, i + 400);
        log::add(desk, draw::pick(x, 67, e), logged_key(x));
    }
}

// Around 96 places, around 128, or some.
fn logged(seed: u64, list: u64) -> u64 {
    match list {
        3 => draw::pick(seed, 68, 10).wrapping_add(88),
        4 => draw::pick(seed, 68, 4).wrapping_add(125),
        _ => draw::pick(seed, 68, 24),
    }
}

// A drawn state: variables 0, any records, and a log.
fn draw_state(file: &[u8], desk: &mut [u64; 640], seed: u64, list: u64, e: u64) {
    let x = draw::mixed(seed, list);
    let counted = draw_records(file, desk, x, e);
    let count = if e == 0 { 0 } else { logged(x, list) };
    if counted < count {
        draw_log(desk, x, e, count - counted);
    }
}

// Values of thread k, drawn.
fn draw_values(row: &mut [u64], seed: u64, k: u64) {
    for (v, x) in row.iter_mut().enumerate() {
        let place = (k % 32 * 64).wrapping_add(v as u64);
        *x = draw::drawn_number(draw::mixed(seed, place));
    }
}

// What is held at the start of a list: drawn values for threads that are running, junk for all others.
pub fn hold(desk: &[u64; 640], seed: u64, junk: u64, held: &mut [u64; 2048]) {
    held.fill(junk);
    for k in 0..32 {
        if state_of(record_at(desk, k)) == State::Running {
            draw_values(held::row_mut(held, k), seed, k);
        }
    }
}

// What a list starts at, on an empty desk; how many threads there are.
pub fn set_up(file: &[u8], seed: u64, list: u64, desk: &mut [u64; 640]) -> u64
    ensures { result ≡ word_at desk.new 99 0 }
{
    log::clear(desk);
    simulator::survey(file, desk);
    if list < 3 {
        simulator::start(file, desk);
    } else {
        draw_state(file, desk, seed, list, simulator::byte(file, 9, 0));
    }
    at(desk, simulator::THREADS, 0)
}
