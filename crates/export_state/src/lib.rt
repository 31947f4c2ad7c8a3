// For callers in C and Rust: a state and thread records as numbers in buffers. Words past those of a state are not looked at and not touched.
#![tactic(auto)]

ghost use Rattle.std.specs.Prelude.{◌+◌, ◌<◌, ◌≤◌, ◌%◌, ◌^◌, ◌≡◌, cond, ◌&&◌, [], ◌∷◌, ltb, leb, length, get_or, take};
ghost use Rattle.std.proofs.lemmas.List.Edits.{sets};
ghost use Rattle.base.specs.Index.{tabulate};
ghost use Rattle.clock.specs.Cycle.{cycle_at};
ghost use Rattle.model.specs.Record.{no_thread};
ghost use Rattle.buffers.specs.Write.{placed_in};
ghost use Rattle.early.specs.Answer.{values_of, number_of};
ghost use Rattle.export_state.specs.Numbers.{pair_words, thread_words, in_turn, log_words, record_words, pair_at, state_from, thread_from, variables_from, place_from, site_from, held_threads, is_pair_held, is_event_held, is_record_held, is_log_held, are_records_held, are_held};

use clock::{Cycle, Delta, Time};
use early::{Answer, Notification, Site};
use model::{State, Thread, Threads, Variables};
use std::array;

// A word modulo 2 ^ 8, and modulo 2 ^ 32.
fn byte_at(words: &[u64], i: usize) -> u8
    ensures { result ≡ get_or words.now i 0 % 2 ^ 8 }
{
    (buffers::word_at(words, i) % 256) as u8
}

fn delta_at(words: &[u64], i: usize) -> u32
    ensures { result ≡ get_or words.now i 0 % 2 ^ 32 }
{
    (buffers::word_at(words, i) % 4294967296) as u32
}

// A time and a delta.
fn cycle_at(words: &[u64], time: usize, delta: usize) -> Cycle
    ensures { result ≡ cycle_at (get_or words.now time 0) (get_or words.now delta 0 % 2 ^ 32) }
{
    Cycle {
        time: Time(buffers::word_at(words, time)),
        delta: Delta(delta_at(words, delta)),
    }
}

// What the place numbered i of a log says.
fn pair_at(log: &[u64], i: usize) -> Notification
    requires { i < 128 }
    ensures { result ≡ pair_at log.now i }
{
    let p = 3 * i;
    Notification {
        event: byte_at(log, p + 1),
        cycle: cycle_at(log, p + 2, p + 3),
    }
}

// A state by its number; from 4 on, running.
fn state_from(number: u64, event: u8, c: Cycle) -> State
    ensures { result ≡ state_from number event c }
{
    match number {
        0 => State::Ended(c),
        1 => State::Overrun(c),
        2 => State::Ready(c),
        3 => State::Waiting(event, c),
        _ => State::Running(c),
    }
}

// The place numbered i of a log: those from its count on are not read.
fn place_from(log: &[u64], i: usize) -> Notification
    requires { i < 128 }
    ensures { result ≡ place_from log.now i }
{
    if (i as u64) < buffers::word_at(log, 0) {
        return pair_at(log, i);
    }
    let cycle = Cycle {
        time: Time(0),
        delta: Delta(0),
    };
    Notification { event: 0, cycle }
}

// The record of thread k.
fn thread_from(records: &[u64], k: usize) -> Thread
    requires { k < 40 }
    ensures { result ≡ thread_from records.now k }
{
    let p = 5 * k;
    let event = byte_at(records, p + 2);
    let c = cycle_at(records, p + 3, p + 4);
    Thread {
        segment: byte_at(records, p),
        state: state_from(buffers::word_at(records, p + 1), event, c),
    }
}

fn variables_from(values: &[u32]) -> Variables
    ensures { result ≡ variables_from values.now }
{
    Variables {
        at: array::from_fn(|i| buffers::value_at(values, i)),
    }
}

fn places_from(log: &[u64]) -> [Notification; 128]
    ensures { result ≡ tabulate 128 0 (place_from log.now) }
{
    array::from_fn(|i| place_from(log, i))
}

// A frame of its own, here and for the records: folded into a call, its copies of the log would lie below all that the call goes on to.
#[inline(never)]
pub fn site_from(variables: &[u32], log: &[u64]) -> Site
    ensures { result ≡ site_from variables.now log.now }
{
    Site {
        variables: variables_from(variables),
        log: places_from(log),
        count: byte_at(log, 0),
    }
}

// The record of thread k, 0 where it is not below t.
fn held_thread(records: &[u64], t: u8, k: usize) -> Thread
    requires { k < 40 }
    ensures { result ≡ cond (ltb k t) (thread_from records.now k) no_thread }
{
    if k < usize::from(t) {
        return thread_from(records, k);
    }
    let c = Cycle {
        time: Time(0),
        delta: Delta(0),
    };
    Thread {
        segment: 0,
        state: State::Ended(c),
    }
}

// The records of t threads, at the front of 40.
#[inline(never)]
pub fn threads_from(records: &[u64], t: u8) -> [Thread; 40]
    ensures { result ≡ held_threads records.now t }
{
    array::from_fn(|k| held_thread(records, t, k))
}

// The first 32 of 40 records.
pub fn first_threads(held: [Thread; 40]) -> Threads
    ensures { result.at ≡ take 32 held }
{
    let mut threads = model_effect::no_threads();
    threads.at.copy_from_slice(&held[..32]);
    threads
}

// An event or a segment, and a cycle.
fn cycle_words(x: u8, c: Cycle) -> [u64; 3]
    ensures { result ≡ x ∷ c.time.0 ∷ c.delta.0 ∷ [] }
{
    [u64::from(x), c.time.0, u64::from(c.delta.0)]
}

fn thread_words(x: Thread) -> [u64; 5]
    ensures { result ≡ thread_words x }
{
    let (number, event, c) = match x.state {
        State::Ended(c) => (0, 0, c),
        State::Overrun(c) => (1, 0, c),
        State::Ready(c) => (2, 0, c),
        State::Waiting(e, c) => (3, e, c),
        State::Running(c) => (4, 0, c),
    };
    [
        u64::from(x.segment),
        number,
        u64::from(event),
        c.time.0,
        u64::from(c.delta.0),
    ]
}

fn variables_into(values: Variables, out: &mut [u32])
    ensures { out.new ≡ placed_in values.at out.old }
{
    if out.len() < 64 {
        return;
    }
    buffers::put(out, 0, &values.at);
}

// The places of a log, after its count.
fn put_places(places: [Notification; 128], out: &mut [u64])
    requires { (length places ≡ 128) × (385 ≤ length out.old) }
    ensures { out.new ≡ sets out.old 1 (in_turn pair_words places) }
{
    for (i, x) in places.iter().enumerate() {
        buffers::put(out, 3 * i + 1, &cycle_words(x.event, x.cycle));
    }
}

fn log_into(site: Site, out: &mut [u64])
    ensures { out.new ≡ placed_in (log_words site) out.old }
{
    if out.len() < 385 {
        return;
    }
    out[0] = u64::from(site.count);
    put_places(site.log, out);
}

pub fn site_into(site: Site, variables: &mut [u32], log: &mut [u64])
    ensures values { variables.new ≡ placed_in site.variables.at variables.old }
    ensures words { log.new ≡ placed_in (log_words site) log.old }
{
    variables_into(site.variables, variables);
    log_into(site, log);
}

// The records of the first t threads.
pub fn threads_into(threads: Threads, t: u8, records: &mut [u64])
    ensures { records.new ≡ placed_in (record_words (take t threads.at)) records.old }
{
    let n = usize::from(t).min(32);
    if records.len() < 5 * n {
        return;
    }
    for (k, x) in threads.at[..n].iter().enumerate() {
        buffers::put(records, 5 * k, &thread_words(*x));
    }
}

// Segment, time and delta of a grant.
pub fn grant_into(s: u8, c: Cycle, answer: &mut [u64])
    ensures { answer.new ≡ placed_in (values_of (Answer.Granted s c)) answer.old }
{
    if answer.len() < 3 {
        return;
    }
    buffers::put(answer, 0, &cycle_words(s, c));
}

fn is_pair_held(log: &[u64], i: usize) -> bool
    requires { i < 128 }
    ensures { result ≡ is_pair_held log.now i }
{
    let p = 3 * i;
    buffers::word_at(log, p + 1) < 256 && buffers::word_at(log, p + 3) < 4294967296
}

// An event beside its state's number: 0 unless waiting.
fn is_event_held(number: u64, event: u64) -> bool
    ensures { result ≡ is_event_held number event }
{
    if number == 3 { event < 256 } else { event == 0 }
}

fn is_record_held(records: &[u64], k: usize) -> bool
    requires { k < 256 }
    ensures { result ≡ is_record_held records.now k }
{
    let p = 5 * k;
    let number = buffers::word_at(records, p + 1);
    buffers::word_at(records, p) < 256
        && number < 5
        && is_event_held(number, buffers::word_at(records, p + 2))
        && buffers::word_at(records, p + 4) < 4294967296
}

fn is_log_held(log: &[u64]) -> bool
    ensures { result ≡ is_log_held log.now }
{
    385 <= log.len() && log[0] <= 128 && (0..log[0] as usize).all(|i| is_pair_held(log, i))
}

fn are_records_held(records: &[u64], t: u8) -> bool
    ensures { result ≡ are_records_held t records.now }
{
    let n = usize::from(t);
    5 * n <= records.len() && (0..n).all(|k| is_record_held(records, k))
}

// Whether the numbers are those of a state of t threads, each in its range, in buffers that are long enough.
pub fn are_held(variables: &[u32], log: &[u64], records: &[u64], t: u8) -> bool
    ensures { result ≡ are_held t variables.now log.now records.now }
{
    64 <= variables.len() && is_log_held(log) && are_records_held(records, t)
}
