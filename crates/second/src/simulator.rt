// A second simulator of the plain run, written anew from document 01: an agenda of activations, kept sorted by time, delta and thread.
// It works on the bytes of an accepted model file, and shares no code with the reader and the plain run.
// A cycle is one key, time × 1,024 + delta. An activation is key × 32 + thread; that of a waiting thread stands above all others, by event.
// All it knows stands in one array, the desk, each part from a place of its own. The second scheduler has parts of its own there.
// They are words, with records packed in one each, and no structs: specs/Desk.antt and specs/Layout.antt speak of a desk's words.
ghost use Rattle.std.specs.Prelude.{◌≡◌, ◌/◌, ◌%◌, ◌<◌, ◌≤◌, IfSome};
ghost use Rattle.second.specs.Desk.{word_at, is_due_in};

use crate::number::{at, put};

// "Until its finish a thread is running": the second scheduler's alone.
#[derive(Clone, Copy, PartialEq, Eq)]
pub enum State {
    Ended,
    Overrun,
    Ready,
    Waiting,
    Running,
}

// Above all keys, instants and activations, for none: no Option, so that the least of some and a sorted list need no case of their own.
pub const NEVER: u64 = 18446744073709551615;

const WAITS: u64 = 1125899906842624;

pub(crate) const VARIABLES: u64 = 0;

// For each event one more than the key of the cycle that notified it last.
const MARKS: u64 = 64;

// Counts of the file's records, by their kind: 2 is a segment, 3 a thread.
const COUNTS: u64 = 96;

pub const SEGMENTS: u64 = 98;

pub const THREADS: u64 = 99;

// The key of the last cycle that is run: "A thread ready at exactly H is therefore run".
pub const END: u64 = 100;

// How many segments were run, and whether the budget was spent.
pub const RAN: u64 = 101;

pub const SPENT: u64 = 102;

// The place of each segment's closer, 64 × its kind; then that of each thread's first segment.
pub(crate) const CLOSERS: u64 = 128;

const STARTS: u64 = 192;

pub const RECORDS: u64 = 224;

const AGENDA: usize = 256;

const AGENDA_END: usize = 288;

// The eight ports of each thread in one word, port 0 lowest; all ones where none is used.
pub(crate) const PORTS: u64 = 288;

pub(crate) const UNUSED: u64 = 255;

pub(crate) const NO_PORTS: u64 = 18446744073709551615;

// What each thread has run, in one number; the second scheduler has its log there.
pub const HISTORIES: u64 = 320;

// A thread record in one word.
pub(crate) fn record(state: State, segment: u64, event: u64, key: u64) -> u64 {
    state as u64 + segment % 128 * 8 + event % 256 * 1024 + key % 4398046511104 * 262144
}

pub(crate) fn record_at(desk: &[u64; 640], k: u64) -> u64
    ensures { result ≡ word_at desk.now 224 k }
{
    at(desk, RECORDS, k)
}

// The number of its state, as words have it.
pub fn kind_of(x: u64) -> u64
    ensures { result ≡ x % 8 }
{
    x % 8
}

pub fn state_of(x: u64) -> State {
    match kind_of(x) {
        1 => State::Overrun,
        2 => State::Ready,
        3 => State::Waiting,
        4 => State::Running,
        _ => State::Ended,
    }
}

// Whether a record is ready, or running: a running thread "counts as live at its cycle".
pub(crate) fn is_due(x: u64) -> bool
    ensures { result ≡ is_due_in x }
{
    matches!(kind_of(x), 2 | 4)
}

pub(crate) fn segment_of(x: u64) -> u64
    ensures { (result ≡ x / 8 % 128) × (result < 128) }
{
    x / 8 % 128
}

pub(crate) fn event_of(x: u64) -> u64
    ensures { result ≡ x / 1024 % 256 }
{
    x / 1024 % 256
}

pub fn key_of(x: u64) -> u64
    ensures { (result ≡ x / 262144) × (result < 70368744177665) }
{
    x / 262144
}

// The byte so far behind a place of the file.
pub fn byte(file: &[u8], i: u64, far: u64) -> u64
    ensures { result < 256 }
{
    match file.get(i.wrapping_add(far) as usize) {
        Some(x) => u64::from(*x),
        None => 0,
    }
}

// A number of so many bytes, lowest first.
pub fn field(file: &[u8], i: u64, far: u64, size: u64) -> u64
    ensures { result < 72057594037927936 }
{
    let first = i.wrapping_add(far);
    let mut x: u64 = 0;
    for n in (0..size).rev() {
        x = x % 281474976710656 * 256 + byte(file, first, n);
    }
    x
}

// "Variable numbers 128 to 135 may stand wherever a variable is named, and mean ports 0 to 7."
pub(crate) fn is_port(x: u64) -> bool {
    x / 8 == 16
}

// The variable of a port, by the eight in one word.
pub(crate) fn port(ports: u64, p: u64) -> u64
    ensures { result < 256 }
{
    u64::from(ports.to_le_bytes()[(p % 8) as usize])
}

// What a variable is given: b, x the variable's own value, y that of variable b. "Sums and differences are taken modulo 4,294,967,296."
fn value(op: u64, b: u64, x: u64, y: u64) -> u64 {
    match op {
        1 => b,
        2 => x.wrapping_add(b) % 4294967296,
        3 => y,
        4 => x.wrapping_add(y) % 4294967296,
        _ => x.wrapping_sub(y) % 4294967296,
    }
}

// The record of a thread that goes on after so many units; overrun where its next delta would be 1,024.
pub(crate) fn resumed(segment: u64, now: u64, units: u64) -> u64 {
    if 0 < units {
        let time = (now / 1024).wrapping_add(units) % 4294967296;
        return record(State::Ready, segment, 0, time * 1024);
    }
    if now % 1024 == 1023 {
        return record(State::Overrun, segment, 0, now);
    }
    record(State::Ready, segment, 0, now.wrapping_add(1))
}

fn activation(x: u64, k: u64) -> u64 {
    match state_of(x) {
        State::Ready => x / 262144 * 32 + k % 32,
        State::Waiting => WAITS + x / 1024 % 256 * 32 + k % 32,
        _ => NEVER,
    }
}

// One word more in a sorted list; the greatest goes.
pub(crate) fn insert(list: &mut [u64], word: u64) {
    let mut x = word;
    for y in list {
        if x < *y {
            std::mem::swap(&mut x, y);
        }
    }
}

// The agenda with another activation in place of its first.
fn replace_first(desk: &mut [u64; 640], entry: u64) {
    let agenda = &mut desk[AGENDA..AGENDA_END];
    agenda[0] = entry;
    // An index: each turn sees two neighbours.
    for i in 1..agenda.len() {
        if entry <= agenda[i] {
            return;
        }
        agenda.swap(i - 1, i);
    }
}

// Thread k after the cycle `now`: where it waits on an event notified in it, it goes on at the next delta.
fn heard(desk: &mut [u64; 640], k: u64, now: u64) -> u64 {
    let x = record_at(desk, k);
    if state_of(x) != State::Waiting || at(desk, MARKS, event_of(x)) != now.wrapping_add(1) {
        return x;
    }
    let r = resumed(segment_of(x), now, 0);
    put(desk, RECORDS, k, r);
    r
}

// The agenda after the cycle `now`; its first activation.
fn wake(desk: &mut [u64; 640], now: u64) -> u64 {
    desk[AGENDA..AGENDA_END].fill(NEVER);
    for k in 0..32 {
        let x = heard(desk, k, now);
        insert(&mut desk[AGENDA..AGENDA_END], activation(x, k));
    }
    desk[AGENDA]
}

// The ports of the last thread, by the record at a place of the file.
fn survey_ports(file: &[u8], i: u64, desk: &mut [u64; 640]) {
    let k = at(desk, THREADS, 0).saturating_sub(1);
    let low = field(file, i, 4, 4) % 4294967296;
    let high = field(file, i, 8, 4) % 4294967296;
    put(desk, PORTS, k, low + high * 4294967296);
}

// A segment or a thread at a place of the file; "Without it all eight are unused."
fn survey_part(kind: u64, i: u64, desk: &mut [u64; 640]) {
    let n = at(desk, COUNTS, kind);
    put(desk, 64 * (kind % 256), n, i.wrapping_add(4));
    put(desk, COUNTS, kind, n.wrapping_add(1));
    if kind == 3 {
        put(desk, PORTS, n, NO_PORTS);
    }
}

// The places of segments and threads, their counts, the threads' ports, and the horizon.
pub(crate) fn survey(file: &[u8], desk: &mut [u64; 640]) {
    put(
        desk,
        END,
        0,
        field(file, 0, 4, 4) % 4294967296 * 1024 + 1023,
    );
    let mut i: u64 = 10;
    for _ in 0..129 {
        match byte(file, i, 2) {
            4 => return,
            5 => survey_ports(file, i, desk),
            kind => survey_part(kind, i, desk),
        }
        i = i.wrapping_add(field(file, i, 0, 2));
    }
}

// The first segment of thread k.
pub(crate) fn first_of(file: &[u8], desk: &[u64; 640], k: u64) -> u64 {
    byte(file, at(desk, STARTS, k), 0)
}

// "All threads start ready at (0, 0)."
pub(crate) fn start(file: &[u8], desk: &mut [u64; 640]) {
    for k in 0..at(desk, THREADS, 0) {
        let first = first_of(file, desk, k);
        put(desk, RECORDS, k, record(State::Ready, first, 0, 0));
    }
}

// How many statements stand behind a closer.
pub(crate) fn statements(file: &[u8], closer: u64) -> u64 {
    (field(file, closer.wrapping_sub(4), 0, 2) / 6).saturating_sub(2)
}

// The place of statement j behind a closer.
pub(crate) fn statement_at(closer: u64, j: u64) -> u64 {
    closer.wrapping_add(j.wrapping_mul(6)).wrapping_add(13)
}

// A thread with these ports that runs at a key, by the segments of a file.
#[derive(Clone, Copy)]
pub(crate) struct Runner<'a> {
    pub(crate) file: &'a [u8],
    pub(crate) ports: u64,
    pub(crate) now: u64,
}

impl Runner<'_> {
    // The variable that a number names.
    fn named(&self, x: u64) -> u64 {
        if is_port(x) { port(self.ports, x) } else { x }
    }

    // The statement at a place of the file.
    fn execute(&self, i: u64, desk: &mut [u64; 640]) {
        let op = byte(self.file, i, 0);
        let a = byte(self.file, i, 1);
        if op == 6 {
            put(desk, MARKS, a, self.now.wrapping_add(1));
            return;
        }
        let b = field(self.file, i, 2, 4);
        let to = self.named(a);
        let x = at(desk, VARIABLES, to);
        let y = at(desk, VARIABLES, self.named(b));
        put(desk, VARIABLES, to, value(op, b, x, y));
    }

    // What the statement at a place of the file has written on one desk, on another too.
    fn pass_on(&self, i: u64, from: &[u64; 640], desk: &mut [u64; 640]) {
        if byte(self.file, i, 0) != 6 {
            let to = self.named(byte(self.file, i, 1));
            put(desk, VARIABLES, to, at(from, VARIABLES, to));
        }
    }

    // "The next segment is A if the variable is below the limit after the statements, else B." The closer stands at a place of the file.
    fn chosen(&self, closer: u64, desk: &[u64; 640]) -> u64 {
        let test = byte(self.file, closer, 8);
        let is_below = test == 255
            || at(desk, VARIABLES, self.named(test)) < field(self.file, closer, 9, 4);
        byte(self.file, closer, if is_below { 6 } else { 7 })
    }

    // The record after the closer, of a thread that ran segment s and has the next to run.
    fn closed(&self, closer: u64, s: u64, next: u64) -> u64 {
        match byte(self.file, closer, 0) {
            0 => record(State::Ended, s, 0, self.now),
            2 => record(State::Waiting, next, byte(self.file, closer, 1), self.now),
            _ => resumed(next, self.now, field(self.file, closer, 2, 4)),
        }
    }

    // Segment s whole; the record after it.
    pub(crate) fn run(&self, s: u64, desk: &mut [u64; 640]) -> u64 {
        let closer = at(desk, CLOSERS, s);
        for j in 0..statements(self.file, closer) {
            self.execute(statement_at(closer, j), desk);
        }
        self.closed(closer, s, self.chosen(closer, desk))
    }

    // Segment s whole, on a desk with the values that it reads; on the other desk "the variables it writes". The record after it.
    pub(crate) fn run_apart(&self, s: u64, apart: &mut [u64; 640], desk: &mut [u64; 640]) -> u64 {
        let closer = at(apart, CLOSERS, s);
        for j in 0..statements(self.file, closer) {
            let i = statement_at(closer, j);
            self.execute(i, apart);
            self.pass_on(i, apart, desk);
        }
        self.closed(closer, s, self.chosen(closer, apart))
    }
}

// A history with one more segment, run at a key.
pub fn told(history: u64, segment: u64, key: u64) -> u64 {
    let item = key % 4398046511104 * 64 + segment % 64;
    (history % 2147483647 * 48271 + item % 2147483647 + 1) % 2147483647
}

// The soonest activation: its thread runs its segment whole, and is put on the agenda again.
fn step(file: &[u8], desk: &mut [u64; 640], now: u64) {
    let k = desk[AGENDA] % 32;
    let s = segment_of(record_at(desk, k));
    let runner = Runner {
        file,
        ports: at(desk, PORTS, k),
        now,
    };
    let r = runner.run(s, desk);
    put(desk, RECORDS, k, r);
    put(desk, HISTORIES, k, told(at(desk, HISTORIES, k), s, now));
    replace_first(desk, activation(r, k));
}

// The key of the next segment to run, after the cycle `now`.
fn next_key(desk: &mut [u64; 640], now: u64) -> u64 {
    if now < desk[AGENDA] / 32 {
        wake(desk, now) / 32
    } else {
        now
    }
}

// At most so many segments, up to the last key; how many, or none where the budget was spent before.
fn run_all(file: &[u8], budget: u64, end: u64, desk: &mut [u64; 640]) -> Option<u64>
    ensures { IfSome result (λ n. n ≤ budget) }
{
    let mut now = next_key(desk, 0);
    for n in 0..budget {
        if end < now {
            return Some(n);
        }
        step(file, desk, now);
        now = next_key(desk, now);
    }
    if end < now { Some(budget) } else { None }
}

// The run of an accepted file on an empty desk, of at most so many segments.
pub fn simulate(file: &[u8], budget: u64, desk: &mut [u64; 640])
    ensures { word_at desk.new 101 0 ≤ budget }
{
    survey(file, desk);
    start(file, desk);
    wake(desk, 0);
    let end = at(desk, END, 0);
    match run_all(file, budget, end, desk) {
        Some(n) => put(desk, RAN, 0, n),
        None => {
            put(desk, RAN, 0, budget);
            put(desk, SPENT, 0, 1);
        }
    }
}
