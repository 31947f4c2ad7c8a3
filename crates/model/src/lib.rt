// Document 01, "Model file" as values; thread records of "Early issue". Types and definitions; the functions are those of `model_effect` and `model_rules`.
#![tactic(auto)]

use clock::{Cycle, Delay, Time};

// `largest_time`: the last horizon, and the longest delay.
pub const LARGEST_TIME: u64 = 1000000000;

// `cut_time`: a distance or a log time is below it.
pub const CUT_TIME: u64 = 1000000001;

// `record_time`: the time of a thread record is below it.
pub const RECORD_TIME: u64 = 2000000001;

// `cut_time` as a word of distance: 1,024 for each unit.
pub const CUT_WORD: u64 = 1024 * CUT_TIME;

// A statement's operation: one byte a, four bytes b.
#[derive(Clone, Copy)]
pub enum Op {
    Set(u8, u32),
    Add(u8, u32),
    Copy(u8, u32),
    AddVariable(u8, u32),
    SubVariable(u8, u32),
    Notify(u8),
}

#[derive(Clone, Copy)]
pub struct Statement {
    pub op: Op,
}

// Next segments A and B, the test variable or 255, and the limit.
#[derive(Clone, Copy)]
pub struct Next {
    pub a: u8,
    pub b: u8,
    pub test: u8,
    pub limit: u32,
}

#[derive(Clone, Copy)]
pub enum Closer {
    End,
    Time(Delay, Next),
    Event(u8, Next),
}

// n statements, the rest of the places unused. An array with its count: there is no heap, and definitions (`body_of`) speak of the 32 places.
#[derive(Clone, Copy)]
pub struct Segment {
    pub closer: Closer,
    pub n: u8,
    pub statements: [Statement; 32],
}

// A thread as a model declares it: its first segment, and the variable of each port, 255 for an unused one.
#[derive(Clone, Copy)]
pub struct Start {
    pub first: u8,
    pub ports: [u8; 8],
}

// The horizon, then document 01's counts: v variables, e events, n segments, t threads. Arrays with their counts: there is no heap, and
// definitions (`segment_at`, `start_at`) speak of the places.
#[derive(Clone, Copy)]
pub struct Model {
    pub horizon: Time,
    pub v: u8,
    pub e: u8,
    pub n: u8,
    pub t: u8,
    pub segments: [Segment; 64],
    pub starts: [Start; 32],
}

#[derive(Clone, Copy)]
pub struct Variables {
    pub at: [u32; 64],
}

// Document 01: "ready at a cycle, waiting on an event since a cycle, ended at a cycle, or overrun at a cycle"; and document 02, slip 7:
// "Until its finish a thread is running, a new state of its record".
#[derive(Clone, Copy)]
pub enum State {
    Ended(Cycle),
    Overrun(Cycle),
    Ready(Cycle),
    Waiting(u8, Cycle),
    Running(Cycle),
}

// Document 01: "A thread record holds its segment and its state".
#[derive(Clone, Copy)]
pub struct Thread {
    pub segment: u8,
    pub state: State,
}

#[derive(Clone, Copy)]
pub struct Threads {
    pub at: [Thread; 32],
}

// n events at the front, in order; 0 past them. An array with its count: there is no heap.
#[derive(Clone, Copy)]
pub struct Events {
    pub n: u8,
    pub at: [u8; 32],
}

// What running a segment leaves.
#[derive(Clone, Copy)]
pub struct Ran {
    pub variables: Variables,
    pub notified: Events,
    pub thread: Thread,
}
