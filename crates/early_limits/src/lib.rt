// Numbers that a request looks ahead with, made once for each.
#![tactic(auto)]

// A limit for each thread: time × 65,536 + delta, never as all ones.
#[derive(Clone, Copy)]
pub struct Limits {
    pub at: [u64; 32],
}

// For each thread its segment, the event that it waits on, or 255, and the limit of the cycle in which its wait began, or 0.
// Three rows and no row of structs: a forecast reads the segments alone.
#[derive(Clone, Copy)]
pub struct Crew {
    pub segments: [u8; 32],
    pub events: [u8; 32],
    pub since: [u64; 32],
}
