// The places of the second scheduler's log that are taken, and those that "are counted from the grant, an equal pair once": each pair of
// a running thread counts with the lowest thread that runs it.
use crate::log;
use crate::number::at;
use crate::simulator::{State, key_of, record_at, segment_of, state_of};
use crate::view::View;

// Whether record x is running at a key, in a segment that notifies the event.
fn runs_pair(view: &View, x: u64, event: u64, key: u64) -> bool {
    state_of(x) == State::Running && key_of(x) == key && view.graph.notifies(segment_of(x), event)
}

// Whether the log has a place for the pair, or one is counted for a running thread below k.
fn is_taken(view: &View, k: u64, event: u64, key: u64) -> bool {
    log::holds(view.desk, event, key)
        || (0..k).any(|j| runs_pair(view, record_at(view.desk, j), event, key))
}

// How many places record x takes beside those of the log and of the running threads below k.
fn new_beside(view: &View, k: u64, x: u64) -> u64 {
    let s = segment_of(x);
    (0..32)
        .filter(|e| view.graph.notifies(s, *e) && !is_taken(view, k, *e, key_of(x)))
        .count() as u64
}

// The log and all that is counted for running threads.
pub(crate) fn all(view: &View) -> u64 {
    let mut n = at(view.desk, log::COUNT, 0);
    for k in 0..32 {
        let x = record_at(view.desk, k);
        if state_of(x) == State::Running {
            n = n.wrapping_add(new_beside(view, k, x));
        }
    }
    n
}

// The same with the segment of record x, of a thread that is not running.
pub(crate) fn all_with(view: &View, x: u64) -> u64 {
    all(view).wrapping_add(new_beside(view, 32, x))
}
