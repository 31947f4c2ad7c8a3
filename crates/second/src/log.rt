// The second scheduler's log, on the desk: each notification is one word, sorted by event, then by cycle, with NEVER past them.
// A second list has the same words in the order of their insertion, in which the library keeps its log.
ghost use Rattle.std.specs.Prelude.{◌≡◌, ◌/◌, ◌%◌};

use crate::number::{at, put};
use crate::simulator;
use crate::simulator::NEVER;

const SORTED: usize = 320;

pub(crate) const ORDER: usize = 480;

pub(crate) const COUNT: u64 = 103;

fn word(event: u64, key: u64) -> u64 {
    event % 32 * 2199023255552 + key % 2199023255552
}

pub(crate) fn event_of(w: u64) -> u64
    ensures { result ≡ w / 2199023255552 }
{
    w / 2199023255552
}

pub(crate) fn key_of(w: u64) -> u64
    ensures { result ≡ w % 2199023255552 }
{
    w % 2199023255552
}

pub(crate) fn clear(desk: &mut [u64; 640]) {
    desk[SORTED..].fill(NEVER);
    put(desk, COUNT, 0, 0);
}

// The first word of the event not before a cycle.
fn from(desk: &[u64; 640], event: u64, key: u64) -> Option<u64> {
    let least = word(event, key);
    let w = *desk[SORTED..ORDER].iter().find(|w| least <= **w)?;
    if event_of(w) == event { Some(w) } else { None }
}

// The key of the first notification of the event not before a cycle.
pub(crate) fn first_from(desk: &[u64; 640], event: u64, key: u64) -> Option<u64> {
    from(desk, event, key).map(key_of)
}

pub(crate) fn holds(desk: &[u64; 640], event: u64, key: u64) -> bool {
    from(desk, event, key) == Some(word(event, key))
}

// "an equal pair held once"
pub(crate) fn add(desk: &mut [u64; 640], event: u64, key: u64) {
    if holds(desk, event, key) {
        return;
    }
    let w = word(event, key);
    let n = at(desk, COUNT, 0);
    simulator::insert(&mut desk[SORTED..ORDER], w);
    put(desk, ORDER as u64, n, w);
    put(desk, COUNT, 0, n.wrapping_add(1));
}

// The words of a list that are not before the floor, at its front; how many.
fn keep(list: &mut [u64], floor: u64) -> usize {
    let mut n: usize = 0;
    // An index: each turn empties place i, and may write place n.
    for i in 0..list.len() {
        let w = list[i];
        list[i] = NEVER;
        if w != NEVER && floor <= key_of(w) {
            list[n] = w;
            n += 1;
        }
    }
    n
}

// "notifications before the floor .. are dropped"
pub(crate) fn drop_before(desk: &mut [u64; 640], floor: u64) {
    keep(&mut desk[SORTED..ORDER], floor);
    let n = keep(&mut desk[ORDER..], floor);
    put(desk, COUNT, 0, n as u64);
}
