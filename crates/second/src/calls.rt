// Lists of calls, each drawn by seed, list and state. Lists 0 and 3 ask at random, also for threads that are not there; lists 1 and 4 the
// ready thread that is most ahead first; lists 2 and 5 the one at the floor last. After a call that is not refused the choice starts over.
// Of eight lists two make combined requests; two grant what they can, and finish one where no more is granted; the others mix all three,
// with some calls out of turn. So several threads are running at once for long.
use crate::issue::How;
use crate::number::at;
use crate::simulator::{State, key_of, record_at, state_of};
use crate::{draw, simulator};

// A call as a word, the thread with 256 more for a grant and 512 more for a finish; and the stamp from which the list goes on if it is
// refused, if it goes on from one.
#[derive(Clone, Copy)]
pub struct Turn {
    pub word: u64,
    pub stamp: Option<u64>,
}

// How a list calls: combined, grants first, or a mix in which one finishes soon, or late.
#[derive(Clone, Copy, PartialEq, Eq)]
enum Way {
    Combined,
    GrantsFirst,
    Soon,
    Late,
}

// Those of many calls on long runs are combined, or finish soon.
fn way_of(seed: u64, list: u64) -> Way {
    if draw::is_long(seed) && list < 3 {
        return if list == 1 { Way::Combined } else { Way::Soon };
    }
    match seed.wrapping_add(list) % 8 / 2 {
        0 => Way::Combined,
        1 => Way::GrantsFirst,
        2 => Way::Soon,
        _ => Way::Late,
    }
}

// The stamp of thread k as key × 256 + k, if it is ready up to the horizon.
fn stamp(desk: &[u64; 640], k: u64) -> Option<u64> {
    let x = record_at(desk, k);
    if state_of(x) == State::Ready && key_of(x) <= at(desk, simulator::END, 0) {
        Some(key_of(x) * 256 + k % 256)
    } else {
        None
    }
}

// The least stamp from one on.
pub fn least_from(desk: &[u64; 640], from: u64) -> Option<u64> {
    (0..32)
        .filter_map(|k| stamp(desk, k))
        .filter(|x| from <= *x)
        .min()
}

// The greatest stamp below one, or of all.
fn most_below(desk: &[u64; 640], end: Option<u64>) -> Option<u64> {
    (0..32)
        .filter_map(|k| stamp(desk, k))
        .filter(|x| end.is_none_or(|end| *x < end))
        .max()
}

// The floor last: those above the last one that was refused, the lowest first; none once the floor was refused.
fn floor_last(desk: &[u64; 640], last: Option<u64>) -> Option<u64> {
    let first = least_from(desk, 0);
    if last == first {
        return None;
    }
    let from = last.or(first)?;
    least_from(desk, from.wrapping_add(1)).or(first)
}

// The first running thread from one on, in turn.
pub fn running_from(desk: &[u64; 640], from: u64) -> Option<u64> {
    (0..32)
        .map(|i| from.wrapping_add(i) % 32)
        .find(|k| state_of(record_at(desk, *k)) == State::Running)
}

// How many are running.
pub fn running(desk: &[u64; 640]) -> u64 {
    (0..32)
        .filter(|k| state_of(record_at(desk, *k)) == State::Running)
        .count() as u64
}

// The same number, again from 3 on.
pub fn how_of(n: u64) -> How {
    match n % 3 {
        0 => How::Both,
        1 => How::Grant,
        _ => How::Finish,
    }
}

// A call as a word; the kind is any number, told as `how_of` tells it.
pub fn word_of(how: u64, k: u64) -> u64 {
    how_of(how) as u64 * 256 + k % 256
}

// Any thread, the first number that is none, or 255.
pub fn any_thread(seed: u64, t: u64) -> u64 {
    let k = draw::pick(seed, 70, t.wrapping_add(2));
    if k <= t { k } else { 255 }
}

// Any call; a few words are of no call, and mean a finish of thread 255.
fn at_random(desk: &[u64; 640], x: u64, way: Way) -> u64 {
    let k = any_thread(x, at(desk, simulator::THREADS, 0));
    if way == Way::Combined {
        return word_of(How::Both as u64, k);
    }
    if draw::pick(x, 71, 60) == 0 {
        return k.wrapping_add(768);
    }
    word_of(draw::pick(x, 72, 3), k)
}

// Whether a list that mixes finishes one now.
fn is_due(x: u64, way: Way) -> bool {
    match way {
        Way::Combined | Way::GrantsFirst => false,
        Way::Soon => draw::pick(x, 73, 2) == 0,
        Way::Late => draw::pick(x, 73, 6) == 0,
    }
}

// How a ready thread is asked for.
fn asked(x: u64, way: Way) -> How {
    let both = match way {
        Way::Combined => true,
        Way::GrantsFirst => false,
        Way::Soon => draw::pick(x, 74, 2) == 0,
        Way::Late => draw::pick(x, 74, 5) == 0,
    };
    if both { How::Both } else { How::Grant }
}

// A call that is out of turn, or nearly always: of a running thread, if there is one, or a finish of any.
fn out_of_turn(desk: &[u64; 640], x: u64, runs: Option<u64>) -> u64 {
    match runs {
        Some(k) if draw::pick(x, 75, 2) == 0 => word_of(draw::pick(x, 76, 2), k),
        _ => {
            let k = draw::pick(x, 77, at(desk, simulator::THREADS, 0));
            word_of(How::Finish as u64, k)
        }
    }
}

// By the stamp of a ready thread, if there is one.
fn by_stamp(
    desk: &[u64; 640],
    x: u64,
    way: Way,
    ready: Option<u64>,
    last: Option<u64>,
) -> Option<Turn> {
    let runs = running_from(desk, draw::pick(x, 78, 32));
    if let Some(k) = runs
        && (ready.is_none() || is_due(x, way))
    {
        return Some(Turn {
            word: word_of(How::Finish as u64, k),
            stamp: None,
        });
    }
    if way != Way::Combined && draw::pick(x, 79, 20) == 0 {
        return Some(Turn {
            word: out_of_turn(desk, x, runs),
            stamp: last,
        });
    }
    Some(Turn {
        word: word_of(asked(x, way) as u64, ready? % 256),
        stamp: ready,
    })
}

// The next call of a list that has made so many, if it goes on; the last was refused at a stamp.
pub fn next(desk: &[u64; 640], seed: u64, list: u64, made: u64, last: Option<u64>) -> Option<Turn> {
    let x = draw::mixed(draw::mixed(seed, list), made.wrapping_add(1000));
    let way = way_of(seed, list);
    match list % 3 {
        0 => Some(Turn {
            word: at_random(desk, x, way),
            stamp: None,
        }),
        1 => by_stamp(desk, x, way, most_below(desk, last), last),
        _ => by_stamp(desk, x, way, floor_last(desk, last), last),
    }
}
