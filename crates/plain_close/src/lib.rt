// Document 01, "Plain run": a segment's end and a cycle's end, on states as words: who waits, who wakes, and which cycle is next.
#![tactic(auto)]

ghost use Rattle.std.specs.Prelude.{◌≡◌, not, ◌&&◌, ltb, eqb, ℕ, ◌+◌, ◌%◌, ◌≤◌, ◌<◌, ◌^◌, get_or, length};
ghost use Rattle.plain_state.specs.Words.{next_word, close_word, wake_word, least_word};
ghost use Rattle.plain_state.specs.Due.{Between, Late, IsLeast, Woken, IsDue, Ends};

// A thread's state as a word: a ready thread's is its cycle, 1,024 for each unit of time; the others stand above these.
pub const WAITING: u64 = 4611686018427387904;

pub const ENDED: u64 = 9223372036854775808;

pub const OVERRUN: u64 = 13835058055282163712;

// The clock's step by a delta, for a delta notification and a zero wait: "A thread whose next delta would be 1,024 is overrun".
fn next_delta(key: u64) -> u64
    requires { key < 2 ^ 44 }
    ensures { result ≡ next_word key }
{
    if key % 1024 < 1023 {
        key + 1
    } else {
        OVERRUN + key
    }
}

// A thread whose segment ends so, at a cycle: over, waiting, or past a zero wait or a timed wait.
pub fn close_word(end: u64, key: u64) -> u64
    requires { key < 2 ^ 44 }
    ensures { result ≡ close_word end key }
{
    let k = end / 1024;
    match end % 4 {
        0 => ENDED + key,
        2 => WAITING + 17592186044416 * (k % 32) + key,
        _ => match k % 4294967296 {
            0 => next_delta(key),
            units => 1024 * (key / 1024 + units),
        },
    }
}

// Document 01: "At the cycle's end, each thread waiting on an event notified in it, its wait begun in that cycle or before".
fn wake_word(told: &[bool; 32], key: u64, w: u64) -> u64
    requires { key < 2 ^ 44 }
    ensures { result ≡ wake_word told.now key w }
{
    if w < WAITING || ENDED <= w {
        return w;
    }
    let x = w - WAITING;
    let e = ((x / 17592186044416) % 32) as usize;
    if !told[e] || key < x % 17592186044416 {
        return w;
    }
    next_delta(key)
}

// The threads from one on and before another, at the end of a cycle, and the least of their words then.
fn wake(state: &mut [u64; 32], told: &[bool; 32], key: u64, from: usize, to: usize) -> u64
    requires from_le_to { from ≤ to }
    requires to_bound { to ≤ 32 }
    requires key_bound { key < 2 ^ 44 }
    requires state_len { length state.old ≡ 32 }
    ensures { Woken told.now key from to state.old state.new result }
{
    let mut least = u64::MAX;
    for k in from..to {
        let x = wake_word(told, key, state[k]);
        state[k] = x;
        least = x.min(least);
    }
    least
}

// The least of a number and the words of the threads from one on and before another.
pub fn floor_of(state: &[u64; 32], from: usize, to: usize, start: u64) -> u64
    requires from_le_to { from ≤ to }
    requires to_bound { to ≤ 32 }
    ensures { IsLeast state.now from to start result }
{
    let mut least = start;
    for w in &state[from..to] {
        least = least.min(*w);
    }
    least
}

// Document 01: "The next cycle is the least among ready threads". Near is the least from one thread on and before another; no word is
// before the next delta, so that where near is the next delta the others are not looked at.
fn least_of(state: &[u64; 32], key: u64, near: u64, from: usize, to: usize, t: usize) -> u64
    requires from_le_to { from ≤ to }
    requires to_le_t { to ≤ t }
    requires t_bound { t ≤ 32 }
    requires key_bound { key < 2 ^ 44 }
    requires least { IsLeast state.now from to 18446744073709551615 near }
    requires by_index { (k : ℕ) → k < t → key < get_or state.now k 0 }
    ensures { result ≡ least_word t state.now }
{
    if near == key + 1 {
        return near;
    }
    let before = floor_of(state, 0, from, near);
    floor_of(state, to, t, before)
}

// Whether a thread is ready at a delta after 0.
fn is_late(w: u64) -> bool
    ensures { result ≡ ltb w 4611686018427387904 && not (eqb (w % 1024) 0) }
{
    w < WAITING && w % 1024 != 0
}

fn first_late(state: &[u64; 32], from: usize, to: usize) -> usize
    requires from_le_to { from ≤ to }
    requires to_bound { to ≤ 32 }
    ensures order { Between from (to + 1) result }
    ensures none { (k : ℕ) → Between from result k → Late (get_or state.now k 0) → ⊥ }
{
    for k in from..to {
        if is_late(state[k]) {
            return k;
        }
    }
    to
}

fn past_late(state: &[u64; 32], from: usize, to: usize) -> usize
    requires from_le_to { from ≤ to }
    requires to_bound { to ≤ 32 }
    ensures order { Between from (to + 1) result }
    ensures none { (k : ℕ) → Between result to k → Late (get_or state.now k 0) → ⊥ }
{
    for k in (from..to).rev() {
        if is_late(state[k]) {
            return k + 1;
        }
    }
    from
}

// A cycle, and the threads that it has to look at: from one on and before another.
#[derive(Clone, Copy)]
pub struct Due {
    pub key: u64,
    pub from: usize,
    pub to: usize,
}

// At a delta after 0 only threads that became ready in the delta before, or were reached, are looked at; at delta 0 all are.
pub fn due_of(state: &[u64; 32], least: u64, from: usize, to: usize, t: usize) -> Due
    requires from_le_to { from ≤ to }
    requires to_le_t { to ≤ t }
    requires t_bound { t ≤ 32 }
    requires by_index { (k : ℕ) → k < t → Late (get_or state.now k 0) → Between from to k }
    ensures cycle { result.key ≡ least }
    ensures threads { IsDue t state.now least result.from result.to }
{
    if !is_late(least) {
        return Due {
            key: least,
            from: 0,
            to: t,
        };
    }
    let first = first_late(state, from, to);
    Due {
        key: least,
        from: first,
        to: past_late(state, first, to),
    }
}

// The end of a cycle: who waits for a notified event wakes, and the next cycle is known.
pub fn end_cycle(
    state: &mut [u64; 32],
    told: &[bool; 32],
    ranges: &[usize; 66],
    due: Due,
    t: usize,
) -> Due
    requires t_bound { t ≤ 32 }
    requires key_bound { due.key < 2 ^ 44 }
    requires state_len { length state.old ≡ 32 }
    requires ends { Ends t state.old told.now ranges.now due.key due.from due.to }
    requires by_index { (k : ℕ) → k < t → due.key < get_or state.old k 0 }
    ensures places { length state.new ≡ 32 }
    ensures least { result.key ≡ least_word t state.new }
    ensures words { (k : ℕ) → k < t → get_or state.new k 0 ≡ wake_word told.now due.key (get_or state.old k 0) }
    ensures threads { IsDue t state.new result.key result.from result.to }
{
    let first = due.from.min(ranges[32]);
    let past = t.min(due.to.max(ranges[65]));
    let near = wake(state, told, due.key, first, past);
    let least = least_of(state, due.key, near, first, past, t);
    due_of(state, least, first, past, t)
}
