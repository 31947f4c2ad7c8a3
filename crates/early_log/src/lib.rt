// Document 01, "Early issue": the log, its new pairs, what is heard of it and what is dropped.
#![tactic(auto)]

ghost use Rattle.std.specs.Prelude.{◌≡◌, ℕ, ◌<◌, ◌≤◌, min, ltb, length, take, is_none, IfSome};
ghost use Rattle.base.specs.Index.{any_below};
ghost use Rattle.model.specs.Record.{thread_at, is_running};
ghost use Rattle.early.specs.Log.{places, pair_of, log_of, site_of, holds, places_with, counted_log, least_heard, is_dropped, drop_before};
ghost use Rattle.early_log.specs.Noted.{no_pair, noted_of};
ghost use Rattle.early_log.specs.Spread.{log_in};

use clock::{Bound, Cycle, Delta, Time};
use early::{Notification, Site};
use model::{Events, Model, State, Threads};

// A log as three rows of numbers, for those that read it often: event, time and delta of each of its first n places.
// Three rows and no row of structs: whoever looks for an event reads the first alone. There is no heap.
#[derive(Clone, Copy)]
pub struct Rows {
    pub events: [u8; 128],
    pub times: [u64; 128],
    pub deltas: [u32; 128],
    pub n: usize,
}

// A count, or the number of places where it is above that. A function, since the proofs of all that read a log go by its clause.
fn within(count: u8, places: usize) -> usize
    ensures { result ≡ min count places }
{
    usize::from(count).min(places)
}

// Whether one of these places holds event e at c.
fn is_held(log: &[Notification], e: u8, c: Cycle) -> bool
    ensures { result ≡ holds log.now (pair_of e c) }
{
    log.iter().any(|x| x.event == e && x.cycle == c)
}

// A place that holds no notification.
fn nothing() -> Notification
    ensures { result ≡ no_pair }
{
    Notification {
        event: 0,
        cycle: Cycle {
            time: Time(0),
            delta: Delta(0),
        },
    }
}

// Document 01: "the places past its count are 0".
fn cleared(site: Site) -> Site
    ensures { result ≡ site_of site.variables.at (log_of site) }
{
    let used = within(site.count, 128);
    let mut log = site.log;
    log[used..].fill(nothing());
    Site {
        variables: site.variables,
        log,
        count: used as u8,
    }
}

// Document 01: "New pairs go to its end in statement order", "an equal pair held once"; as far as there are places.
pub fn note(site: Site, c: Cycle, events: Events) -> Site
    ensures { result ≡ noted_of site c (take events.n events.at) }
{
    let tidy = cleared(site);
    let mut log = tidy.log;
    let mut count = tidy.count;
    let n = within(events.n, 32);
    for &e in &events.at[..n] {
        let k = usize::from(count);
        if k < 128 && !is_held(&log[..k], e, c) {
            log[k] = Notification { event: e, cycle: c };
            count += 1;
        }
    }
    Site {
        variables: tidy.variables,
        log,
        count,
    }
}

// Document 01, 15: "log plus new pairs": the places that the log takes with the pairs of the events at c, each once.
pub fn places_with(site: Site, c: Cycle, events: Events) -> usize
    ensures { result ≡ places_with (log_of site) c (take events.n events.at) }
{
    let used = within(site.count, 128);
    let n = within(events.n, 32);
    let log = &site.log[..used];
    let mut total = used;
    for (j, e) in events.at[..n].iter().enumerate() {
        if !events.at[..j].contains(e) && !is_held(log, *e, c) {
            total += 1;
        }
    }
    total
}

// Whether a thread in this state is running.
fn is_running(state: State) -> bool
    ensures { result ≡ is_running state }
{
    matches!(state, State::Running(_))
}

// Whether one of the first t threads is running.
pub fn any_running(threads: Threads, t: u8) -> bool
    requires { t ≤ 32 }
    ensures { result ≡ any_below t (λ k. is_running (thread_at threads.at k).state) }
{
    let n = usize::from(t);
    threads.at[..n].iter().any(|x| is_running(x.state))
}

// Document 02, slip 7: "its log places are counted from the grant, an equal pair once". None: they are more than 128 with those of the log.
pub fn counted(m: Model, site: Site, threads: Threads) -> Option<Site>
    requires { (m.t ≤ 32) × ((j : ℕ) → j < m.t → (thread_at threads.at j).segment < 64) }
    ensures full_value { is_none result ≡ ltb places (length (counted_log m threads.at (log_of site))) }
    ensures site_value { IfSome result (λ s. log_of s ≡ counted_log m threads.at (log_of site)) }
{
    let n = usize::from(m.t);
    let mut s = site;
    for x in &threads.at[..n] {
        let State::Running(c) = x.state else {
            continue;
        };
        let j = usize::from(x.segment);
        let listed = model_effect::listed(m.segments[j]);
        if 128 < places_with(s, c, listed) {
            return None;
        }
        s = note(s, c, listed);
    }
    Some(s)
}

// The state whose log has what is counted, where there are places for it: itself where nothing runs.
pub fn counted_site(m: Model, site: Site, threads: Threads) -> Site
    requires { (m.t ≤ 32) × ((j : ℕ) → j < m.t → (thread_at threads.at j).segment < 64) × (length (counted_log m threads.at (log_of site)) ≤ places) }
    ensures { log_of result ≡ counted_log m threads.at (log_of site) }
{
    if any_running(threads, m.t) {
        return counted(m, site, threads).unwrap();
    }
    site
}

// The rows of a log: as many places as it counts.
pub fn spread(site: Site) -> Rows
    ensures { log_in result.events result.times result.deltas result.n ≡ log_of site }
{
    let mut rows = Rows {
        events: [0; 128],
        times: [0; 128],
        deltas: [0; 128],
        n: within(site.count, 128),
    };
    for (i, x) in site.log[..rows.n].iter().enumerate() {
        rows.events[i] = x.event;
        rows.times[i] = x.cycle.time.0;
        rows.deltas[i] = x.cycle.delta.0;
    }
    rows
}

// Document 01: "the least logged notification not before its wait", of a log that is spread out.
pub fn least_in(rows: &Rows, e: u8, since: Cycle) -> Bound
    ensures { result ≡ least_heard (log_in rows.now.events rows.now.times rows.now.deltas rows.now.n) e since }
{
    let mut best = Bound::Never;
    for i in (0..rows.n.min(128)).rev() {
        if rows.events[i] == e {
            let c = Cycle {
                time: Time(rows.times[i]),
                delta: Delta(rows.deltas[i]),
            };
            if c >= since {
                best = clock::least_of(Bound::At(c), best);
            }
        }
    }
    best
}

// Whether it is before the floor, or there is none.
fn is_dropped(floor: Bound, x: Notification) -> bool
    ensures { result ≡ is_dropped floor x }
{
    let Bound::At(f) = floor else {
        return true;
    };
    x.cycle < f
}

// Document 01: "notifications before the floor", "all of them if none is ready"; the others close up in order.
pub fn drop_before(site: Site, floor: Bound) -> Site
    ensures { result ≡ site_of site.variables.at (drop_before floor (log_of site)) }
{
    let n = within(site.count, 128);
    let mut log = [nothing(); 128];
    let mut count = 0u8;
    for x in &site.log[..n] {
        if !is_dropped(floor, *x) {
            let p = usize::from(count);
            log[p] = *x;
            count += 1;
        }
    }
    Site {
        variables: site.variables,
        log,
        count,
    }
}
