// Document 01, "Early issue": the floor, and deliveries on limits.
#![tactic(auto)]

ghost use Rattle.std.specs.Prelude.{◌<◌, ◌≤◌, ◌≡◌, true, false};
ghost use Rattle.clock.specs.Wait.{wait_ends};
ghost use Rattle.model.specs.Record.{awaited_by, state_after};
ghost use Rattle.plain.specs.Wake.{floor_below};
ghost use Rattle.early.specs.Log.{log_of};
ghost use Rattle.early.specs.Deliver.{heard_by, swept_by, settled_by};
ghost use Rattle.early_limits.specs.Limit.{sum_of, at_most};
ghost use Rattle.early_limits.specs.Ahead.{event_awaited, since_awaited, crew_of};
ghost use Rattle.early_deliver.specs.Awake.{log_on, bound_limit, first_limit, first_limits, sooner_at, sooner_on, outlook_of, with_woken};

use clock::{Bound, Cycle, Step, Wait};
use early::Site;
use early_limits::{Crew, Limits};
use early_log::Rows;
use model::{State, Threads};

// A limit that stands for never, and the least that does so in a sum. Words and no Option: limits are compared and added as words.
const NEVER: u64 = 18446744073709551615;

const TOP: u64 = 4611686018427387904;

// The records with what is known of them: the segments, the earliest limits, and whether a thread has heard.
// No Option: a sweep hands on the records whether or not a thread has heard.
#[derive(Clone, Copy)]
pub struct Outlook {
    pub threads: Threads,
    pub segments: [u8; 32],
    pub limits: Limits,
    pub heard: bool,
}

// The number of threads, 32 where it is above that. A function, since the proofs of three others go by its clause.
#[tactic(auto, unfolding(early_limits::specs::Limit::at_most))]
fn few(t: u8) -> u8
    ensures { (result ≡ at_most 32 t) × (result ≤ 32) }
{
    t.min(32)
}

// The event that a thread waits on, or 255.
#[tactic(auto, unfolding(early_limits::specs::Ahead::event_awaited))]
fn event_awaited(s: State) -> u8
    ensures { result ≡ event_awaited (awaited_by s) }
{
    let State::Waiting(e, _) = s else {
        return 255;
    };
    e
}

// The limit of the cycle in which a thread's wait began, or 0.
#[tactic(auto, unfolding(early_limits::specs::Ahead::since_awaited))]
fn since_awaited(s: State) -> u64
    ensures { result ≡ since_awaited (awaited_by s) }
{
    let State::Waiting(_, since) = s else {
        return 0;
    };
    early_ahead::limit_of(since)
}

// One delta later.
#[tactic(auto, unfolding(early_limits::specs::Limit::sum_of))]
fn one_later(x: u64) -> u64
    ensures { result ≡ sum_of x 1 }
{
    if x < TOP { x + 1 } else { NEVER }
}

fn bound_limit(b: Bound) -> u64
    ensures { result ≡ bound_limit b }
{
    match b {
        Bound::Never => NEVER,
        Bound::At(c) => early_ahead::limit_of(c),
    }
}

// Document 01: chains "begin at a ready thread or a logged notification"; a running thread counts at its cycle as a ready one.
fn first_limit(rows: &Rows, s: State) -> u64
    ensures { result ≡ first_limit (log_on rows.now) s }
{
    match s {
        State::Ended(_) | State::Overrun(_) => NEVER,
        State::Ready(c) | State::Running(c) => early_ahead::limit_of(c),
        State::Waiting(e, since) => one_later(bound_limit(early_log::least_in(rows, e, since))),
    }
}

// Document 01: "It then becomes ready or overrun as in the plain run".
fn woken_at(c: Cycle) -> State
    ensures { result ≡ state_after (wait_ends Wait.Event c) }
{
    match clock::next_delta(c) {
        Step::Ready(d) => State::Ready(d),
        Step::Overrun(d) => State::Overrun(d),
    }
}

// What deliveries read: where chains of segments reach, the log as rows, and the number of threads.
#[derive(Clone, Copy)]
struct Board<'a> {
    reach: &'a [u64],
    rows: &'a Rows,
    t: u8,
    ghost few: { t ≤ 32 },
}

impl Board<'_> {
    // The crew of the records.
    fn crew(&self, threads: Threads) -> Crew
        ensures { result ≡ crew_of self.now.t threads.at }
    {
        let n = usize::from(self.t);
        let mut segments = [0u8; 32];
        let mut events = [255u8; 32];
        let mut since = [0u64; 32];
        for (k, x) in threads.at[..n].iter().enumerate() {
            segments[k] = x.segment;
            events[k] = event_awaited(x.state);
            since[k] = since_awaited(x.state);
        }
        Crew {
            segments,
            events,
            since,
        }
    }

    // Where the chains of each thread begin.
    fn first_limits(&self, threads: Threads) -> Limits
        ensures { result.at ≡ first_limits self.now.t (log_on self.now.rows.now) threads.at }
    {
        let n = usize::from(self.t);
        let mut at = [NEVER; 32];
        for (k, x) in threads.at[..n].iter().enumerate() {
            at[k] = first_limit(self.rows, x.state);
        }
        Limits { at }
    }

    // The records with what is known of them.
    fn outlook(&self, threads: Threads, heard: bool) -> Outlook
        ensures { let b = self.now in result ≡ outlook_of b.reach.now b.t (log_on b.rows.now) threads.at heard }
    {
        let crew = self.crew(threads);
        let first = self.first_limits(threads);
        let limits = early_ahead::earliest(self.reach, crew, first, self.t);
        let segments = crew.segments;
        Outlook {
            threads,
            segments,
            limits,
            heard,
        }
    }

    // Document 01: "A delivery is looked for only if the thread waits".
    fn heard_by(&self, o: &Outlook, s: State) -> Bound
        ensures { let b = self.now in result ≡ heard_by (sooner_at b.reach.now b.t o.now.segments o.now.limits.at) (log_on b.rows.now) (awaited_by s) }
    {
        let State::Waiting(e, since) = s else {
            return Bound::Never;
        };
        let Bound::At(c) = early_log::least_in(self.rows, e, since) else {
            return Bound::Never;
        };
        let soonest = early_ahead::forecast(self.reach, o.segments, o.limits, self.t, e);
        if soonest < early_ahead::limit_of(c) {
            return Bound::Never;
        }
        Bound::At(c)
    }

    // Thread k hears at c: its record anew, and what is known of the records.
    fn wake(&self, threads: Threads, k: usize, c: Cycle) -> Outlook
        requires { k < self.now.t }
        ensures { let b = self.now in result ≡ outlook_of b.reach.now b.t (log_on b.rows.now) (with_woken threads.at k c) true }
    {
        let mut after = threads;
        after.at[k].state = woken_at(c);
        self.outlook(after, true)
    }

    // Document 01: "every thread is looked at".
    fn sweep(&self, o: Outlook) -> Outlook
        requires { let b = self.now in o ≡ outlook_of b.reach.now b.t (log_on b.rows.now) o.threads.at o.heard }
        ensures seen { let b = self.now in result ≡ outlook_of b.reach.now b.t (log_on b.rows.now) (swept_by (sooner_on b.reach.now b.t (log_on b.rows.now)) (log_on b.rows.now) o.threads.at b.t) result.heard }
        ensures still { result.heard ≡ false → result.threads.at ≡ o.threads.at }
    {
        let mut seen = Outlook { heard: false, ..o };
        for k in 0..usize::from(self.t) {
            let s = seen.threads.at[k].state;
            let Bound::At(c) = self.heard_by(&seen, s) else {
                continue;
            };
            seen = self.wake(seen.threads, k, c);
        }
        seen
    }

    // Document 01: "again and again until none hears anything".
    fn settled(&self, threads: Threads) -> Threads
        ensures { let b = self.now in result.at ≡ settled_by (sooner_on b.reach.now b.t (log_on b.rows.now)) (log_on b.rows.now) b.t threads.at }
    {
        let mut o = self.outlook(threads, false);
        for _ in 0..self.t {
            o = self.sweep(o);
            if !o.heard {
                return o.threads;
            }
        }
        o.threads
    }
}

// Document 01: "The floor (least cycle of a ready thread)", a running one among them.
pub fn floor_of(threads: Threads, t: u8) -> Bound
    ensures { result ≡ floor_below (at_most 32 t) threads.at }
{
    let n = usize::from(few(t));
    let mut least = Bound::Never;
    for x in &threads.at[..n] {
        least = clock::least_of(least, model_effect::ready_cycle(x.state));
    }
    least
}

// The records with their segments and their earliest limits; nobody has heard.
pub fn outlook_of(reach: &[u64], site: Site, threads: Threads, t: u8) -> Outlook
    ensures { result ≡ outlook_of reach.now (at_most 32 t) (log_of site) threads.at false }
{
    let rows = early_log::spread(site);
    let board = Board {
        reach,
        rows: &rows,
        t: few(t),
    };
    board.outlook(threads, false)
}

// The records after all deliveries.
pub fn settle(reach: &[u64], site: Site, threads: Threads, t: u8) -> Threads
    ensures { result.at ≡ settled_by (sooner_on reach.now (at_most 32 t) (log_of site)) (log_of site) (at_most 32 t) threads.at }
{
    let rows = early_log::spread(site);
    let board = Board {
        reach,
        rows: &rows,
        t: few(t),
    };
    board.settled(threads)
}
