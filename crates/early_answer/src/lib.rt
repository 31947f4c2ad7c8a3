// Document 01, "Early issue": a request on a fit state, by the counts of its model and what was made of it once. Document 02, slip 7: "Split
// the request into two that answer as it does".
#![tactic(auto)]

ghost use Rattle.std.specs.Prelude.{ℕ, ◌+◌, ◌*◌, ◌<◌, ◌≤◌, ◌≡◌, true, cond, ltb, List, length, take};
ghost use Rattle.model.specs.Values.{body_of};
ghost use Rattle.model.specs.Statement.{notified_by};
ghost use Rattle.model.specs.Record.{thread_at, cycle_of, is_running};
ghost use Rattle.plain.specs.Wake.{floor_below};
ghost use Rattle.early.specs.declared.Notification.{Notification};
ghost use Rattle.early.specs.Log.{log_of, places_with};
ghost use Rattle.early.specs.Request.{is_full_by, number_ready, refused_with};
ghost use Rattle.early.specs.Call.{held_at, with_held, running_from, finish_number};
ghost use Rattle.early_ports.specs.Cross.{ports_in, segment_with, conflicts_on};
ghost use Rattle.refusal.specs.Number.{number_of, number_told};
ghost use Rattle.early_row.specs.Lent.{is_by_steps, lent_of};
ghost use Rattle.early_answer.specs.Answered.{thread_of, is_grant, is_finish, hazard_on, number_on, call_number_on, effect_from, grant_on, stored_in, effect_on, run_on, emptied_by, called_on, EnoughHeld, HasRoom};
ghost use Rattle.early_answer.specs.After.{after_of};
ghost use Rattle.early_answer.specs.Shown.{Shows};

use clock::{Bound, Cycle, Stamp, ThreadNo, Time};
use early::{After, Answer, Call, Site};
use early_row::Distances;
use model::{Events, Ran, Segment, Start, State, Thread, Threads, Variables};
use refusal::Refusal;

// What calls on one model are answered by, made once: its horizon and counts, the starts of its threads, which segments conflict, what they
// name, where distances come from, and the ways to the events.
#[derive(Drop)]
pub struct Desk<'a> {
    pub horizon: Time,
    pub n: u8,
    pub t: u8,
    pub starts: [Start; 32],
    pub marks: [[bool; 64]; 64],
    pub names: &'a [u64],
    pub from: Distances<'a>,
    pub reach: &'a [u64],
}

pub fn refused(number: u8, site: Site, threads: Threads) -> After
    ensures { result ≡ after_of (refused_with number site threads.at) }
{
    After {
        answer: Answer::Refused(number),
        site,
        threads,
    }
}

// Document 01, 15: "log plus new pairs", with what is counted, at the cycle of thread k's record; 0 where there is no such thread.
fn places_of(t: u8, listed: Events, counted: Site, threads: Threads, k: u8) -> usize
    requires { t ≤ 32 }
    ensures { k < t → result ≡ places_with (log_of counted) (cycle_of (thread_at threads.at k).state) (take listed.n listed.at) }
{
    if t <= k {
        return 0;
    }
    let i = usize::from(k);
    let c = model_effect::cycle_of(threads.at[i].state);
    early_log::places_with(counted, c, listed)
}

// Document 01, 15: "cycle later than the floor and log plus new pairs above 96; or above 128 for any thread".
fn is_full(t: u8, places: usize, threads: Threads, c: Cycle) -> bool
    requires { t ≤ 32 }
    ensures { result ≡ is_full_by (floor_below t threads.at) places c }
{
    places > 128
        || places > 96 && clock::is_bound_before(early_deliver::floor_of(threads, t), Bound::At(c))
}

// 14 or 15, of a ready thread up to the horizon, whose pairs take so many places with the log.
fn decide_ready(
    desk: &Desk<'_>,
    room: &mut [u64],
    places: usize,
    site: Site,
    threads: Threads,
    at: Stamp,
) -> Result<(), Refusal>
    requires { desk.now.t ≤ 32 }
    ensures kept { length room.new ≡ length room.old }
    ensures number { (es : List ℕ) (l : List Notification) → places ≡ places_with l at.cycle es → (ws : List ℕ) → Shows desk.now.n desk.now.t ws (is_by_steps desk.now.from) (lent_of desk.now.from) (length room.old) threads.at → number_told result ≡ number_ready (hazard_on desk.now.n desk.now.t (conflicts_on desk.now.marks desk.now.names.now desk.now.starts) ws desk.now.reach.now (log_of site) threads.at at.thread.0) (floor_below desk.now.t threads.at) es l at.cycle }
{
    let o = early_deliver::outlook_of(desk.reach, site, threads, desk.t);
    if early_hazard::hazard(
        desk.marks,
        desk.names,
        desk.starts,
        desk.from,
        room,
        desk.n,
        desk.t,
        o.segments,
        o.limits,
        at,
    ) {
        return Err(Refusal::HazardStands);
    }
    if is_full(desk.t, places, threads, at.cycle) {
        return Err(Refusal::LogFull);
    }
    Ok(())
}

// The refusal of a thread that is not ready: 19 for one "already running", 12 for any other.
fn unready(s: State) -> Refusal
    ensures { number_of result ≡ cond (is_running s) 19 12 }
{
    match s {
        State::Ended(_) | State::Overrun(_) | State::Ready(_) | State::Waiting(_, _) =>
            Refusal::NotReady,
        State::Running(_) => Refusal::OutOfTurn,
    }
}

// The refusal of a request or a grant on a fit state: by the counts of the model, its horizon and the places that the
// segment's pairs take with the log.
fn decide(
    desk: &Desk<'_>,
    room: &mut [u64],
    places: usize,
    site: Site,
    threads: Threads,
    k: ThreadNo,
) -> Result<(), Refusal>
    requires { desk.now.t ≤ 32 }
    ensures kept { length room.new ≡ length room.old }
    ensures number { (es : List ℕ) (l : List Notification) → (k.0 < desk.now.t → places ≡ places_with l (cycle_of (thread_at threads.at k.0).state) es) → (ws : List ℕ) → Shows desk.now.n desk.now.t ws (is_by_steps desk.now.from) (lent_of desk.now.from) (length room.old) threads.at → number_told result ≡ number_on (desk.now.horizon.0 + 1) desk.now.n desk.now.t es (conflicts_on desk.now.marks desk.now.names.now desk.now.starts) ws desk.now.reach.now l (log_of site) threads.at k.0 }
{
    if desk.t <= k.0 {
        return Err(Refusal::WrongThread);
    }
    let i = usize::from(k.0);
    let s = threads.at[i].state;
    let State::Ready(c) = s else {
        return Err(unready(s));
    };
    if desk.horizon.0 < c.time.0 {
        return Err(Refusal::PastHorizon);
    }
    let at = Stamp {
        cycle: c,
        thread: k,
    };
    decide_ready(desk, room, places, site, threads, at)
}

// Document 02, slip 7: 19 when "one not running is finished, checked after 10; no later number refuses a finish".
fn decide_finish(t: u8, threads: Threads, k: u8) -> Result<(), Refusal>
    requires { t ≤ 32 }
    ensures { number_told result ≡ finish_number t threads.at k }
{
    if t <= k {
        return Err(Refusal::WrongThread);
    }
    let i = usize::from(k);
    let State::Running(_) = threads.at[i].state else {
        return Err(Refusal::OutOfTurn);
    };
    Ok(())
}

// Which thread a call is of, and which call it is.
pub fn thread_of(call: Call) -> u8
    ensures { result ≡ thread_of call }
{
    match call {
        Call::Both(k) | Call::Grant(k) | Call::Finish(k) => k,
    }
}

fn is_grant(call: Call) -> bool
    ensures { result ≡ is_grant call }
{
    matches!(call, Call::Grant(_))
}

fn is_finish(call: Call) -> bool
    ensures { result ≡ is_finish call }
{
    matches!(call, Call::Finish(_))
}

// The refusal of a call on a fit state.
fn decide_call(
    desk: &Desk<'_>,
    room: &mut [u64],
    places: usize,
    site: Site,
    threads: Threads,
    call: Call,
) -> Result<(), Refusal>
    requires { desk.now.t ≤ 32 }
    ensures kept { length room.new ≡ length room.old }
    ensures number { (es : List ℕ) (l : List Notification) → (thread_of call < desk.now.t → places ≡ places_with l (cycle_of (thread_at threads.at (thread_of call)).state) es) → (ws : List ℕ) → Shows desk.now.n desk.now.t ws (is_by_steps desk.now.from) (lent_of desk.now.from) (length room.old) threads.at → number_told result ≡ call_number_on (desk.now.horizon.0 + 1) desk.now.n desk.now.t es (conflicts_on desk.now.marks desk.now.names.now desk.now.starts) ws desk.now.reach.now l (log_of site) threads.at call }
{
    let k = thread_of(call);
    if is_finish(call) {
        return decide_finish(desk.t, threads, k);
    }
    decide(desk, room, places, site, threads, ThreadNo(k))
}

// Document 01, "After a grant": what the segment left is logged and its record closed, then deliveries, and the drop before the floor.
fn finish(reach: &[u64], t: u8, ran: Ran, site: Site, threads: Threads, at: Stamp) -> After
    requires t_bound { t ≤ 32 }
    requires thread_lt_t { at.thread.0 < t }
    requires ran_bound { places_with (log_of site) at.cycle (effect_from ran).notified ≤ 128 }
    ensures { result ≡ after_of (grant_on reach.now t site threads.at at.thread.0 at.cycle (effect_from ran)) }
{
    let i = usize::from(at.thread.0);
    let s = threads.at[i].segment;
    let noted = early_log::note(
        Site {
            variables: ran.variables,
            ..site
        },
        at.cycle,
        ran.notified,
    );
    let mut closed = threads;
    closed.at[i] = ran.thread;
    let after = early_deliver::settle(reach, noted, closed, t);
    let floor = early_deliver::floor_of(after, t);
    let kept = early_log::drop_before(noted, floor);
    After {
        answer: Answer::Granted(s, at.cycle),
        site: kept,
        threads: after,
    }
}

// Values in the set of thread k: "a grant fixes the values that the segment reads, kept with the state".
fn hold(held: &mut [u32], k: u8, v: Variables)
    requires { 64 * k + 64 ≤ length held.old }
    ensures { held.new ≡ with_held held.old k v.at }
{
    let from = 64 * usize::from(k);
    held[from..from + 64].copy_from_slice(&v.at);
}

// The values that are held for thread k.
fn held_for(held: &[u32], k: u8) -> Variables
    requires { 64 * k + 64 ≤ length held.now }
    ensures { result.at ≡ held_at held.now k }
{
    let from = 64 * usize::from(k);
    let mut at = [0u32; 64];
    at.copy_from_slice(&held[from..from + 64]);
    Variables { at }
}

// Document 02, slip 7: "stores the variables it writes": those of w that the segment writes, over v.
fn store_written(g: Segment, v: Variables, w: Variables) -> Variables
    ensures { result.at ≡ stored_in g v.at w.at }
{
    let written = early_ports::names_of(g, 0, true);
    let mut out = v;
    for i in 0..64 {
        let x = if masks::has(written, i) {
            w.at[i]
        } else {
            v.at[i]
        };
        out.at[i] = x;
    }
    out
}

// The values that a call's segment reads: those held at a finish, else the variables.
// Here and below `finishes` stays a truth value: the call tells it, and a closure for each way would carry `held` along, which is no plainer.
fn values_for(finishes: bool, v: Variables, held: &[u32], k: u8) -> Variables
    requires { finishes ≡ true → 64 * k + 64 ≤ length held.now }
    ensures { result.at ≡ cond finishes (held_at held.now k) v.at }
{
    if finishes { held_for(held, k) } else { v }
}

// What a segment does at its end or at once.
fn ran_by(finishes: bool, g: Segment, s: u8, c: Cycle, v: Variables, held: &[u32], k: u8) -> Ran
    requires { finishes ≡ true → 64 * k + 64 ≤ length held.now }
    ensures effect { effect_from result ≡ effect_on finishes g s c v.at (held_at held.now k) }
{
    let read = values_for(finishes, v, held, k);
    let ran = model_effect::effect_in(g, s, c, read);
    if finishes {
        let variables = store_written(g, v, ran.variables);
        return Ran { variables, ..ran };
    }
    ran
}

// The set of thread k is emptied by its finish.
fn empty(finishes: bool, held: &mut [u32], k: u8)
    requires { finishes ≡ true → 64 * k + 64 ≤ length held.old }
    ensures { held.new ≡ emptied_by finishes held.old k }
{
    if finishes {
        hold(held, k, Variables { at: [0u32; 64] });
    }
}

// Document 01: "the segment runs whole", at the cycle of its thread's record.
fn run_call(
    finishes: bool,
    reach: &[u64],
    t: u8,
    g: Segment,
    site: Site,
    threads: Threads,
    held: &mut [u32],
    k: ThreadNo,
) -> After
    requires t_bound { t ≤ 32 }
    requires k_lt_t { k.0 < t }
    requires k_in_bounds { finishes ≡ true → 64 * k.0 + 64 ≤ length held.old }
    requires g_bound { places_with (log_of site) (cycle_of (thread_at threads.at k.0).state) (notified_by (body_of g)) ≤ 128 }
    ensures held { held.new ≡ emptied_by finishes held.old k.0 }
    ensures left { result ≡ after_of (run_on finishes reach.now t g site threads.at held.old k.0) }
{
    let i = usize::from(k.0);
    let s = threads.at[i].segment;
    let c = model_effect::cycle_of(threads.at[i].state);
    let ran = ran_by(finishes, g, s, c, site.variables, held, k.0);
    empty(finishes, held, k.0);
    let at = Stamp {
        cycle: c,
        thread: k,
    };
    finish(reach, t, ran, site, threads, at)
}

// Document 02, slip 7: "Until its finish a thread is running": the variables are held, and its record is running at its cycle.
fn start(site: Site, threads: Threads, held: &mut [u32], k: u8) -> After
    requires { (k < 32) × (64 * k + 64 ≤ length held.old) }
    ensures held { held.new ≡ with_held held.old k site.variables.at }
    ensures left { result ≡ after_of (running_from site threads.at k) }
{
    let i = usize::from(k);
    let segment = threads.at[i].segment;
    let c = model_effect::cycle_of(threads.at[i].state);
    hold(held, k, site.variables);
    let mut begun = threads;
    begun.at[i] = Thread {
        segment,
        state: State::Running(c),
    };
    After {
        answer: Answer::Granted(segment, c),
        site,
        threads: begun,
    }
}

// A call on a fit state, of a thread in segment g: decided, then begun or run, after mapping. A row of distances is worked out in the room
// that is lent for it; `counted` has the log with what is counted.
pub fn called(
    desk: &Desk<'_>,
    room: &mut [u64],
    g: Segment,
    counted: Site,
    site: Site,
    threads: Threads,
    held: &mut [u32],
    call: Call,
) -> After
    requires { (desk.now.t ≤ 32) × ((ws : List ℕ) × Shows desk.now.n desk.now.t ws (is_by_steps desk.now.from) (lent_of desk.now.from) (length room.old) threads.at) × EnoughHeld desk.now.t held.old call × HasRoom desk.now.t g counted site threads.at call }
    ensures kept { length room.new ≡ length room.old }
    ensures held { (ws : List ℕ) → Shows desk.now.n desk.now.t ws (is_by_steps desk.now.from) (lent_of desk.now.from) (length room.old) threads.at → held.new ≡ (called_on (desk.now.horizon.0 + 1) desk.now.n desk.now.t (segment_with (ports_in desk.now.starts (thread_of call)) g) (conflicts_on desk.now.marks desk.now.names.now desk.now.starts) ws desk.now.reach.now counted site threads.at held.old call).held }
    ensures left { (ws : List ℕ) → Shows desk.now.n desk.now.t ws (is_by_steps desk.now.from) (lent_of desk.now.from) (length room.old) threads.at → result ≡ after_of (called_on (desk.now.horizon.0 + 1) desk.now.n desk.now.t (segment_with (ports_in desk.now.starts (thread_of call)) g) (conflicts_on desk.now.marks desk.now.names.now desk.now.starts) ws desk.now.reach.now counted site threads.at held.old call).left }
{
    let k = thread_of(call);
    let places = places_of(desk.t, model_effect::listed(g), counted, threads, k);
    let decided = decide_call(desk, room, places, site, threads, call);
    if let Err(r) = decided {
        return refused(u8::from(r), site, threads);
    }
    if is_grant(call) {
        return start(site, threads, held, k);
    }
    let ports = early_ports::ports_of(desk.starts, usize::from(k));
    let own = early_ports::segment_for(ports, g);
    run_call(
        is_finish(call),
        desk.reach,
        desk.t,
        own,
        site,
        threads,
        held,
        ThreadNo(k),
    )
}

// The segment that thread k is in, 0 where there is no such thread.
pub fn segment_of(threads: Threads, t: u8, k: u8) -> usize
    requires { t ≤ 32 }
    ensures { result ≡ cond (ltb k t) (thread_at threads.at k).segment 0 }
{
    if k < t {
        usize::from(threads.at[usize::from(k)].segment)
    } else {
        0
    }
}
