// Document 01, "Early issue": bounds as limits, forecast and earliest on them, by the ways to the events.
#![tactic(auto)]

ghost use Rattle.std.specs.Prelude.{◌≡◌, ◌+◌, ◌*◌, ◌≤◌, ◌<◌, get_or};
ghost use Rattle.tables.specs.Word.{all_ones};
ghost use Rattle.early_limits.specs.Limit.{limit_of_cycle, limit_of_word, lesser, sum_of, raised_limit, is_sooner_limit, at_most};
ghost use Rattle.early_limits.specs.Ahead.{forecast_at, relaxed_at, relaxed_limits, earliest_limits};

use clock::Cycle;
use early_limits::{Crew, Limits};
use model::CUT_TIME;

// Document 01: "'never' as all ones".
const NEVER: u64 = u64::MAX;

// A delta is below this.
const UNIT: u64 = 65536;

// From here on a limit stands for never in a sum.
const TOP: u64 = 4611686018427387904;

// A cycle as a limit.
pub fn limit_of(c: Cycle) -> u64
    ensures { result ≡ limit_of_cycle c }
{
    let t = c.time.0;
    if t >= 70368744177664 {
        return NEVER;
    }
    t * UNIT + u64::from(c.delta.0)
}

// Document 01: a distance, "Stored as time × 1,024 + delta in a 64-bit word", as a limit.
pub fn limit_of_word(w: u64) -> u64
    ensures { result ≡ limit_of_word w }
{
    let t = w / 1024;
    if t >= CUT_TIME {
        return NEVER;
    }
    t * UNIT + w % 1024
}

// Document 01: "a distance is added as the clock says": a time wait starts the delta anew.
pub fn sum_of(a: u64, d: u64) -> u64
    ensures { result ≡ sum_of a d }
{
    if a >= TOP || d >= TOP {
        return NEVER;
    }
    if d < UNIT {
        return a + d;
    }
    a / UNIT * UNIT + d
}

// Document 02, slip 5: a limit, or that of the cycle in which a wait began where that is later. Never is later than all.
fn raised_limit(since: u64, x: u64) -> u64
    ensures { result ≡ raised_limit since x }
{
    x.max(since)
}

// Thread j at limit b, at a smaller stamp than thread i at c.
pub fn is_sooner_limit(b: u64, j: usize, c: u64, i: usize) -> bool
    ensures { result ≡ is_sooner_limit b j c i }
{
    b < c || b == c && j < i
}

// The way from a segment to event e; never past the end.
fn reach_at(reach: &[u64], segment: u8, e: u8) -> u64
    ensures { result ≡ get_or reach.now (segment * 32 + e) all_ones }
{
    let k = usize::from(segment) * 32 + usize::from(e);
    if k < reach.len() { reach[k] } else { NEVER }
}

// Term: forecast of event e.
pub fn forecast(reach: &[u64], segments: [u8; 32], xs: Limits, t: u8, e: u8) -> u64
    ensures { result ≡ forecast_at reach.now segments xs.at t e }
{
    let mut least = NEVER;
    for j in 0..usize::from(t).min(32) {
        least = least.min(sum_of(xs.at[j], reach_at(reach, segments[j], e)));
    }
    least
}

// The limit of thread k after one more round: one that waits on an event is woken one delta after it, and not before the delta after its
// wait began.
fn relaxed_at(reach: &[u64], crew: &Crew, xs: &Limits, t: u8, k: usize) -> u64
    requires { k < 32 }
    ensures { result ≡ relaxed_at reach.now crew.now xs.now.at t k }
{
    let e = crew.events[k];
    if e >= 32 {
        return xs.at[k];
    }
    let notified = raised_limit(crew.since[k], forecast(reach, crew.segments, *xs, t, e));
    xs.at[k].min(sum_of(notified, 1))
}

// One more round, from the limits of the last.
fn relaxed_limits(reach: &[u64], crew: Crew, xs: Limits, t: u8) -> Limits
    ensures { result.at ≡ relaxed_limits reach.now crew t xs.at }
{
    let mut out = xs;
    for k in 0..usize::from(t).min(32) {
        out.at[k] = relaxed_at(reach, &crew, &xs, t, k);
    }
    out
}

// Term: earliest, of every thread. Once a round changes nothing, no later one does.
pub fn earliest(reach: &[u64], crew: Crew, xs: Limits, t: u8) -> Limits
    ensures { result.at ≡ earliest_limits reach.now crew t xs.at }
{
    let mut x = xs;
    for _ in 0..t {
        let y = relaxed_limits(reach, crew, x, t);
        if x.at == y.at {
            return y;
        }
        x = y;
    }
    x
}
