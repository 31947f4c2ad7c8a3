// Document 01, "Numbers of refusal": 11 in a request.
#![tactic(auto)]

ghost use Rattle.std.specs.Prelude.{◌≡◌, ◌&&◌, ◌||◌, ℕ, ◌≤◌, ◌<◌};
ghost use Rattle.masks.specs.Mask.{bit_at};
ghost use Rattle.model.specs.Limits.{record_time};
ghost use Rattle.model.specs.Record.{thread_at, cycle_of, awaited_by};
ghost use Rattle.model.specs.Reach.{lacks_from};
ghost use Rattle.model_reach.specs.Lacks.{HoldsLacks};
ghost use Rattle.early.specs.Call.{is_unfit_held};
ghost use Rattle.early.specs.Fit.{is_fit_cycle, is_fit_wait, is_fit_run, is_fit_thread, is_fit_pair, is_unfit_threads, is_unfit_log, is_unfit_places, is_unfit_words, is_unfit_state, is_unfit};

use clock::Cycle;
use early::{Notification, Site};
use model::{CUT_TIME, CUT_WORD, Model, RECORD_TIME, State, Thread, Threads};

// Document 01: "all ones apart".
const NEVER: u64 = 18446744073709551615;

// A time below the limit, and no "delta above 1,023".
#[tactic(auto, unfolding(early::specs::Fit::is_fit_cycle))]
fn is_fit_cycle(c: Cycle, limit: u64) -> bool
    ensures { result ≡ is_fit_cycle limit c }
{
    c.time.0 < limit && c.delta.0 <= 1023
}

// The cycle of a state, whichever it is, the event that it waits on, one of E, and no "running record later than H".
#[tactic(auto, unfolding(early::specs::Fit::is_fit_wait, early::specs::Fit::is_fit_run, model::specs::Limits::is_up_to_horizon))]
fn is_fit_state(m: &Model, state: State) -> bool
    ensures { result ≡ (is_fit_cycle record_time (cycle_of state) && (is_fit_wait m.now (awaited_by state) && is_fit_run m.now state)) }
{
    match state {
        State::Ended(c) | State::Overrun(c) | State::Ready(c) => is_fit_cycle(c, RECORD_TIME),
        State::Waiting(w, c) => is_fit_cycle(c, RECORD_TIME) && w < m.e,
        State::Running(c) => c.time.0 <= m.horizon.0 && is_fit_cycle(c, RECORD_TIME),
    }
}

// No "segment not below N", and none from which its thread could reach a port it leaves unused: those are the bits of a word.
fn is_fit_thread(m: &Model, x: Thread, lacking: u64) -> bool
    ensures { (k : ℕ) → ((s : ℕ) → s < m.now.n → bit_at lacking s ≡ lacks_from m.now k s) → result ≡ is_fit_thread m.now k x }
{
    x.segment < m.n && !masks::has(lacking, usize::from(x.segment)) && is_fit_state(m, x.state)
}

// No "event not below E" in the log.
#[tactic(auto, unfolding(early::specs::Fit::is_fit_pair))]
fn is_fit_pair(m: &Model, x: Notification) -> bool
    ensures { result ≡ is_fit_pair m.now x }
{
    x.event < m.e && is_fit_cycle(x.cycle, CUT_TIME)
}

// The records of the first T threads; word k has the segments from which thread k could reach a port it leaves unused.
fn is_unfit_threads(m: &Model, threads: Threads, lacking: [u64; 32]) -> bool
    requires { (m.now.t ≤ 32) × (m.now.n ≤ 64) }
    ensures { HoldsLacks m.now lacking → result ≡ is_unfit_threads m.now threads.at }
{
    let count = usize::from(m.t);
    threads.at[..count]
        .iter()
        .zip(&lacking)
        .any(|(x, w)| !is_fit_thread(m, *x, *w))
}

// The places below the count, "log count above 128" first.
fn is_unfit_log(m: &Model, site: Site) -> bool
    ensures { result ≡ is_unfit_log m.now site }
{
    let count = usize::from(site.count);
    128 < count || site.log[..count].iter().any(|x| !is_fit_pair(m, *x))
}

// Document 02, slip 7: "log and counted places above 128 together". Where nothing runs nothing is counted.
#[tactic(auto, unfolding(early::specs::Fit::is_unfit_places))]
fn is_unfit_places(m: Model, site: Site, threads: Threads) -> bool
    requires { (m.t ≤ 32) × ((j : ℕ) → j < m.t → (thread_at threads.at j).segment < 64) }
    ensures { result ≡ is_unfit_places m site threads.at }
{
    early_log::any_running(threads, m.t) && early_log::counted(m, site, threads).is_none()
}

// The words: "distance words below N × N", then each of the first N × N: "all ones apart", a time above 1,000,000,000.
fn is_unfit_words(m: &Model, words: &[u64]) -> bool
    ensures { result ≡ is_unfit_words m.now words.now }
{
    let row = usize::from(m.n);
    let count = row * row;
    words.len() < count || words[..count].iter().any(|w| *w >= CUT_WORD && *w != NEVER)
}

// Whether 11 applies to the model, the records and the state: a held model against the file rules, or a state that does not fit it.
pub fn is_unfit_state(m: Model, site: Site, threads: Threads) -> bool
    ensures { result ≡ is_unfit_state m site threads.at }
{
    if model_rules::parts_fault(m).is_err() {
        return true;
    }
    let lacking = model_reach::lacks(m);
    if model_rules::lack_in(m.starts, m.t, lacking).is_err() {
        return true;
    }
    is_unfit_threads(&m, threads, lacking)
        || is_unfit_log(&m, site)
        || is_unfit_places(m, site, threads)
}

// Whether 11 applies: that, or words that do not fit the model.
// Not folded into its callers, nor are the next two: what judging copies of the model is free again when the call goes on.
#[inline(never)]
#[tactic(auto, unfolding(early::specs::Fit::is_unfit))]
pub fn is_unfit(m: Model, words: &[u64], site: Site, threads: Threads) -> bool
    ensures { result ≡ is_unfit m words.now site threads.at }
{
    is_unfit_state(m, site, threads) || is_unfit_words(&m, words)
}

// Document 02, slip 7: fewer values held than 64 for each of T threads.
#[tactic(auto, unfolding(early::specs::Call::is_unfit_held))]
fn is_unfit_held(m: &Model, held: &[u32]) -> bool
    ensures { result ≡ is_unfit_held m.now held.now }
{
    held.len() < 64 * usize::from(m.t)
}

// Whether 11 applies to a call: to the state and the words, or to what is held. By way of `is_unfit` a model more would be copied.
#[inline(never)]
#[tactic(auto, unfolding(early::specs::Fit::is_unfit))]
pub fn is_unfit_call(m: Model, words: &[u64], site: Site, threads: Threads, held: &[u32]) -> bool
    ensures { result ≡ (is_unfit m words.now site threads.at || is_unfit_held m held.now) }
{
    is_unfit_state(m, site, threads) || is_unfit_words(&m, words) || is_unfit_held(&m, held)
}

// The same by rows, which have no words to test.
#[inline(never)]
pub fn is_unfit_call_by_rows(m: Model, site: Site, threads: Threads, held: &[u32]) -> bool
    ensures { result ≡ (is_unfit_state m site threads.at || is_unfit_held m held.now) }
{
    is_unfit_state(m, site, threads) || is_unfit_held(&m, held)
}
