// Document 01, "Plain run": the run with a budget.
// A model is packed into words once; the run then works on arrays of words that are lent, so that no record is copied.
#![tactic(auto)]

ghost use Rattle.std.specs.Prelude.{◌≡◌, ℕ, ◌%◌, ◌≤◌, ◌<◌, get_or, length};
ghost use Rattle.model.specs.Values.{start_at};
ghost use Rattle.model.specs.Rules.{model_fault};
ghost use Rattle.plain.specs.Start.{start_of};
ghost use Rattle.plain.specs.Run.{run_for, last_step, reported, plain_run};
ghost use Rattle.plain_words.specs.Rows.{segments_by};
ghost use Rattle.plain_state.specs.Words.{state_from, threads_to, answer};

use clock::{Cycle, Delta, Time};
use model::{Model, State, Thread, Threads, Variables};
use plain::PlainRun;
use plain_close::{ENDED, OVERRUN, WAITING};
use refusal::Refusal;

fn state_of(w: u64) -> State
    ensures { result ≡ state_from w }
{
    let key = w % 17592186044416;
    let c = Cycle {
        time: Time(key / 1024),
        delta: Delta((key % 1024) as u32),
    };
    if w < WAITING {
        State::Ready(c)
    } else if w < ENDED {
        State::Waiting((((w - WAITING) / 17592186044416) % 32) as u8, c)
    } else if w < OVERRUN {
        State::Ended(c)
    } else {
        State::Overrun(c)
    }
}

fn threads_of(state: &[u64; 32], segments: &[u8; 32], t: usize) -> Threads
    requires { t ≤ 32 }
    ensures { result.at ≡ threads_to state.now segments.now t }
{
    let mut ts = model_effect::no_threads();
    for k in 0..t {
        ts.at[k] = Thread {
            segment: segments[k],
            state: state_of(state[k]),
        };
    }
    ts
}

// The rows of the first segments of a model's threads.
fn first_rows(m: Model) -> [u8; 32]
    ensures places { length result ≡ 32 }
    ensures first { (k : ℕ) → k < 32 → get_or result k 0 ≡ (start_at m k).first % 64 }
{
    let mut rows = [0u8; 32];
    for (k, start) in m.starts.iter().enumerate() {
        rows[k] = start.first % 64;
    }
    rows
}

// No event has a thread that waits for it.
fn no_ranges() -> [usize; 66]
    ensures { length result ≡ 66 }
{
    let mut ranges = [0usize; 66];
    ranges[..33].fill(32);
    ranges
}

// What the run leaves. Its arrays are no struct, as in `plain_cycle`: with one a run took up to 3 percent more instructions.
fn result(
    v: [u32; 64],
    state: &[u64; 32],
    held: &[u8; 32],
    rows: &[u8; 32],
    t: usize,
    n: u64,
    spent: bool,
) -> PlainRun
    requires { t ≤ 32 }
    ensures { result ≡ answer v (threads_to state.now (segments_by held.now rows.now) t) n spent }
{
    let segments = plain_rows::segments_by(held, rows);
    let threads = threads_of(state, &segments, t);
    PlainRun {
        number: 0,
        variables: Variables { at: v },
        threads,
        n,
        spent,
    }
}

// The cycles of a model that keeps the file rules, one after the other. A ready word at or past the limit is not run.
// Not folded into its caller: what the judgement of the model needs of the stack is free again when the cycles begin.
#[inline(never)]
fn cycles(m: Model, budget: u64) -> PlainRun
    requires { model_fault m ≡ 0 }
    ensures { result ≡ reported m (run_for m budget (last_step m) (start_of m)) }
{
    let t = usize::from(m.t);
    let limit = 1024 * (m.horizon.0 + 1);
    let mut code = plain_pack::pack(m);
    let marked = plain_pack::any_marked(&code);
    let mut held = [255u8; 32];
    let mut rows = first_rows(m);
    let mut v = [0u32; 64];
    let mut state = [0u64; 32];
    let mut told = [false; 32];
    let mut ranges = no_ranges();
    let mut due = plain_close::due_of(&state, 0, 0, t, t);
    let mut n = 0;
    loop {
        plain_rows::prepare(marked, &mut code, &mut held, &mut rows, due.from, due.to);
        n = plain_cycle::run_cycle(
            &code,
            due,
            budget,
            n,
            &mut v,
            &mut state,
            &mut rows,
            &mut told,
            &mut ranges,
        );
        if plain_cycle::is_out(&state, t, due.key, budget, n) {
            return result(v, &state, &held, &rows, t, n, true);
        }
        due = plain_close::end_cycle(&mut state, &told, &ranges, due, t);
        if limit <= due.key {
            return result(v, &state, &held, &rows, t, n, false);
        }
        told = [false; 32];
        ranges[32] = 32;
        ranges[65] = 0;
    }
}

// The plain run: 11 for a model against the file rules, all other fields then zero.
pub fn plain_run(m: Model, budget: u64) -> PlainRun
    ensures { result ≡ plain_run m budget }
{
    match model_rules::model_fault(m) {
        Ok(()) => cycles(m, budget),
        Err(_) => PlainRun {
            number: u8::from(Refusal::Unfit),
            variables: Variables { at: [0; 64] },
            threads: model_effect::no_threads(),
            n: 0,
            spent: false,
        },
    }
}
