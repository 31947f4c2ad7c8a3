// Document 01, "Early issue": the core on plain values.
#![tactic(auto)]

ghost use Rattle.std.specs.Prelude.{◌≤◌, ◌≡◌, false, length};
ghost use Rattle.plain.specs.Start.{fresh_threads};
ghost use Rattle.tables_row.specs.Row.{Knows};
ghost use Rattle.early.specs.Fit.{is_unfit, is_unfit_state};
ghost use Rattle.early.specs.Request.{fresh_site, request_of, Answers};
ghost use Rattle.early.specs.ByRows.{request_by_rows, LeftFree};
ghost use Rattle.early.specs.Call.{call_fit, call_of, call_by_rows};
ghost use Rattle.early_row.specs.Lent.{is_by_steps, lent_of};
ghost use Rattle.early_answer.specs.After.{after_of};
ghost use Rattle.early_answer.specs.Answered.{EnoughHeld};
ghost use Rattle.early_answer.specs.Shown.{table_by};
ghost use Rattle.early_request.specs.Fresh.{fresh_of};
ghost use Rattle.early_request.specs.Rows.{rows_fit};

use clock::{Cycle, Delta, ThreadNo, Time};
use early::{After, Call, Notification, Site};
use early_answer::Desk;
use early_row::Distances;
use model::{Model, State, Thread, Threads, Variables};

// The number, 0 where the model is accepted; then the fresh state and the fresh records, all zero beside a number.
#[derive(Clone, Copy)]
pub struct FreshState {
    pub number: u8,
    pub site: Site,
    pub threads: Threads,
}

// The variables and the log, all zero.
pub fn fresh_site() -> Site
    ensures { result ≡ fresh_site }
{
    let c = Cycle {
        time: Time(0),
        delta: Delta(0),
    };
    let x = Notification { event: 0, cycle: c };
    Site {
        variables: Variables { at: [0u32; 64] },
        log: [x; 128],
        count: 0,
    }
}

// Document 01: "All threads start ready at (0, 0)".
fn fresh_threads(m: Model) -> Threads
    requires { m.t ≤ 32 }
    ensures { result.at ≡ fresh_threads m }
{
    let n = usize::from(m.t);
    let mut ts = model_effect::no_threads();
    for (k, s) in m.starts[..n].iter().enumerate() {
        let c = Cycle {
            time: Time(0),
            delta: Delta(0),
        };
        ts.at[k] = Thread {
            segment: s.first,
            state: State::Ready(c),
        };
    }
    ts
}

// The fresh state of a model.
pub fn fresh(m: Model) -> FreshState
    ensures { result ≡ fresh_of m }
{
    let site = fresh_site();
    if model_rules::model_fault(m).is_err() {
        let threads = model_effect::no_threads();
        return FreshState {
            number: 11,
            site,
            threads,
        };
    }
    let threads = fresh_threads(m);
    FreshState {
        number: 0,
        site,
        threads,
    }
}

// A call on a fit state.
fn call_fit(
    m: Model,
    marks: [[bool; 64]; 64],
    from: Distances<'_>,
    room: &mut [u64],
    site: Site,
    threads: Threads,
    held: &mut [u32],
    call: Call,
) -> After
    requires { (is_unfit m (table_by (is_by_steps from) m (lent_of from)) site threads.at ≡ false) × Knows m.n (table_by (is_by_steps from) m (lent_of from)) (is_by_steps from) (lent_of from) (length room.old) × EnoughHeld m.t held.old call }
    ensures kept { length room.new ≡ length room.old }
    ensures held { held.new ≡ (call_fit m marks (table_by (is_by_steps from.entry) m (lent_of from.entry)) site threads.at held.old call).held }
    ensures left { result ≡ after_of (call_fit m marks (table_by (is_by_steps from.entry) m (lent_of from.entry)) site threads.at held.old call).left }
{
    let mut reach = [0u64; 2048];
    early_reach::fill_reach(m, from, room, &mut reach);
    let mut names = [0u64; 256];
    early_ports::fill_names(m, &mut names);
    let desk = Desk {
        horizon: m.horizon,
        n: m.n,
        t: m.t,
        starts: m.starts,
        marks,
        names: &names,
        from,
        reach: &reach,
    };
    let s = early_answer::segment_of(threads, m.t, early_answer::thread_of(call));
    let g = m.segments[s];
    let counted = early_log::counted_site(m, site, threads);
    early_answer::called(&desk, room, g, counted, site, threads, held, call)
}

// The same in the first 64 of the words that are lent, in which rows are worked out from the steps of the segments: 16 below 64.
fn rows_fit(
    m: Model,
    marks: [[bool; 64]; 64],
    lent: &mut [u64],
    site: Site,
    threads: Threads,
    held: &mut [u32],
    call: Call,
) -> After
    requires { (is_unfit_state m site threads.at ≡ false) × EnoughHeld m.t held.old call }
    ensures free { LeftFree lent.old lent.new }
    ensures held { held.new ≡ (rows_fit m marks (length lent.old) site threads.at held.old call).held }
    ensures left { result ≡ after_of (rows_fit m marks (length lent.old) site threads.at held.old call).left }
{
    if lent.len() < 64 {
        return early_answer::refused(16, site, threads);
    }
    let mut steps = [0u64; 64];
    tables_row::fill_steps(m, &mut steps);
    call_fit(
        m,
        marks,
        Distances::Steps(&steps),
        &mut lent[..64],
        site,
        threads,
        held,
        call,
    )
}

// A request: 11, then 10, 19, 12, 13, 14, 15.
// What document 01 leaves free, and what holds of it, by laws of early_laws. The order in which threads are looked at: lowest first,
// and any order leaves the same (`settled-any`). Marks: those of the first N in the row of the asking thread's segment are read, whether
// they are symmetric or not, and no others (`request_of-row`). Equal pairs handed in stay and count as they stand (`site_after-front`).
// Places past the log's count are not read, kept on a refusal, and 0 after a grant (`request_of-held`). Not read either are words past
// N × N and records past T (`request_of-unread`), variables past V (`request_of-variables`), and the model's entries past its counts
// (`request_of-entries`). Those records and variables are not written (`request_of-unwritten`, `request_of-untouched`).
pub fn request(
    m: Model,
    marks: [[bool; 64]; 64],
    words: &[u64],
    site: Site,
    threads: Threads,
    k: ThreadNo,
) -> After
    ensures left { result ≡ after_of (request_of m marks words.now site threads.at k.0) }
    ensures answers { Answers m marks words.now site threads.at k.0 result.answer }
{
    if early_fit::is_unfit(m, words, site, threads) {
        return early_answer::refused(11, site, threads);
    }
    let call = Call::Both(k.0);
    call_fit(
        m,
        marks,
        Distances::Table(words),
        &mut [],
        site,
        threads,
        &mut [],
        call,
    )
}

// Document 02, slip 6: the same "with the same distances, answers and states after", in 64 words in which rows are worked out: 11, 16, then
// 10, 19, 12, 13, 14, 15. What the words hold when it is called is not read, and what they hold after it is left free; those past the first 64 stay.
pub fn request_by_rows(
    m: Model,
    marks: [[bool; 64]; 64],
    row: &mut [u64],
    site: Site,
    threads: Threads,
    k: ThreadNo,
) -> After
    ensures free { LeftFree row.old row.new }
    ensures left { result ≡ after_of (request_by_rows m marks (length row.old) site threads.at k.0) }
{
    if early_fit::is_unfit_state(m, site, threads) {
        return early_answer::refused(11, site, threads);
    }
    rows_fit(m, marks, row, site, threads, &mut [], Call::Both(k.0))
}

// Document 02, slip 7: a request, a grant or a finish, with the values that are held: 11, also where fewer than 64 are lent for each thread;
// then as a request, or for a finish 10, 19.
pub fn call(
    m: Model,
    marks: [[bool; 64]; 64],
    words: &[u64],
    site: Site,
    threads: Threads,
    held: &mut [u32],
    call: Call,
) -> After
    ensures held { held.new ≡ (call_of m marks words.now site threads.at held.old call).held }
    ensures left { result ≡ after_of (call_of m marks words.now site threads.at held.old call).left }
{
    if early_fit::is_unfit_call(m, words, site, threads, held) {
        return early_answer::refused(11, site, threads);
    }
    let table = Distances::Table(words);
    call_fit(m, marks, table, &mut [], site, threads, held, call)
}

// The same in 64 words: 11, 16, then as above.
pub fn call_by_rows(
    m: Model,
    marks: [[bool; 64]; 64],
    row: &mut [u64],
    site: Site,
    threads: Threads,
    held: &mut [u32],
    call: Call,
) -> After
    ensures free { LeftFree row.old row.new }
    ensures held { held.new ≡ (call_by_rows m marks (length row.old) site threads.at held.old call).held }
    ensures left { result ≡ after_of (call_by_rows m marks (length row.old) site threads.at held.old call).left }
{
    if early_fit::is_unfit_call_by_rows(m, site, threads, held) {
        return early_answer::refused(11, site, threads);
    }
    rows_fit(m, marks, row, site, threads, held, call)
}
