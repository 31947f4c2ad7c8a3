// Document 01, "Early issue": a list of calls on plain values, its answers as words.
#![tactic(auto)]

ghost use Rattle.std.specs.Prelude.{◌+◌, ◌*◌, ◌≤◌, ◌≡◌, false, [], ◌∷◌, map, length, replicate};
ghost use Rattle.std.proofs.lemmas.List.Edits.{sets};
ghost use Rattle.early.specs.Fit.{is_unfit};
ghost use Rattle.early.specs.ByRows.{LeftFree};
ghost use Rattle.early.specs.Call.{is_unfit_held, calls_of, calls_by_rows, call_at};
ghost use Rattle.early_limits.specs.Ahead.{reach_of};
ghost use Rattle.early_ports.specs.Names.{names_for};
ghost use Rattle.tables_row.specs.Row.{Knows};
ghost use Rattle.early_row.specs.Lent.{is_by_steps, lent_of};
ghost use Rattle.early_answer.specs.Shown.{table_by};
ghost use Rattle.early_list.specs.Answers.{answer_words, answers_words, grants_in, left_by, outcome_of, held_in, answers_in};

use early::{Answer, Call, Site};
use early_answer::Desk;
use early_row::Distances;
use model::{Model, Threads};

// What a list of calls leaves: 11 where the buffer is short, how many were not refused, the state and the records.
#[derive(Clone, Copy)]
pub struct Outcome {
    pub number: u8,
    pub granted: u64,
    pub site: Site,
    pub threads: Threads,
}

// A call as a word: the thread, with 256 more for a grant and 512 more for a finish; thread 255 where it is above that.
pub fn call_at(w: u16) -> Call
    ensures { result ≡ call_at w }
{
    match w {
        0..=255 => Call::Both(w as u8),
        256..=511 => Call::Grant((w - 256) as u8),
        512..=767 => Call::Finish((w - 512) as u8),
        _ => Call::Finish(255),
    }
}

// Whether an answer is no refusal, as a number.
fn grants_in(a: Answer) -> u64
    ensures { result ≡ grants_in a }
{
    u64::from(matches!(a, Answer::Granted(_, _)))
}

// Five words of an answer, from a place on.
fn put_words(
    answers: &mut [u64],
    at: usize,
    call: u64,
    number: u64,
    segment: u64,
    time: u64,
    delta: u64,
)
    requires { at + 5 ≤ length answers.old }
    ensures { answers.new ≡ sets answers.old at (call ∷ number ∷ segment ∷ time ∷ delta ∷ []) }
{
    answers[at..at + 5].copy_from_slice(&[call, number, segment, time, delta]);
}

fn put_answer(answers: &mut [u64], at: usize, w: u16, a: Answer)
    requires { at + 5 ≤ length answers.old }
    ensures { answers.new ≡ sets answers.old at (answer_words w a) }
{
    match a {
        Answer::Granted(s, c) => {
            put_words(
                answers,
                at,
                u64::from(w),
                0,
                u64::from(s),
                c.time.0,
                u64::from(c.delta.0),
            );
        }
        Answer::Refused(n) => {
            put_words(answers, at, u64::from(w), u64::from(n), 0, 0, 0);
        }
    }
}

// Every answer is one number.
fn refuse_all(answers: &mut [u64], calls: &[u16], number: u8)
    requires { 5 * length calls.now ≤ length answers.old }
    ensures { answers.new ≡ sets answers.old 0 (answers_words calls.now (replicate (length calls.now) (Answer.Refused number))) }
{
    for (i, w) in calls.iter().enumerate() {
        put_answer(answers, 5 * i, *w, Answer::Refused(number));
    }
}

// The calls one after the other, on a fit state.
fn answer_all(
    m: Model,
    marks: [[bool; 64]; 64],
    names: &[u64],
    from: Distances<'_>,
    room: &mut [u64],
    reach: &[u64],
    site: Site,
    threads: Threads,
    held: &mut [u32],
    calls: &[u16],
    answers: &mut [u64],
) -> Outcome
    requires { (is_unfit m (table_by (is_by_steps from) m (lent_of from)) site threads.at ≡ false) × (is_unfit_held m held.old ≡ false) × ((names.now ≡ names_for m (replicate 256 0)) × (reach.now ≡ reach_of m (table_by (is_by_steps from) m (lent_of from))) × Knows m.n (table_by (is_by_steps from) m (lent_of from)) (is_by_steps from) (lent_of from) (length room.old) × (5 * length calls.now ≤ length answers.old)) }
    ensures kept { length room.new ≡ length room.old }
    ensures left { result ≡ left_by (calls_of m marks (table_by (is_by_steps from.entry) m (lent_of from.entry)) site threads.at held.old (map call_at calls.now)).listed }
    ensures held { held.new ≡ (calls_of m marks (table_by (is_by_steps from.entry) m (lent_of from.entry)) site threads.at held.old (map call_at calls.now)).held }
    ensures written { answers.new ≡ sets answers.old 0 (answers_words calls.now (calls_of m marks (table_by (is_by_steps from.entry) m (lent_of from.entry)) site threads.at held.old (map call_at calls.now)).listed.answers) }
{
    let desk = Desk {
        horizon: m.horizon,
        n: m.n,
        t: m.t,
        starts: m.starts,
        marks,
        names,
        from,
        reach,
    };
    let mut s = site;
    let mut ts = threads;
    let mut granted: u64 = 0;
    for (i, w) in calls.iter().enumerate() {
        let call = call_at(*w);
        let j = early_answer::segment_of(ts, m.t, early_answer::thread_of(call));
        let g = m.segments[j];
        let counted = early_log::counted_site(m, s, ts);
        let a = early_answer::called(&desk, room, g, counted, s, ts, held, call);
        put_answer(answers, 5 * i, *w, a.answer);
        granted += grants_in(a.answer);
        s = a.site;
        ts = a.threads;
    }
    Outcome {
        number: 0,
        granted,
        site: s,
        threads: ts,
    }
}

// What every call of a list reads is made once: the ways to the events, and the names of the variables.
fn answer_fit(
    m: Model,
    marks: [[bool; 64]; 64],
    from: Distances<'_>,
    room: &mut [u64],
    site: Site,
    threads: Threads,
    held: &mut [u32],
    calls: &[u16],
    answers: &mut [u64],
) -> Outcome
    requires { (is_unfit m (table_by (is_by_steps from) m (lent_of from)) site threads.at ≡ false) × (is_unfit_held m held.old ≡ false) × (Knows m.n (table_by (is_by_steps from) m (lent_of from)) (is_by_steps from) (lent_of from) (length room.old) × (5 * length calls.now ≤ length answers.old)) }
    ensures kept { length room.new ≡ length room.old }
    ensures left { result ≡ left_by (calls_of m marks (table_by (is_by_steps from.entry) m (lent_of from.entry)) site threads.at held.old (map call_at calls.now)).listed }
    ensures held { held.new ≡ (calls_of m marks (table_by (is_by_steps from.entry) m (lent_of from.entry)) site threads.at held.old (map call_at calls.now)).held }
    ensures written { answers.new ≡ sets answers.old 0 (answers_words calls.now (calls_of m marks (table_by (is_by_steps from.entry) m (lent_of from.entry)) site threads.at held.old (map call_at calls.now)).listed.answers) }
{
    let mut reach = [0u64; 2048];
    early_reach::fill_reach(m, from, room, &mut reach);
    let mut names = [0u64; 256];
    early_ports::fill_names(m, &mut names);
    answer_all(
        m, marks, &names, from, room, &reach, site, threads, held, calls, answers,
    )
}

// Nothing was done.
fn undone(number: u8, site: Site, threads: Threads) -> Outcome
    ensures { result ≡ record { number = number; granted = 0; site = site; threads = threads } }
{
    Outcome {
        number,
        granted: 0,
        site,
        threads,
    }
}

// A list of calls: 11 is asked once, and the answers are written five words each. What is left free is as in `call`; words of the
// buffer past the answers stay.
pub fn calls(
    m: Model,
    marks: [[bool; 64]; 64],
    words: &[u64],
    site: Site,
    threads: Threads,
    held: &mut [u32],
    calls: &[u16],
    answers: &mut [u64],
) -> Outcome
    ensures left { result ≡ outcome_of (calls_of m marks words.now site threads.at held.old (map call_at calls.now)) site threads.at calls.now answers.old }
    ensures held { held.new ≡ held_in (calls_of m marks words.now site threads.at held.old (map call_at calls.now)) held.old calls.now answers.old }
    ensures written { answers.new ≡ answers_in (calls_of m marks words.now site threads.at held.old (map call_at calls.now)) calls.now answers.old }
{
    if answers.len() / 5 < calls.len() {
        return undone(11, site, threads);
    }
    if early_fit::is_unfit_call(m, words, site, threads, held) {
        refuse_all(answers, calls, 11);
        return undone(0, site, threads);
    }
    let from = Distances::Table(words);
    answer_fit(m, marks, from, &mut [], site, threads, held, calls, answers)
}

// Document 02, slip 6: the same by rows. 11, then 16 below 64 words, are asked once; the words are left free, as in `call_by_rows`.
pub fn calls_by_rows(
    m: Model,
    marks: [[bool; 64]; 64],
    row: &mut [u64],
    site: Site,
    threads: Threads,
    held: &mut [u32],
    calls: &[u16],
    answers: &mut [u64],
) -> Outcome
    ensures free { LeftFree row.old row.new }
    ensures left { result ≡ outcome_of (calls_by_rows m marks (length row.old) site threads.at held.old (map call_at calls.now)) site threads.at calls.now answers.old }
    ensures held { held.new ≡ held_in (calls_by_rows m marks (length row.old) site threads.at held.old (map call_at calls.now)) held.old calls.now answers.old }
    ensures written { answers.new ≡ answers_in (calls_by_rows m marks (length row.old) site threads.at held.old (map call_at calls.now)) calls.now answers.old }
{
    if answers.len() / 5 < calls.len() {
        return undone(11, site, threads);
    }
    if early_fit::is_unfit_call_by_rows(m, site, threads, held) {
        refuse_all(answers, calls, 11);
        return undone(0, site, threads);
    }
    if row.len() < 64 {
        refuse_all(answers, calls, 16);
        return undone(0, site, threads);
    }
    let mut steps = [0u64; 64];
    tables_row::fill_steps(m, &mut steps);
    answer_fit(
        m,
        marks,
        Distances::Steps(&steps),
        &mut row[..64],
        site,
        threads,
        held,
        calls,
        answers,
    )
}
