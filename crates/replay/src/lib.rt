// A list of calls, all of it made on the fresh state: of a held model, and of a file's bytes.
#![tactic(auto)]

ghost use Rattle.std.specs.Prelude.{◌*◌, ◌≡◌, ◌||◌, ltb, length};
ghost use Rattle.refusal.specs.Number.{number_of};
ghost use Rattle.reader.specs.File.{read_file};
ghost use Rattle.early.specs.ByRows.{LeftFree};
ghost use Rattle.replay.specs.Replay.{refused_with, replayed_on, words_on, held_on, answers_on, replayed_by_rows, held_by_rows, answers_by_rows, replayed_of, words_after, held_after, answers_after, Keeps};

use early::Site;
use model::{Model, Threads};
use refusal::Refusal;

// What a replay leaves: the number of the refusal or 0, how many calls were not refused, the counts of variables and threads, the state
// and the records.
#[derive(Clone, Copy)]
pub struct Replayed {
    pub number: u8,
    pub granted: u64,
    pub v: u8,
    pub t: u8,
    pub site: Site,
    pub threads: Threads,
}

// Beside a number all else is zero, as the fresh state of a zero model is.
fn refused(r: Refusal) -> Replayed
    ensures { result ≡ refused_with (number_of r) }
{
    Replayed {
        number: u8::from(r),
        granted: 0,
        v: 0,
        t: 0,
        site: early_request::fresh_site(),
        threads: model_effect::no_threads(),
    }
}

// 11 of what is lent: fewer than 5 words for each call, or fewer than 64 held values for each of t threads.
fn is_unfit_lent(t: u8, held: usize, calls: usize, words: usize) -> bool
    ensures { result ≡ ltb words (5 * calls) || ltb held (64 * t) }
{
    words / 5 < calls || held < 64 * usize::from(t)
}

// Every call of the list, the first on the fresh state of a held model, each later one on what the last one left: 11 for a buffer of
// fewer than 5 words for each call or fewer than 64 held values for each thread, then 11 and 16 of the tables. The held values are left as
// the list leaves them, so that a thread that is still running can be finished. Demand 3 is said of what is left.
pub fn replay_on(
    m: Model,
    words: &mut [u64],
    held: &mut [u32],
    calls: &[u16],
    answers: &mut [u64],
) -> Replayed
    ensures outcome { result ≡ replayed_on m words.old held.old calls.now answers.old }
    ensures tables { words.new ≡ words_on m words.old held.old calls.now answers.old }
    ensures holds { held.new ≡ held_on m words.old held.old calls.now answers.old }
    ensures written { answers.new ≡ answers_on m words.old held.old calls.now answers.old }
    ensures keeps { result.number ≡ 0 → Keeps m held.old calls.now result held.new }
{
    if is_unfit_lent(m.t, held.len(), calls.len(), answers.len()) {
        return refused(Refusal::Unfit);
    }
    if let Err(r) = tables_distance::distances(m, words) {
        return refused(r);
    }
    let fresh = early_request::fresh(m);
    let marks = tables_conflict::conflict_marks(m);
    let n = usize::from(m.n);
    let left = early_list::calls(
        m,
        marks,
        &words[..n * n],
        fresh.site,
        fresh.threads,
        held,
        calls,
        answers,
    );
    Replayed {
        number: 0,
        granted: left.granted,
        v: m.v,
        t: m.t,
        site: left.site,
        threads: left.threads,
    }
}

// Document 02, slip 6: the same by rows, in 64 words that are left free: 11 for what is lent, 11 for the model, then 16.
pub fn replay_by_rows(
    m: Model,
    row: &mut [u64],
    held: &mut [u32],
    calls: &[u16],
    answers: &mut [u64],
) -> Replayed
    ensures free { LeftFree row.old row.new }
    ensures outcome { result ≡ replayed_by_rows m (length row.old) held.old calls.now answers.old }
    ensures holds { held.new ≡ held_by_rows m (length row.old) held.old calls.now answers.old }
    ensures written { answers.new ≡ answers_by_rows m (length row.old) held.old calls.now answers.old }
    ensures keeps { result.number ≡ 0 → Keeps m held.old calls.now result held.new }
{
    if is_unfit_lent(m.t, held.len(), calls.len(), answers.len()) {
        return refused(Refusal::Unfit);
    }
    let fresh = early_request::fresh(m);
    if fresh.number != 0 {
        return refused(Refusal::Unfit);
    }
    if row.len() < 64 {
        return refused(Refusal::ShortTable);
    }
    let marks = tables_conflict::conflict_marks(m);
    let after = early_list::calls_by_rows(
        m,
        marks,
        row,
        fresh.site,
        fresh.threads,
        held,
        calls,
        answers,
    );
    Replayed {
        number: 0,
        granted: after.granted,
        v: m.v,
        t: m.t,
        site: after.site,
        threads: after.threads,
    }
}

// The same as `replay_on` from a file's bytes: the file's number first.
pub fn replay(
    file: &[u8],
    words: &mut [u64],
    held: &mut [u32],
    calls: &[u16],
    answers: &mut [u64],
) -> Replayed
    ensures outcome { result ≡ replayed_of file.now words.old held.old calls.now answers.old }
    ensures tables { words.new ≡ words_after file.now words.old held.old calls.now answers.old }
    ensures holds { held.new ≡ held_after file.now words.old held.old calls.now answers.old }
    ensures written { answers.new ≡ answers_after file.now words.old held.old calls.now answers.old }
    ensures keeps { result.number ≡ 0 → Keeps (read_file file.now).model held.old calls.now result held.new }
{
    match reader_file::read_file(file) {
        Ok(m) => replay_on(m, words, held, calls, answers),
        Err(r) => refused(r),
    }
}
