// Document 01, "Early issue": "the public request then works on a lent slice of thread records, at least as many as the
// threads; records past those are neither read nor written".
#![tactic(auto)]

ghost use Rattle.std.specs.Prelude.{◌≡◌, ◌<◌, ◌≤◌, length, take, drop};
ghost use Rattle.early.specs.Request.{request_of, Answers};
ghost use Rattle.early.specs.ByRows.{request_by_rows, LeftFree};
ghost use Rattle.early.specs.Call.{call_of, call_by_rows};
ghost use Rattle.early_lent.specs.Answered.{asked_of, lent_of, request_first};
ghost use Rattle.early_lent.specs.Moved.{loaded, stored, moved_of, request_lent, rows_lent, call_lent, call_rows_lent, done_of};

use clock::ThreadNo;
use early::{Answer, Call, Site};
use model::{Model, Thread, Threads};

// The answer of a request, and the state beside it; the records stand in the slice.
#[derive(Clone, Copy)]
pub struct Asked {
    pub answer: Answer,
    pub site: Site,
}

#[derive(Clone, Copy)]
struct Done {
    asked: Asked,
    threads: Threads,
}

// How many records are moved: one for each thread, and no more than are lent or held by value. A function, since the
// proofs of four others go by its clause.
fn moved(lent: usize, t: u8) -> usize
    ensures { result ≡ moved_of lent t }
{
    lent.min(usize::from(t).min(32))
}

// The first n records of ts, over those of to.
fn load(ts: &[Thread], n: usize, to: Threads) -> Threads
    requires { (n ≤ length ts.now) × (n ≤ 32) }
    ensures { result ≡ loaded ts.now n to }
{
    let mut at = to.at;
    at[..n].copy_from_slice(&ts[..n]);
    Threads { at }
}

// The first n records of from, over those of ts.
fn store(ts: &mut [Thread], n: usize, from: Threads)
    requires { (n ≤ length ts.old) × (n ≤ 32) }
    ensures { ts.new ≡ stored ts.old n from }
{
    ts[..n].copy_from_slice(&from.at[..n]);
}

// The core, on the records of a slice of so many: 11 where they are fewer than the threads.
fn request_of(
    m: Model,
    marks: [[bool; 64]; 64],
    words: &[u64],
    site: Site,
    before: Threads,
    lent: usize,
    k: ThreadNo,
) -> Done
    ensures { result ≡ done_of (request_lent m marks words.now site before lent k.0) }
{
    let t = m.t;
    if lent < t as usize {
        let answer = Answer::Refused(11);
        return Done {
            asked: Asked { answer, site },
            threads: before,
        };
    }
    let after = early_request::request(m, marks, words, site, before, k);
    let answer = after.answer;
    let site = after.site;
    let threads = after.threads;
    Done {
        asked: Asked { answer, site },
        threads,
    }
}

// Document 01: "A request answers either the segment run with its cycle, or one refusal number."
// What document 01 leaves free is as in `early_request::request`, with the laws that say so. Demand 3 speaks of a list of these calls
// (`order-independence` of order).
pub fn request(
    m: Model,
    marks: [[bool; 64]; 64],
    words: &[u64],
    site: Site,
    threads: &mut [Thread],
    k: ThreadNo,
) -> Asked
    ensures { (result ≡ asked_of (request_of m marks words.now site threads.old k.0))
        × (threads.new ≡ (request_of m marks words.now site threads.old k.0).threads)
        × Answers m marks words.now site threads.old k.0 result.answer }
{
    let lent = threads.len();
    let n = moved(lent, m.t);
    let before = load(threads, n, model_effect::no_threads());
    let done = request_of(m, marks, words, site, before, lent, k);
    store(threads, n, done.threads);
    done.asked
}

// The core by rows, on the records of a slice of so many: 11 where they are fewer than the threads.
fn request_of_rows(
    m: Model,
    marks: [[bool; 64]; 64],
    row: &mut [u64],
    site: Site,
    before: Threads,
    lent: usize,
    k: ThreadNo,
) -> Done
    ensures free { LeftFree row.old row.new }
    ensures left { result ≡ done_of (rows_lent m marks (length row.old) site before lent k.0) }
{
    let t = m.t;
    if t as usize > lent {
        let answer = Answer::Refused(11);
        return Done {
            asked: Asked { answer, site },
            threads: before,
        };
    }
    let left = early_request::request_by_rows(m, marks, row, site, before, k);
    let answer = left.answer;
    let site = left.site;
    let back = left.threads;
    Done {
        asked: Asked { answer, site },
        threads: back,
    }
}

// Document 02, slip 6: "a second entry, for reading and for requests, that takes 64 words and works out one segment's row when it is needed".
// What the words hold when it is called is not read, and what they hold after it is left free; they are as many as before, and those past
// the first 64 stay.
pub fn request_by_rows(
    m: Model,
    marks: [[bool; 64]; 64],
    row: &mut [u64],
    site: Site,
    threads: &mut [Thread],
    k: ThreadNo,
) -> Asked
    ensures { (result ≡ asked_of (request_by_rows m marks (length row.old) site threads.old k.0))
        × (threads.new ≡ (request_by_rows m marks (length row.old) site threads.old k.0).threads)
        × LeftFree row.old row.new }
{
    let records = threads.len();
    let count = moved(records, m.t);
    let before = load(threads, count, model_effect::no_threads());
    let done = request_of_rows(m, marks, row, site, before, records, k);
    store(threads, count, done.threads);
    done.asked
}

// The core of a call, on the records of a slice of so many: 11 where they are fewer than the threads.
fn call_of(
    m: Model,
    marks: [[bool; 64]; 64],
    words: &[u64],
    site: Site,
    before: Threads,
    lent: usize,
    held: &mut [u32],
    call: Call,
) -> Done
    ensures left { result ≡ done_of (call_lent m marks words.now site before lent held.old call).left }
    ensures held { held.new ≡ (call_lent m marks words.now site before lent held.old call).held }
{
    let t = m.t;
    let needed = t as usize;
    if lent < needed {
        let answer = Answer::Refused(11);
        return Done {
            asked: Asked { answer, site },
            threads: before,
        };
    }
    let after = early_request::call(m, marks, words, site, before, held, call);
    let answer = after.answer;
    let site = after.site;
    let ran = after.threads;
    Done {
        asked: Asked { answer, site },
        threads: ran,
    }
}

// Document 02, slip 7: "Split the request into two that answer as it does", or "as a grant and its finish at once". What a grant fixes is "kept with
// the state": 64 numbers for each thread in the slice `held`, 11 where they are fewer.
pub fn call(
    m: Model,
    marks: [[bool; 64]; 64],
    words: &[u64],
    site: Site,
    threads: &mut [Thread],
    held: &mut [u32],
    call: Call,
) -> Asked
    ensures { (result ≡ asked_of (call_of m marks words.now site threads.old held.old call).left)
        × (threads.new ≡ (call_of m marks words.now site threads.old held.old call).left.threads)
        × (held.new ≡ (call_of m marks words.now site threads.old held.old call).held) }
{
    let lent = threads.len();
    let n = moved(lent, m.t);
    let before = load(threads, n, model_effect::no_threads());
    let done = call_of(m, marks, words, site, before, lent, held, call);
    store(threads, n, done.threads);
    done.asked
}

// The core of a call by rows, on the records of a slice of so many: 11 where they are fewer than the threads.
fn call_of_rows(
    m: Model,
    marks: [[bool; 64]; 64],
    row: &mut [u64],
    site: Site,
    before: Threads,
    lent: usize,
    held: &mut [u32],
    call: Call,
) -> Done
    ensures free { LeftFree row.old row.new }
    ensures left { result ≡ done_of (call_rows_lent m marks (length row.old) site before lent held.old call).left }
    ensures held { held.new ≡ (call_rows_lent m marks (length row.old) site before lent held.old call).held }
{
    let t = m.t;
    let needed = t as usize;
    if needed > lent {
        let answer = Answer::Refused(11);
        return Done {
            asked: Asked { answer, site },
            threads: before,
        };
    }
    let left = early_request::call_by_rows(m, marks, row, site, before, held, call);
    let answer = left.answer;
    let site = left.site;
    let records = left.threads;
    Done {
        asked: Asked { answer, site },
        threads: records,
    }
}

// The same in 64 words, which are left free as in `request_by_rows`: 11, 16, 10, 19, then the rest.
pub fn call_by_rows(
    m: Model,
    marks: [[bool; 64]; 64],
    row: &mut [u64],
    site: Site,
    threads: &mut [Thread],
    held: &mut [u32],
    call: Call,
) -> Asked
    ensures { (result ≡ asked_of (call_by_rows m marks (length row.old) site threads.old held.old call).left)
        × (threads.new ≡ (call_by_rows m marks (length row.old) site threads.old held.old call).left.threads)
        × (held.new ≡ (call_by_rows m marks (length row.old) site threads.old held.old call).held)
        × LeftFree row.old row.new }
{
    let lent = threads.len();
    let n = moved(lent, m.t);
    let before = load(threads, n, model_effect::no_threads());
    let done = call_of_rows(m, marks, row, site, before, lent, held, call);
    store(threads, n, done.threads);
    done.asked
}

// What a request on some of 40 records leaves: the answer with the state, and all of the records.
#[derive(Clone, Copy)]
pub struct Lent {
    pub asked: Asked,
    pub records: [Thread; 40],
}

// The first so many records are lent to a request.
fn lend(
    m: Model,
    marks: [[bool; 64]; 64],
    words: &[u64],
    site: Site,
    records: [Thread; 40],
    lent: usize,
    k: ThreadNo,
) -> Lent
    requires { lent ≤ 40 }
    ensures { result ≡ lent_of (request_of m marks words.now site (take lent records) k.0) (drop lent records) }
{
    let mut held = records;
    let asked = request(m, marks, words, site, &mut held[..lent], k);
    Lent {
        asked,
        records: held,
    }
}

// The request on a slice of the first so many of 40 records, or of all; the others stay. For callers that hold no slice of records.
pub fn request_first(
    m: Model,
    marks: [[bool; 64]; 64],
    words: &[u64],
    site: Site,
    records: [Thread; 40],
    lent: usize,
    k: ThreadNo,
) -> Lent
    ensures { result ≡ request_first m marks words.now site records lent k.0 }
{
    lend(m, marks, words, site, records, lent.min(40), k)
}
