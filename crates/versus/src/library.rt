// The library's side: its functions on models in files and on states as words, laid out as in `second::layout`.
use clock::{Cycle, Delta, ThreadNo, Time};
use early::{Answer, Call, Site};
use model::{Model, State, Thread, Threads};
use second::issue::Reply;
use second::number::{at, put};
use second::{layout, number, start};

// A model's file, and the words of its table of distances.
#[derive(Clone, Copy)]
pub struct Tables<'a> {
    pub file: &'a [u8],
    pub words: &'a [u64; 4096],
}

pub fn model_in(file: &[u8]) -> Model {
    match reader_file::read_file(file) {
        Ok(m) => m,
        Err(_) => model_effect::no_model(),
    }
}

// Whether a file is written again byte by byte.
pub fn is_written_again(file: &[u8]) -> bool {
    let mut out = [0u8; 16384];
    let n = writer_print::rewrite_text(file, &mut out);
    parts::are_equal(file, number::first(&out, n))
}

fn hold_values(held: &mut [u64; 640], values: &[u32; 64]) {
    for (i, x) in (0..).zip(values) {
        put(held, layout::VARIABLES, i, u64::from(*x));
    }
}

fn values_in(held: &[u64; 640]) -> [u32; 64] {
    let mut values = [0u32; 64];
    for (i, x) in values.iter_mut().enumerate() {
        *x = (at(held, layout::VARIABLES, i as u64) % 4294967296) as u32;
    }
    values
}

// The log's words.
fn log_in(held: &[u64]) -> &[u64] {
    if layout::LOG <= held.len() {
        return &held[layout::LOG..];
    }
    held
}

fn site_in(held: &[u64; 640]) -> Site {
    let values = values_in(held);
    export_state::site_from(&values, log_in(held))
}

fn hold_site(held: &mut [u64], site: Site, values: &mut [u32; 64]) {
    if layout::LOG <= held.len() {
        export_state::site_into(site, values, &mut held[layout::LOG..]);
    }
}

// The same, with the first t of 40 records.
fn hold_front(held: &mut [u64; 640], site: Site, records: [Thread; 40], t: u8) {
    let mut values = [0u32; 64];
    hold_site(held, site, &mut values);
    export_state::threads_into(export_state::first_threads(records), t, held);
    hold_values(held, &values);
}

fn hold_state(held: &mut [u64; 640], site: Site, threads: Threads) {
    let mut values = [0u32; 64];
    hold_site(held, site, &mut values);
    export_state::threads_into(threads, 32, held);
    hold_values(held, &values);
}

// The plain run of a model, of at most so many segments.
pub fn run(m: Model, budget: u64, held: &mut [u64; 640]) {
    let r = plain_core::plain_run(m, budget);
    hold_values(held, &r.variables.at);
    export_state::threads_into(r.threads, 32, held);
    held[layout::ANSWER] = u64::from(r.number);
    held[layout::RAN] = r.n;
    held[layout::SPENT] = u64::from(r.spent);
}

fn reply(number: u8, segment: u8, time: u64, delta: u32) -> Reply {
    Reply {
        number: u64::from(number),
        segment: u64::from(segment),
        time,
        delta: u64::from(delta),
        overruns: 0,
    }
}

fn reply_of(a: Answer) -> Reply {
    match a {
        Answer::Granted(s, c) => reply(0, s, c.time.0, c.delta.0),
        Answer::Refused(n) => reply(n, 0, 0, 0),
    }
}

// A record that no model has: what is lent past the threads.
fn junk() -> Thread {
    let c = Cycle {
        time: Time(18446744073709551615),
        delta: Delta(4294967295),
    };
    Thread {
        segment: 255,
        state: State::Waiting(255, c),
    }
}

// The records of t threads, and junk past them.
fn records_in(held: &[u64; 640], t: u8) -> [Thread; 40] {
    let mut records = export_state::threads_from(held, t);
    for record in records.iter_mut().skip(usize::from(t)) {
        *record = junk();
    }
    records
}

// The first 32 of 40 records as words.
fn words_of(records: [Thread; 40]) -> [u64; 160] {
    let mut words = [0u64; 160];
    export_state::threads_into(export_state::first_threads(records), 32, &mut words);
    words
}

// Whether two lists of records are the same from thread t on.
fn are_same_past(a: &[u64; 160], b: &[u64; 160], t: u8) -> bool {
    a.iter()
        .zip(b)
        .skip(5 * usize::from(t))
        .all(|(x, y)| x == y)
}

// What is held at the start of a list, by its desk, with junk for threads that are not running.
pub fn values_at(desk: &[u64; 640], seed: u64, junk: u64) -> [u32; 2048] {
    let mut kept = [0u64; 2048];
    start::hold(desk, seed, junk, &mut kept);
    let mut values = [0u32; 2048];
    for (value, x) in values.iter_mut().zip(kept) {
        *value = (x % 4294967296) as u32;
    }
    values
}

// A request of thread k on a slice of so many records, of which those past the threads are junk. The model is read again: whoever hands
// it on is dear to prove. An answer of 255 tells that junk was written to.
pub fn request(tables: Tables, held: &mut [u64; 640], k: u64, lent: usize) -> Reply {
    let Tables { file, words } = tables;
    let m = model_in(file);
    let t = m.t;
    let marks = tables_conflict::conflict_marks(m);
    let site = site_in(held);
    let records = records_in(held, t);
    let before = words_of(records);
    let left = early_lent::request_first(
        m,
        marks,
        words,
        site,
        records,
        lent,
        ThreadNo((k % 256) as u8),
    );
    hold_front(held, left.asked.site, left.records, t);
    if are_same_past(&before, &words_of(left.records), t) {
        return reply_of(left.asked.answer);
    }
    reply(255, 0, 0, 0)
}

// A call by its word: of none, a finish of thread 255.
fn call_of(word: u64) -> Call {
    let k = (word % 256) as u8;
    match word / 256 {
        0 => Call::Both(k),
        1 => Call::Grant(k),
        2 => Call::Finish(k),
        _ => Call::Finish(255),
    }
}

// A call on records as values.
fn call(tables: Tables, held: &mut [u64; 640], values: &mut [u32], word: u64) -> Reply {
    let Tables { file, words } = tables;
    let m = model_in(file);
    let marks = tables_conflict::conflict_marks(m);
    let site = site_in(held);
    let threads = export_state::first_threads(export_state::threads_from(held, 32));
    let left = early_request::call(m, marks, words, site, threads, values, call_of(word));
    hold_state(held, left.site, left.threads);
    reply_of(left.answer)
}

// With so many held values, or all.
pub fn call_with(
    tables: Tables,
    held: &mut [u64; 640],
    values: &mut [u32],
    word: u64,
    n: usize,
) -> Reply {
    let n = n.min(values.len());
    call(tables, held, &mut values[..n], word)
}

// The next call of a list, with so many records or sets of held values: every second combined request on lent records, all others on values.
pub fn ask(
    tables: Tables,
    held: &mut [u64; 640],
    values: &mut [u32; 2048],
    word: u64,
    lent: usize,
) -> Reply {
    if word < 256 && word % 2 == 0 {
        return request(tables, held, word, lent);
    }
    call_with(tables, held, values, word, 64 * (lent % 64))
}

// A list of calls in one, with its number and how many were not refused.
pub fn ask_all(
    tables: Tables,
    held: &mut [u64; 640],
    values: &mut [u32; 2048],
    calls: &[u16],
    answers: &mut [u64; 20480],
) {
    let Tables { file, words } = tables;
    let m = model_in(file);
    let marks = tables_conflict::conflict_marks(m);
    let site = site_in(held);
    let threads = export_state::first_threads(export_state::threads_from(held, 32));
    let o = early_list::calls(m, marks, words, site, threads, values, calls, answers);
    hold_state(held, o.site, o.threads);
    held[layout::ANSWER] = u64::from(o.number);
    held[layout::RAN] = o.granted;
}

// The same by rows.
fn ask_in(
    file: &[u8],
    row: &mut [u64],
    held: &mut [u64; 640],
    values: &mut [u32; 2048],
    calls: &[u16],
    answers: &mut [u64; 20480],
) {
    let m = model_in(file);
    let marks = tables_conflict::conflict_marks(m);
    let site = site_in(held);
    let threads = export_state::first_threads(export_state::threads_from(held, 32));
    let o = early_list::calls_by_rows(m, marks, row, site, threads, values, calls, answers);
    hold_state(held, o.site, o.threads);
    held[layout::ANSWER] = u64::from(o.number);
    held[layout::RAN] = o.granted;
}

// In 66 words of junk. A number of 255 tells that one past the first 64 was written to.
pub fn ask_all_by_rows(
    file: &[u8],
    junk: u64,
    held: &mut [u64; 640],
    values: &mut [u32; 2048],
    calls: &[u16],
    answers: &mut [u64; 20480],
) {
    let mut words = [junk; 66];
    ask_in(file, &mut words, held, values, calls, answers);
    if words[64] != junk || words[65] != junk {
        held[layout::ANSWER] = 255;
    }
}

// In one word too few.
pub fn ask_few_by_rows(
    file: &[u8],
    junk: u64,
    held: &mut [u64; 640],
    values: &mut [u32; 2048],
    calls: &[u16],
    answers: &mut [u64; 20480],
) {
    let mut words = [junk; 63];
    ask_in(file, &mut words, held, values, calls, answers);
}

// The fresh state.
pub fn fresh(file: &[u8], held: &mut [u64; 640]) {
    let f = early_request::fresh(model_in(file));
    hold_state(held, f.site, f.threads);
}

// None is refused: each file is within the rules.
pub fn fill_words(file: &[u8], words: &mut [u64; 4096]) {
    let _ = tables_distance::distances(model_in(file), words);
}
