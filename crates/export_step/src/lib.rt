// For callers in C and Rust: the fresh state, one request, grant or finish, or a whole list, on a state that they keep as numbers in buffers.
// Words past those of a state are not looked at and not touched.
#![tactic(auto)]

ghost use Rattle.std.specs.Prelude.{ℕ, ◌+◌, ◌<◌, ◌≤◌, ◌≡◌, ◌&&◌, IfOk, List, Ok, leb, length, take};
ghost use Rattle.refusal.specs.Number.{number_told};
ghost use Rattle.reader.specs.File.{read_file};
ghost use Rattle.reader.specs.Read.{read_of};
ghost use Rattle.tables.specs.Outcome.{conflict_marks};
ghost use Rattle.buffers.specs.Write.{placed_in};
ghost use Rattle.early.specs.Answer.{values_of, number_of};
ghost use Rattle.early.specs.ByRows.{request_by_rows, LeftFree};
ghost use Rattle.early.specs.Call.{call_of, call_by_rows};
ghost use Rattle.early_answer.specs.After.{after_of};
ghost use Rattle.early_request.specs.Fresh.{fresh_of};
ghost use Rattle.early_lent.specs.Answered.{request_first};
ghost use Rattle.replay.specs.Replay.{replayed_on, words_on, held_on, answers_on, replayed_by_rows, held_by_rows, answers_by_rows};
ghost use Rattle.export_state.specs.Numbers.{site_from, held_threads, are_held};
ghost use Rattle.export_step.specs.Step.{keeps, has_room, holding, fresh_number, asked_number, request_by, rows_by, call_by, call_rows_by, kept_by, started_by, left_by, replay_buffer, Freshens, Requests, Calls, Replays};
ghost use Rattle.export_step.specs.Left.{left_of};

use clock::ThreadNo;
use early::{After, Answer, Call, Site};
use model::{Model, Threads};
use refusal::Refusal;

// A state and the records of its t threads in the caller's buffers.
fn put_state(
    site: Site,
    threads: Threads,
    t: u8,
    variables: &mut [u32],
    log: &mut [u64],
    records: &mut [u64],
)
    ensures { keeps variables.new log.new records.new ≡ holding site (take t threads.at) (keeps variables.old log.old records.old) }
{
    export_state::site_into(site, variables, log);
    export_state::threads_into(threads, t, records);
}

// The number of an answer, with segment, time and delta of a grant.
fn put_answer(a: Answer, answer: &mut [u64]) -> u8
    ensures number { result ≡ number_of a }
    ensures words { answer.new ≡ placed_in (values_of a) answer.old }
{
    match a {
        Answer::Granted(s, c) => {
            export_state::grant_into(s, c, answer);
            0
        }
        Answer::Refused(n) => n,
    }
}

// Whether the buffers of a state of t threads are long enough.
fn has_room(variables: &[u32], log: &[u64], records: &[u64], t: u8) -> bool
    ensures { result ≡ has_room t (keeps variables.now log.now records.now) }
{
    64 <= variables.len() && 385 <= log.len() && 5 * usize::from(t) <= records.len()
}

// What a call asks of, as a number and a model. Not a Result: of one, each call copied the model four times more, and took 282 KB of stack,
// where a thread that calls should need 256.
#[derive(Clone, Copy)]
struct AskedModel {
    number: u8,
    model: Model,
}

// Whether the numbers are those of a state, and the answer has room.
fn may_ask(variables: &[u32], log: &[u64], records: &[u64], t: u8, answer: &[u64]) -> bool
    ensures { result ≡ are_held t variables.now log.now records.now && leb 3 (length answer.now) }
{
    export_state::are_held(variables, log, records, t) && 3 <= answer.len()
}

// A file's model, or its refusal: 11 where it is accepted and a buffer of its state is too short.
fn with_room(file: &[u8], variables: &[u32], log: &[u64], records: &[u64]) -> Result<Model, Refusal>
    ensures number { number_told result ≡ fresh_number file.now (keeps variables.now log.now records.now) }
    ensures read { IfOk result (λ m. read_of (Ok m) ≡ read_file file.now) }
{
    let m = reader_file::read_file(file)?;
    if has_room(variables, log, records, m.t) {
        return Ok(m);
    }
    Err(Refusal::Unfit)
}

// A file's model, or its refusal: 11 where it is accepted and the numbers are not those of a state of it, or the answer has no room.
fn with_state(
    file: &[u8],
    variables: &[u32],
    log: &[u64],
    records: &[u64],
    answer: &[u64],
) -> Result<Model, Refusal>
    ensures number { number_told result ≡ asked_number file.now (keeps variables.now log.now records.now) answer.now }
    ensures read { IfOk result (λ m. read_of (Ok m) ≡ read_file file.now) }
{
    let m = reader_file::read_file(file)?;
    if may_ask(variables, log, records, m.t, answer) {
        return Ok(m);
    }
    Err(Refusal::Unfit)
}

// The same as a number, 0 where the file is accepted, and the model.
#[inline(never)]
fn asked(file: &[u8], variables: &[u32], log: &[u64], records: &[u64], answer: &[u64]) -> AskedModel
    ensures number { result.number ≡ asked_number file.now (keeps variables.now log.now records.now) answer.now }
    ensures read { result.number ≡ 0 → read_of (Ok result.model) ≡ read_file file.now }
{
    match with_state(file, variables, log, records, answer) {
        Ok(model) => AskedModel { number: 0, model },
        Err(r) => AskedModel {
            number: u8::from(r),
            model: model_effect::no_model(),
        },
    }
}

// The fresh state of a model, in the caller's buffers.
fn put_fresh(m: Model, variables: &mut [u32], log: &mut [u64], records: &mut [u64])
    ensures { keeps variables.new log.new records.new ≡ holding (fresh_of m).site (take m.t (fresh_of m).threads.at) (keeps variables.old log.old records.old) }
{
    let fresh = early_request::fresh(m);
    put_state(fresh.site, fresh.threads, m.t, variables, log, records);
}

// A file's fresh state in the caller's buffers: the number, 0 where it is there.
pub fn fresh_into(file: &[u8], variables: &mut [u32], log: &mut [u64], records: &mut [u64]) -> u8
    ensures { Freshens file.now (keeps variables.old log.old records.old) result (keeps variables.new log.new records.new) }
{
    // A number, here and in each call below, since the C interface answers it.
    match with_room(file, variables, log, records) {
        Ok(m) => {
            put_fresh(m, variables, log, records);
            0
        }
        Err(r) => u8::from(r),
    }
}

// A request on the state that the numbers say: the lent request, on as many records as there are threads.
fn request_on(
    m: Model,
    words: &[u64],
    variables: &[u32],
    log: &[u64],
    records: &[u64],
    thread: u8,
) -> After
    ensures { result ≡ left_of (request_first m (conflict_marks m) words.now (site_from variables.now log.now) (held_threads records.now m.t) m.t thread) }
{
    let marks = tables_conflict::conflict_marks(m);
    let site = export_state::site_from(variables, log);
    let held = export_state::threads_from(records, m.t);
    let left = early_lent::request_first(
        m,
        marks,
        words,
        site,
        held,
        usize::from(m.t),
        ThreadNo(thread),
    );
    After {
        answer: left.asked.answer,
        site: left.asked.site,
        threads: export_state::first_threads(left.records),
    }
}

// The same by rows: the request on the records by value.
fn rows_on(
    m: Model,
    row: &mut [u64],
    variables: &[u32],
    log: &[u64],
    records: &[u64],
    thread: u8,
) -> After
    ensures free { LeftFree row.old row.new }
    ensures left { result ≡ after_of (request_by_rows m (conflict_marks m) (length row.old) (site_from variables.now log.now) (take 32 (held_threads records.now m.t)) thread) }
{
    let marks = tables_conflict::conflict_marks(m);
    let site = export_state::site_from(variables, log);
    let held = export_state::threads_from(records, m.t);
    let threads = export_state::first_threads(held);
    early_request::request_by_rows(m, marks, row, site, threads, ThreadNo(thread))
}

// What a request left, in the caller's buffers: on a refusal nothing is written.
fn put_after(after: After, t: u8, variables: &mut [u32], log: &mut [u64], records: &mut [u64])
    ensures { keeps variables.new log.new records.new ≡ kept_by after.answer after.site (take t after.threads.at) (keeps variables.old log.old records.old) }
{
    if let Answer::Granted(_, _) = after.answer {
        put_state(after.site, after.threads, t, variables, log, records);
    }
}

// What a grant apart from its finish left: the records alone.
fn put_started(after: After, t: u8, records: &mut [u64])
    ensures { (vs ws : List ℕ) → keeps vs ws records.new ≡ started_by after.answer (take t after.threads.at) (keeps vs ws records.old) }
{
    if let Answer::Granted(_, _) = after.answer {
        export_state::threads_into(after.threads, t, records);
    }
}

// What a call left.
fn put_called(
    call: Call,
    after: After,
    t: u8,
    variables: &mut [u32],
    log: &mut [u64],
    records: &mut [u64],
)
    ensures { keeps variables.new log.new records.new ≡ left_by call after.answer after.site (take t after.threads.at) (keeps variables.old log.old records.old) }
{
    match call {
        Call::Grant(_) => put_started(after, t, records),
        Call::Both(_) | Call::Finish(_) => put_after(after, t, variables, log, records),
    }
}

// One request of a thread on the state that the caller keeps, with the file's words: the number, 0 where it is granted, and then segment, time and delta in the answer.
// On a refusal every buffer is as it was.
pub fn request_into(
    file: &[u8],
    words: &[u64],
    variables: &mut [u32],
    log: &mut [u64],
    records: &mut [u64],
    thread: u8,
    answer: &mut [u64],
) -> u8
    ensures { Requests file.now (request_by file.now words.now (keeps variables.old log.old records.old) thread) (keeps variables.old log.old records.old) answer.old result (keeps variables.new log.new records.new) answer.new }
{
    let read = asked(file, variables, log, records, answer);
    if read.number != 0 {
        return read.number;
    }
    let after = request_on(read.model, words, variables, log, records, thread);
    put_after(after, read.model.t, variables, log, records);
    put_answer(after.answer, answer)
}

// The same by rows, in 64 words that are left free: 16 after 11.
pub fn request_by_rows_into(
    file: &[u8],
    row: &mut [u64],
    variables: &mut [u32],
    log: &mut [u64],
    records: &mut [u64],
    thread: u8,
    answer: &mut [u64],
) -> u8
    ensures free { LeftFree row.old row.new }
    ensures requests { Requests file.now (rows_by file.now (length row.old) (keeps variables.old log.old records.old) thread) (keeps variables.old log.old records.old) answer.old result (keeps variables.new log.new records.new) answer.new }
{
    let read = asked(file, variables, log, records, answer);
    if read.number != 0 {
        return read.number;
    }
    let after = rows_on(read.model, row, variables, log, records, thread);
    put_after(after, read.model.t, variables, log, records);
    put_answer(after.answer, answer)
}

// A call on the state that the numbers say and on the values that are held, with the records by value.
fn call_on(
    m: Model,
    words: &[u64],
    held: &mut [u32],
    variables: &[u32],
    log: &[u64],
    records: &[u64],
    call: Call,
) -> After
    ensures left { result ≡ after_of (call_of m (conflict_marks m) words.now (site_from variables.now log.now) (take 32 (held_threads records.now m.t)) held.old call).left }
    ensures held { held.new ≡ (call_of m (conflict_marks m) words.now (site_from variables.now log.now) (take 32 (held_threads records.now m.t)) held.old call).held }
{
    let marks = tables_conflict::conflict_marks(m);
    let site = export_state::site_from(variables, log);
    let own = export_state::threads_from(records, m.t);
    let threads = export_state::first_threads(own);
    early_request::call(m, marks, words, site, threads, held, call)
}

// The same by rows.
fn call_rows_on(
    m: Model,
    row: &mut [u64],
    held: &mut [u32],
    variables: &[u32],
    log: &[u64],
    records: &[u64],
    call: Call,
) -> After
    ensures free { LeftFree row.old row.new }
    ensures left { result ≡ after_of (call_by_rows m (conflict_marks m) (length row.old) (site_from variables.now log.now) (take 32 (held_threads records.now m.t)) held.old call).left }
    ensures held { held.new ≡ (call_by_rows m (conflict_marks m) (length row.old) (site_from variables.now log.now) (take 32 (held_threads records.now m.t)) held.old call).held }
{
    let marks = tables_conflict::conflict_marks(m);
    let site = export_state::site_from(variables, log);
    let own = export_state::threads_from(records, m.t);
    let threads = export_state::first_threads(own);
    early_request::call_by_rows(m, marks, row, site, threads, held, call)
}

// Document 02, slip 7: a grant, a finish or a combined request on the state that the caller keeps, with the file's words and the values
// that are held: the number, 0 where it is not refused, and then segment, time and delta in the answer. On a refusal every buffer is as it was.
pub fn call_into(
    file: &[u8],
    words: &[u64],
    held: &mut [u32],
    variables: &mut [u32],
    log: &mut [u64],
    records: &mut [u64],
    call: Call,
    answer: &mut [u64],
) -> u8
    ensures { Calls file.now call (call_by file.now words.now (keeps variables.old log.old records.old) held.old call) (keeps variables.old log.old records.old) held.old answer.old result (keeps variables.new log.new records.new) held.new answer.new }
{
    let read = asked(file, variables, log, records, answer);
    if read.number != 0 {
        return read.number;
    }
    let after = call_on(read.model, words, held, variables, log, records, call);
    put_called(call, after, read.model.t, variables, log, records);
    put_answer(after.answer, answer)
}

// The same by rows, in 64 words that are left free: 16 after 11.
pub fn call_by_rows_into(
    file: &[u8],
    row: &mut [u64],
    held: &mut [u32],
    variables: &mut [u32],
    log: &mut [u64],
    records: &mut [u64],
    call: Call,
    answer: &mut [u64],
) -> u8
    ensures free { LeftFree row.old row.new }
    ensures calls { Calls file.now call (call_rows_by file.now (length row.old) (keeps variables.old log.old records.old) held.old call) (keeps variables.old log.old records.old) held.old answer.old result (keeps variables.new log.new records.new) held.new answer.new }
{
    let read = asked(file, variables, log, records, answer);
    if read.number != 0 {
        return read.number;
    }
    let after = call_rows_on(read.model, row, held, variables, log, records, call);
    put_called(call, after, read.model.t, variables, log, records);
    put_answer(after.answer, answer)
}

// A list of calls from the file's fresh state on, its answers in five words each and its tables in the words, and the state and the held
// values that it leaves in the caller's buffers.
pub fn replay_into(
    file: &[u8],
    words: &mut [u64],
    held: &mut [u32],
    calls: &[u16],
    answers: &mut [u64],
    variables: &mut [u32],
    log: &mut [u64],
    records: &mut [u64],
) -> u8
    ensures listed { Replays file.now held.old calls.now (replayed_on (read_file file.now).model words.old held.old calls.now answers.old) (keeps variables.old log.old records.old) result (keeps variables.new log.new records.new) held.new }
    ensures tables { words.new ≡ replay_buffer file.now (keeps variables.old log.old records.old) (words_on (read_file file.now).model words.old held.old calls.now answers.old) words.old }
    ensures holds { held.new ≡ replay_buffer file.now (keeps variables.old log.old records.old) (held_on (read_file file.now).model words.old held.old calls.now answers.old) held.old }
    ensures written { answers.new ≡ replay_buffer file.now (keeps variables.old log.old records.old) (answers_on (read_file file.now).model words.old held.old calls.now answers.old) answers.old }
{
    match with_room(file, variables, log, records) {
        Ok(m) => {
            let done = replay::replay_on(m, words, held, calls, answers);
            if done.number == 0 {
                put_state(done.site, done.threads, m.t, variables, log, records);
            }
            done.number
        }
        Err(r) => u8::from(r),
    }
}

// The same by rows, in 64 words that are left free.
pub fn replay_by_rows_into(
    file: &[u8],
    row: &mut [u64],
    held: &mut [u32],
    calls: &[u16],
    answers: &mut [u64],
    variables: &mut [u32],
    log: &mut [u64],
    records: &mut [u64],
) -> u8
    ensures free { LeftFree row.old row.new }
    ensures listed { Replays file.now held.old calls.now (replayed_by_rows (read_file file.now).model (length row.old) held.old calls.now answers.old) (keeps variables.old log.old records.old) result (keeps variables.new log.new records.new) held.new }
    ensures holds { held.new ≡ replay_buffer file.now (keeps variables.old log.old records.old) (held_by_rows (read_file file.now).model (length row.old) held.old calls.now answers.old) held.old }
    ensures written { answers.new ≡ replay_buffer file.now (keeps variables.old log.old records.old) (answers_by_rows (read_file file.now).model (length row.old) held.old calls.now answers.old) answers.old }
{
    match with_room(file, variables, log, records) {
        Ok(m) => {
            let done = replay::replay_by_rows(m, row, held, calls, answers);
            if done.number == 0 {
                put_state(done.site, done.threads, m.t, variables, log, records);
            }
            done.number
        }
        Err(r) => u8::from(r),
    }
}
