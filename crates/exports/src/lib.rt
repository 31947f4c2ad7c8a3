// The kit for programs in C and Rust: numbers, and slices of numbers as a pointer and a count.
// One order of tests in all calls: the file's number; 11 for a buffer of the state or of the answers, or for numbers that are none of a
// state; 16; then a call's own numbers.
#![tactic(auto)]

ghost use Rattle.std.specs.Prelude.{◌≡◌, ◌≤◌, length};
ghost use Rattle.reader.specs.File.{read_file};
ghost use Rattle.reader_load.specs.Load.{load_of, load_buffer, load_by_rows};
ghost use Rattle.early.specs.ByRows.{LeftFree};
ghost use Rattle.buffers.specs.Write.{Writes};
ghost use Rattle.sheet.specs.Sheet.{longest_sheet};
ghost use Rattle.sheet_file.specs.Report.{printed};
ghost use Rattle.replay.specs.Replay.{replayed_on, words_on, held_on, answers_on, replayed_by_rows, held_by_rows, answers_by_rows};
ghost use Rattle.export_step.specs.Step.{keeps, request_by, rows_by, call_by, call_rows_by, replay_buffer, Freshens, Requests, Calls, Replays};
ghost use Rattle.export_write.specs.Call.{Models, Files};

use early::Call;

// The reader's number of a model file, 0 where it is accepted.
#[unsafe(no_mangle)]
pub extern "C" fn teaselauger_read(file: &[u8]) -> u8
    ensures { result ≡ (read_file file.now).number }
{
    reader_file::file_number(file)
}

// A model file's distance table in a buffer of words, N × N of them: the number, 0 where it is accepted.
#[unsafe(no_mangle)]
pub extern "C" fn teaselauger_load(file: &[u8], words: &mut [u64]) -> u8
    ensures value { result ≡ (load_of file.now words.old).number }
    ensures words_after { words.new ≡ load_buffer file.now words.old }
{
    match reader_load::load(file, words) {
        Ok(_) => 0,
        Err(r) => u8::from(r),
    }
}

// Document 02, slip 6, the entry by rows: the reader's number of a model file, then 16 below 64 words. None of them is read or written.
#[unsafe(no_mangle)]
pub extern "C" fn teaselauger_load_by_rows(file: &[u8], words: &[u64]) -> u8
    ensures { result ≡ (load_by_rows file.now (length words.now)).number }
{
    match reader_load::load_by_rows(file, words) {
        Ok(_) => 0,
        Err(fault) => u8::from(fault),
    }
}

// The sheet of a file's plain run with a budget, or the line of its refusal: how many bytes of the buffer it takes. A buffer that is too short stays, and the answer is 0;
// none is too short that has 6,429 bytes.
#[unsafe(no_mangle)]
pub extern "C" fn teaselauger_sheet(file: &[u8], budget: u64, out: &mut [u8]) -> usize
    ensures writes { Writes out.old out.new result (printed budget file.now) }
    ensures file_len_bound { length (printed budget file.now) ≤ longest_sheet }
{
    sheet_file::plain_sheet(file, budget, out)
}

// A file's fresh state in the caller's buffers: the number, 0 where it is there.
#[unsafe(no_mangle)]
pub extern "C" fn teaselauger_fresh(
    file: &[u8],
    variables: &mut [u32],
    log: &mut [u64],
    records: &mut [u64],
) -> u8
    ensures { Freshens file.now (keeps variables.old log.old records.old) result (keeps variables.new log.new records.new) }
{
    export_step::fresh_into(file, variables, log, records)
}

// One request of a thread on the state that the caller keeps, with the file's words: the number, 0 where it is granted, and then segment, time and delta in the answer.
// On a refusal every buffer is as it was.
#[unsafe(no_mangle)]
pub extern "C" fn teaselauger_request(
    file: &[u8],
    words: &[u64],
    variables: &mut [u32],
    log: &mut [u64],
    records: &mut [u64],
    thread: u8,
    answer: &mut [u64],
) -> u8
    ensures { Requests file.now (request_by file.now words.now (keeps variables.old log.old records.old) thread) (keeps variables.old log.old records.old) answer.old result (keeps variables.new log.new records.new) answer.new }
{
    export_step::request_into(file, words, variables, log, records, thread, answer)
}

// The same request by rows, in 64 words that are left free: 16 below 64, after 11.
#[unsafe(no_mangle)]
pub extern "C" fn teaselauger_request_by_rows(
    file: &[u8],
    row: &mut [u64],
    variables: &mut [u32],
    log: &mut [u64],
    records: &mut [u64],
    thread: u8,
    answer: &mut [u64],
) -> u8
    ensures left_free { LeftFree row.old row.new }
    ensures requests { Requests file.now (rows_by file.now (length row.old) (keeps variables.old log.old records.old) thread) (keeps variables.old log.old records.old) answer.old result (keeps variables.new log.new records.new) answer.new }
{
    export_step::request_by_rows_into(file, row, variables, log, records, thread, answer)
}

// Document 02, slip 7: a grant of a thread, on the state that the caller keeps and on the values that are held, 64 for each thread: the number, 0
// where it is granted; its record is then running, and the variables are held for it. On a refusal every buffer is as it was.
#[unsafe(no_mangle)]
pub extern "C" fn teaselauger_grant(
    file: &[u8],
    words: &[u64],
    held: &mut [u32],
    variables: &mut [u32],
    log: &mut [u64],
    records: &mut [u64],
    thread: u8,
    answer: &mut [u64],
) -> u8
    ensures { Calls file.now (Call.Grant thread) (call_by file.now words.now (keeps variables.old log.old records.old) held.old (Call.Grant thread)) (keeps variables.old log.old records.old) held.old answer.old result (keeps variables.new log.new records.new) held.new answer.new }
{
    let grant = Call::Grant(thread);
    export_step::call_into(file, words, held, variables, log, records, grant, answer)
}

// A finish of a running thread, on the values that are held for it: what its segment writes is stored, and what it notifies is logged.
#[unsafe(no_mangle)]
pub extern "C" fn teaselauger_finish(
    file: &[u8],
    words: &[u64],
    held: &mut [u32],
    variables: &mut [u32],
    log: &mut [u64],
    records: &mut [u64],
    thread: u8,
    answer: &mut [u64],
) -> u8
    ensures { Calls file.now (Call.Finish thread) (call_by file.now words.now (keeps variables.old log.old records.old) held.old (Call.Finish thread)) (keeps variables.old log.old records.old) held.old answer.old result (keeps variables.new log.new records.new) held.new answer.new }
{
    let finish = Call::Finish(thread);
    export_step::call_into(file, words, held, variables, log, records, finish, answer)
}

// The same grant by rows, in 64 words that are left free: 16 below 64, after 11.
#[unsafe(no_mangle)]
pub extern "C" fn teaselauger_grant_by_rows(
    file: &[u8],
    row: &mut [u64],
    held: &mut [u32],
    variables: &mut [u32],
    log: &mut [u64],
    records: &mut [u64],
    thread: u8,
    answer: &mut [u64],
) -> u8
    ensures left_free { LeftFree row.old row.new }
    ensures calls { Calls file.now (Call.Grant thread) (call_rows_by file.now (length row.old) (keeps variables.old log.old records.old) held.old (Call.Grant thread)) (keeps variables.old log.old records.old) held.old answer.old result (keeps variables.new log.new records.new) held.new answer.new }
{
    let grant = Call::Grant(thread);
    export_step::call_by_rows_into(file, row, held, variables, log, records, grant, answer)
}

// The same finish by rows.
#[unsafe(no_mangle)]
pub extern "C" fn teaselauger_finish_by_rows(
    file: &[u8],
    row: &mut [u64],
    held: &mut [u32],
    variables: &mut [u32],
    log: &mut [u64],
    records: &mut [u64],
    thread: u8,
    answer: &mut [u64],
) -> u8
    ensures left_free { LeftFree row.old row.new }
    ensures calls { Calls file.now (Call.Finish thread) (call_rows_by file.now (length row.old) (keeps variables.old log.old records.old) held.old (Call.Finish thread)) (keeps variables.old log.old records.old) held.old answer.old result (keeps variables.new log.new records.new) held.new answer.new }
{
    let finish = Call::Finish(thread);
    export_step::call_by_rows_into(file, row, held, variables, log, records, finish, answer)
}

// A list of calls from the file's fresh state on, each a thread with 256 more for a grant and 512 more for a finish; its answers in five words
// each and its tables in the words, and the state and the held values that it leaves in the caller's buffers.
#[unsafe(no_mangle)]
pub extern "C" fn teaselauger_replay(
    file: &[u8],
    words: &mut [u64],
    held: &mut [u32],
    calls: &[u16],
    answers: &mut [u64],
    variables: &mut [u32],
    log: &mut [u64],
    records: &mut [u64],
) -> u8
    ensures replays { Replays file.now held.old calls.now (replayed_on (read_file file.now).model words.old held.old calls.now answers.old) (keeps variables.old log.old records.old) result (keeps variables.new log.new records.new) held.new }
    ensures words_after { words.new ≡ replay_buffer file.now (keeps variables.old log.old records.old) (words_on (read_file file.now).model words.old held.old calls.now answers.old) words.old }
    ensures held_after { held.new ≡ replay_buffer file.now (keeps variables.old log.old records.old) (held_on (read_file file.now).model words.old held.old calls.now answers.old) held.old }
    ensures answers_after { answers.new ≡ replay_buffer file.now (keeps variables.old log.old records.old) (answers_on (read_file file.now).model words.old held.old calls.now answers.old) answers.old }
{
    export_step::replay_into(file, words, held, calls, answers, variables, log, records)
}

// The same list by rows, in 64 words that are left free.
#[unsafe(no_mangle)]
pub extern "C" fn teaselauger_replay_by_rows(
    file: &[u8],
    row: &mut [u64],
    held: &mut [u32],
    calls: &[u16],
    answers: &mut [u64],
    variables: &mut [u32],
    log: &mut [u64],
    records: &mut [u64],
) -> u8
    ensures left_free { LeftFree row.old row.new }
    ensures replays { Replays file.now held.old calls.now (replayed_by_rows (read_file file.now).model (length row.old) held.old calls.now answers.old) (keeps variables.old log.old records.old) result (keeps variables.new log.new records.new) held.new }
    ensures held_after { held.new ≡ replay_buffer file.now (keeps variables.old log.old records.old) (held_by_rows (read_file file.now).model (length row.old) held.old calls.now answers.old) held.old }
    ensures answers_after { answers.new ≡ replay_buffer file.now (keeps variables.old log.old records.old) (answers_by_rows (read_file file.now).model (length row.old) held.old calls.now answers.old) answers.old }
{
    export_step::replay_by_rows_into(file, row, held, calls, answers, variables, log, records)
}

// A file's model as numbers at the front of a slice: the number, 0 where it is there.
#[unsafe(no_mangle)]
pub extern "C" fn teaselauger_model(file: &[u8], numbers: &mut [u32]) -> u8
    ensures { Models file.now numbers.old result numbers.new }
{
    export_write::model_into(file, numbers)
}

// The file of a model held as numbers: the number, 0 where it is written, and then its length in the first place.
#[unsafe(no_mangle)]
pub extern "C" fn teaselauger_write(numbers: &[u32], out: &mut [u8], length: &mut [u64]) -> u8
    ensures { Files numbers.now out.old length.old result out.new length.new }
{
    export_write::write_into(numbers, out, length)
}
