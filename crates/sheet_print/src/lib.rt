// Document 01, "Cases": the sheet of a plain run, as bytes in a lent buffer.
#![tactic(auto)]

ghost use Rattle.std.specs.Prelude.{◌+◌, ◌≤◌, min, ◌++◌, length};
ghost use Rattle.buffers.specs.Line.{rest_of};
ghost use Rattle.buffers.specs.Put.{Puts};
ghost use Rattle.buffers.specs.Write.{Writes};
ghost use Rattle.sheet.specs.Sheet.{cycle_words, state_words, n_line, spent_line, refused_line, v_lines, t_lines, sheet_of, longest_sheet};

use clock::Cycle;
use model::{State, Threads, Variables};
use plain::PlainRun;

// A cycle, to the end of its line.
pub fn put_cycle(out: &mut [u8], at: usize, c: Cycle) -> usize
    ensures { Puts out.old at out.new result (rest_of (cycle_words c)) × (result ≤ at + 43) }
{
    let a = buffers::put_number(out, at, c.time.0);
    buffers::put_last(out, a, u64::from(c.delta.0))
}

// A state, to the end of its line. Document 01: "for wait: event, cycle begun".
fn put_state(out: &mut [u8], at: usize, s: State) -> usize
    ensures { Puts out.old at out.new result (rest_of (state_words s)) × (result ≤ at + 69) }
{
    let (a, c) = match s {
        State::Ended(c) => (buffers::put_word(out, at, b" ended"), c),
        State::Overrun(c) => (buffers::put_word(out, at, b" overrun"), c),
        State::Ready(c) => (buffers::put_word(out, at, b" ready"), c),
        State::Waiting(e, c) => {
            let b = buffers::put_word(out, at, b" wait");
            (buffers::put_number(out, b, u64::from(e)), c)
        }
        State::Running(c) => (buffers::put_word(out, at, b" running"), c),
    };
    put_cycle(out, a, c)
}

// Document 01: "v: variable, value". Lowest number first.
pub fn put_v_lines(out: &mut [u8], at: usize, v: u8, xs: Variables) -> usize
    ensures { Puts out.old at out.new result (v_lines (min v 64) xs.at) × (result ≤ at + 2816) }
{
    let n = usize::from(v).min(64);
    let mut to = at.min(out.len());
    for (i, x) in xs.at[..n].iter().enumerate() {
        let a = buffers::put_byte(out, to, b'v');
        let b = buffers::put_number(out, a, i as u64);
        to = buffers::put_last(out, b, u64::from(*x));
    }
    to
}

// Document 01: "t: thread, segment, state, then the cycle". Lowest number first.
pub fn put_t_lines(out: &mut [u8], at: usize, t: u8, xs: Threads) -> usize
    ensures { Puts out.old at out.new result (t_lines (min t 32) xs.at) × (result ≤ at + 3584) }
{
    let n = usize::from(t).min(32);
    let mut to = at.min(out.len());
    for (k, x) in xs.at[..n].iter().enumerate() {
        let a = buffers::put_byte(out, to, b't');
        let b = buffers::put_number(out, a, k as u64);
        let c = buffers::put_number(out, b, u64::from(x.segment));
        to = put_state(out, c, x.state);
    }
    to
}

// Document 01: "n: segments run"; "a spent run has `spent` as a further last line".
fn put_end(out: &mut [u8], at: usize, n: u64, spent: bool) -> usize
    ensures { Puts out.old at out.new result (n_line n ++ spent_line spent) × (result ≤ at + 29) }
{
    let a = buffers::put_byte(out, at, b'n');
    let b = buffers::put_last(out, a, n);
    if spent {
        buffers::put_word(out, b, b"spent\n")
    } else {
        b
    }
}

// Document 01: "A refused file prints only `refused` and its number". The line at the front of out; its length in bytes.
// Where out is too short for it: 0, and nothing is written.
pub fn refusal(number: u8, out: &mut [u8]) -> usize
    ensures writes { Writes out.old out.new result (refused_line number) }
    ensures number_len_bound { length (refused_line number) ≤ longest_sheet }
{
    let mut text = [0u8; 32];
    let a = buffers::put_word(&mut text, 0, b"refused");
    let n = buffers::put_last(&mut text, a, u64::from(number));
    buffers::copy_in(&text[..n], out)
}

// The sheet of a plain run of a model with v variables and t threads, in the same way. No sheet is longer than 6,429 bytes.
pub fn sheet(v: u8, t: u8, run: PlainRun, out: &mut [u8]) -> usize
    ensures writes { Writes out.old out.new result (sheet_of v t run) }
    ensures run_len_bound { length (sheet_of v t run) ≤ longest_sheet }
{
    if run.number != 0 {
        return refusal(run.number, out);
    }
    let mut text = [0u8; 8192];
    let a = put_v_lines(&mut text, 0, v, run.variables);
    let b = put_t_lines(&mut text, a, t, run.threads);
    let n = put_end(&mut text, b, run.n, run.spent);
    buffers::copy_in(&text[..n], out)
}
