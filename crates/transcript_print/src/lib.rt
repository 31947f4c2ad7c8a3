// What `replayrun` prints, as bytes in a lent buffer: the transcript of a list of calls, and that of a list on a model file.
#![tactic(auto)]

ghost use Rattle.std.specs.Prelude.{◌+◌, ◌*◌, ◌<◌, ◌≤◌, min, ◌≡◌, ◌∷◌, length};
ghost use Rattle.buffers.specs.Line.{rest_of};
ghost use Rattle.buffers.specs.Put.{Puts};
ghost use Rattle.buffers.specs.Write.{placed_in, Writes};
ghost use Rattle.early.specs.Log.{places};
ghost use Rattle.transcript.specs.Label.{value_of, kind_of, label_of, thread_of, word_of};
ghost use Rattle.transcript.specs.Transcript.{label_word, letter_of, done_word, printed_answer, call_line_at, call_lines, l_line, l_lines, closing_of, transcript_of, longest_transcript};
ghost use Rattle.transcript_print.specs.Text.{call_words, replay_text};

use early::{Notification, Site};
use model::Threads;

// Stands for an argument that is no number. Not an Option: a label is a word, and the text that is printed is said of words.
const NO_NUMBER: u64 = 18446744073709551615;

// The number that digits say.
fn value_of(arg: &[u8]) -> u64
    ensures { result ≡ value_of arg.now }
{
    if arg.is_empty() || 19 < arg.len() {
        return NO_NUMBER;
    }
    let mut x: u64 = 0;
    for b in arg {
        if !b.is_ascii_digit() {
            return NO_NUMBER;
        }
        x = x * 10 + u64::from(*b - b'0');
    }
    x
}

// An argument's kind: `g` for a grant, `f` for a finish, or else `r`. The letter, not an enum: the text that is printed is said of letters.
pub fn kind_of(arg: &[u8]) -> u8
    ensures { result ≡ kind_of arg.now }
{
    let letter = arg.first().copied().unwrap_or(0);
    match letter {
        b'g' | b'f' => letter,
        _ => b'r',
    }
}

// The number in an argument, after the letter of its kind.
pub fn label_of(arg: &[u8]) -> u64
    ensures { result ≡ label_of arg.now }
{
    if kind_of(arg) == b'r' {
        value_of(arg)
    } else {
        value_of(&arg[1..])
    }
}

// The thread that a label asks for.
pub fn thread_of(label: u64) -> u8
    ensures { result ≡ thread_of label }
{
    if label < 255 { label as u8 } else { 255 }
}

// The call that a kind and a label ask for, as a word.
fn word_of(kind: u8, label: u64) -> u16
    ensures { result ≡ word_of kind label }
{
    let k = u16::from(thread_of(label));
    match kind {
        b'g' => 256 + k,
        b'f' => 512 + k,
        _ => k,
    }
}

// The words of all calls, at the front of a buffer.
fn fill_words(kinds: &[u8], labels: &[u64], calls: &mut [u16])
    requires labels_in_bounds { length labels.now ≤ length kinds.now }
    requires labels_in_bounds_2 { length labels.now ≤ length calls.old }
    ensures { calls.new ≡ placed_in (call_words kinds.now labels.now) calls.old }
{
    for (i, label) in labels.iter().enumerate() {
        calls[i] = word_of(kinds[i], *label);
    }
}

// A space, and the label or `?`.
fn put_label(out: &mut [u8], at: usize, label: u64) -> usize
    ensures { Puts out.old at out.new result (32 ∷ label_word label) × (result ≤ at + 21) }
{
    if label == NO_NUMBER {
        buffers::put_word(out, at, b" ?")
    } else {
        buffers::put_number(out, at, label)
    }
}

// The letter of a call's line.
fn letter_of(word: u64) -> u8
    ensures { result ≡ letter_of word }
{
    match word {
        0..=255 => b'r',
        256..=511 => b'g',
        _ => b'f',
    }
}

// A space, and `granted`, of a finish `finished`.
fn put_done(out: &mut [u8], at: usize, word: u64) -> usize
    ensures { Puts out.old at out.new result (32 ∷ done_word word) × (result ≤ at + 9) }
{
    if word < 512 {
        buffers::put_word(out, at, b" granted")
    } else {
        buffers::put_word(out, at, b" finished")
    }
}

// An answer, to the end of its line.
fn put_answer(
    out: &mut [u8],
    at: usize,
    word: u64,
    number: u64,
    segment: u64,
    time: u64,
    delta: u64,
) -> usize
    ensures { Puts out.old at out.new result (rest_of (printed_answer word number segment time delta)) × (result ≤ at + 73) }
{
    if number == 0 {
        let a = put_done(out, at, word);
        let b = buffers::put_number(out, a, segment);
        let c = buffers::put_number(out, b, time);
        buffers::put_last(out, c, delta)
    } else {
        let a = buffers::put_word(out, at, b" refused");
        buffers::put_last(out, a, number)
    }
}

// The line of call i.
fn put_call_line(out: &mut [u8], at: usize, labels: &[u64], answers: &[u64], i: usize) -> usize
    requires i_in_bounds { i < length labels.now }
    requires labels_in_bounds { 5 * length labels.now ≤ length answers.now }
    ensures { Puts out.old at out.new result (call_line_at labels.now answers.now i) × (result ≤ at + 95) }
{
    let w = 5 * i;
    let word = answers[w];
    let a = buffers::put_byte(out, at, letter_of(word));
    let b = put_label(out, a, labels[i]);
    put_answer(
        out,
        b,
        word,
        answers[w + 1],
        answers[w + 2],
        answers[w + 3],
        answers[w + 4],
    )
}

// The lines of the calls, in their order.
fn put_call_lines(out: &mut [u8], labels: &[u64], answers: &[u64]) -> usize
    requires { 5 * length labels.now ≤ length answers.now }
    ensures { Puts out.old 0 out.new result (call_lines (length labels.now) labels.now answers.now) × (result ≤ 95 * length labels.now) }
{
    let mut to = 0;
    for i in 0..labels.len() {
        to = put_call_line(out, to, labels, answers, i);
    }
    to
}

// Document 01: "notifications (event, cycle)".
fn put_l_line(out: &mut [u8], at: usize, x: Notification) -> usize
    ensures { Puts out.old at out.new result (l_line x) × (result ≤ at + 65) }
{
    let a = buffers::put_byte(out, at, b'l');
    let b = buffers::put_number(out, a, u64::from(x.event));
    sheet_print::put_cycle(out, b, x.cycle)
}

// The lines of the log, in its order.
fn put_l_lines(out: &mut [u8], at: usize, site: Site) -> usize
    requires { at ≤ length out.old }
    ensures { Puts out.old at out.new result (l_lines (min site.count places) site.log) × (result ≤ at + 8320) }
{
    let n = usize::from(site.count).min(128);
    let mut to = at;
    for x in &site.log[..n] {
        to = put_l_line(out, to, *x);
    }
    to
}

// The variables, the threads, the log.
fn put_closing(out: &mut [u8], at: usize, v: u8, t: u8, site: Site, threads: Threads) -> usize
    ensures { Puts out.old at out.new result (closing_of v t site threads.at) × (result ≤ at + 14720) }
{
    let a = sheet_print::put_v_lines(out, at, v, site.variables);
    let b = sheet_print::put_t_lines(out, a, t, threads);
    put_l_lines(out, b, site)
}

// The transcript at the front of out; its length in bytes. Where out is too short for it: 0, and nothing is written.
// More than 1,024 calls, or fewer than 5 words for each: `refused 11`. No transcript is longer than 112,000 bytes.
pub fn transcript(
    labels: &[u64],
    answers: &[u64],
    v: u8,
    t: u8,
    site: Site,
    threads: Threads,
    out: &mut [u8],
) -> usize
    ensures writes { Writes out.old out.new result (transcript_of labels.now answers.now v t site threads.at) }
    ensures at_len_bound { length (transcript_of labels.now answers.now v t site threads.at) ≤ longest_transcript }
{
    if 1024 < labels.len() {
        return sheet_print::refusal(11, out);
    }
    if answers.len() < 5 * labels.len() {
        return sheet_print::refusal(11, out);
    }
    let mut text = [0u8; 131072];
    let a = put_call_lines(&mut text, labels, answers);
    let n = put_closing(&mut text, a, v, t, site, threads);
    buffers::copy_in(&text[..n], out)
}

// What is printed of a file and of calls, each a kind and a label, at the front of out; how many bytes. More than 1,024 labels, or fewer
// kinds: `refused 11`. A buffer that is too short stays, and the answer is 0; none is too short that has 112,000 bytes.
pub fn replay_text(file: &[u8], kinds: &[u8], labels: &[u64], out: &mut [u8]) -> usize
    ensures writes { Writes out.old out.new result (replay_text file.now kinds.now labels.now) }
    ensures labels_len_bound { length (replay_text file.now kinds.now labels.now) ≤ longest_transcript }
{
    if 1024 < labels.len() {
        return sheet_print::refusal(11, out);
    }
    if kinds.len() < labels.len() {
        return sheet_print::refusal(11, out);
    }
    let n = labels.len();
    let mut calls = [0u16; 1024];
    fill_words(kinds, labels, &mut calls);
    let mut words = [0u64; 4096];
    let mut held = [0u32; 2048];
    let mut answers = [0u64; 5120];
    let r = replay::replay(file, &mut words, &mut held, &calls[..n], &mut answers);
    if r.number != 0 {
        return sheet_print::refusal(r.number, out);
    }
    transcript(labels, &answers[..5 * n], r.v, r.t, r.site, r.threads, out)
}
