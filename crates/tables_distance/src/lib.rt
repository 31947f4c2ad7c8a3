// Document 01, "Tables": the words of distance.
#![tactic(auto)]

ghost use Rattle.std.specs.Prelude.{◌≡◌, cond, ◌+◌, ◌*◌, ◌≤◌, ◌<◌, ltb, length};
ghost use Rattle.clock.specs.Advance.{advance_of};
ghost use Rattle.refusal.specs.Number.{number_told};
ghost use Rattle.model.specs.Refusal.{accepted, unfit, short_table};
ghost use Rattle.model.specs.Rules.{model_fault};
ghost use Rattle.tables.specs.Word.{stored, HoldsDistances};
ghost use Rattle.tables.specs.Outcome.{if_held, distances_number, distances_buffer};
ghost use Rattle.tables_distance.specs.Store.{far, held_word, sum_word, steps_of, direct_word, direct_to, direct_rows, relaxed_to, round_to, rounds_to, cut_to};

use clock::{Delay, Wait};
use model::{CUT_WORD, Closer, Model};
use refusal::Refusal;

// Document 01: "'never' as all ones".
const NEVER: u64 = u64::MAX;

// The next segments of a closer, and the word of a step to them. While the rounds run CUT_WORD stands for never.
#[derive(Clone, Copy)]
pub struct Steps {
    pub a: u8,
    pub b: u8,
    pub word: u64,
}

// Document 01: "A step over a time wait counts as the clock says": a zero wait is one delta, a timed wait its units.
fn units_word(k: Delay) -> u64
    ensures { result ≡ held_word (advance_of (Wait.Time k)) }
{
    let units = u64::from(k.0);
    if units == 0 {
        return 1;
    }
    CUT_WORD.min(units * 1024)
}

// Both next segments are steps, whatever the limit; "over an event wait it is one delta".
pub fn steps_of(closer: Closer) -> Steps
    ensures { result ≡ steps_of closer }
{
    match closer {
        Closer::End => Steps {
            a: 0,
            b: 0,
            word: CUT_WORD,
        },
        Closer::Time(k, x) => Steps {
            a: x.a,
            b: x.b,
            word: units_word(k),
        },
        Closer::Event(_, x) => Steps {
            a: x.a,
            b: x.b,
            word: 1,
        },
    }
}

// "0 to itself"; else by a step, or not at all.
fn direct_word(g: Steps, r: usize, s: usize) -> u64
    ensures { result ≡ direct_word g r s }
{
    if r == s {
        0
    } else if usize::from(g.a) == s || usize::from(g.b) == s {
        g.word
    } else {
        CUT_WORD
    }
}

// Row r: ways of at most one step.
fn direct_row(row: &mut [u64], r: usize, g: Steps)
    ensures { row.new ≡ direct_to g r 0 row.old (length row.old) }
{
    for (s, w) in row.iter_mut().enumerate() {
        *w = direct_word(g, r, s);
    }
}

// The sum of two words: a time wait starts the delta anew.
pub fn sum_word(a: u64, b: u64) -> u64
    requires { a < far }
    ensures { result ≡ sum_word a b }
{
    if b >= CUT_WORD {
        return CUT_WORD;
    }
    if b < 1024 {
        return a + b;
    }
    a / 1024 * 1024 + b
}

// The row that begins at p, where a way of word a leads to the row that begins at q.
fn relax_row(words: &mut [u64], n: usize, a: u64, p: usize, q: usize)
    requires { (a < far) × (p + n ≤ length words.old) × (q + n ≤ length words.old) }
    ensures { words.new ≡ relaxed_to a p q words.old n }
{
    // An index, not an iterator: each turn reads place j of one row and writes place j of the other, and the two may be one row.
    for j in 0..n {
        let c = sum_word(a, words[q + j]);
        if c < words[p + j] {
            words[p + j] = c;
        }
    }
}

// One round: every row, with ways over place k. The words and N stay two parameters, here and below: a struct of both would have to be lent
// anew for each call, and is no plainer.
fn round(words: &mut [u64], n: usize, k: usize)
    requires { (k < n) × (n * n ≤ length words.old) }
    ensures { words.new ≡ round_to n k words.old n }
{
    let q = k * n;
    for i in 0..n {
        let p = i * n;
        let a = words[p + k];
        if a < CUT_WORD {
            relax_row(words, n, a, p, q);
        }
    }
}

// A round for each place: N × N × N relaxations.
fn all_rounds(words: &mut [u64], n: usize)
    requires { n * n ≤ length words.old }
    ensures { words.new ≡ rounds_to n words.old n }
{
    for k in 0..n {
        round(words, n, k);
    }
}

// "'never' as all ones", also where there is a way of more than 1,000,000,000 units.
pub fn cut_words(words: &mut [u64], count: usize)
    requires { count ≤ length words.old }
    ensures { words.new ≡ cut_to words.old count }
{
    for w in words[..count].iter_mut() {
        if *w >= CUT_WORD {
            *w = NEVER;
        }
    }
}

// The rows of all segments: ways of at most one step.
fn direct_rows(m: Model, words: &mut [u64], n: usize)
    requires { (n ≡ m.n) × (n ≤ 64) × (n * n ≤ length words.old) }
    ensures { words.new ≡ direct_rows m words.old n }
{
    for (r, g) in m.segments[..n].iter().enumerate() {
        direct_row(&mut words[r * n..r * n + n], r, steps_of(g.closer));
    }
}

// All N × N words; those past them are not touched.
fn fill(m: Model, words: &mut [u64])
    requires { (model_fault m ≡ 0) × (m.n * m.n ≤ length words.old) }
    ensures { words.new ≡ stored m words.old }
{
    let n = m.n as usize;
    direct_rows(m, words, n);
    all_rounds(words, n);
    cut_words(words, n * n);
}

// Unfit if the model breaks the file rules, then a short table for a buffer of fewer than N × N words.
fn refusal(m: Model, size: usize) -> Result<(), Refusal>
    ensures { number_told result ≡ if_held m (cond (ltb size (m.n * m.n)) short_table accepted) unfit }
{
    if model_rules::model_fault(m).is_err() {
        return Err(Refusal::Unfit);
    }
    let n = m.n as usize;
    if size < n * n {
        return Err(Refusal::ShortTable);
    }
    Ok(())
}

// The distances of a held model, N × N words, each the least over all paths. On a refusal no word is written.
pub fn distances(m: Model, words: &mut [u64]) -> Result<(), Refusal>
    ensures number { number_told result ≡ distances_number m words.old }
    ensures buffer { words.new ≡ distances_buffer m words.old }
    ensures least { number_told result ≡ accepted → HoldsDistances m words.new }
{
    refusal(m, words.len())?;
    fill(m, words);
    Ok(())
}
