// Document 02, slip 6: "works out one segment's row when it is needed".
#![tactic(auto)]

ghost use Rattle.std.specs.Prelude.{◌≡◌, cond, true, false, min, ◌≤◌, ◌<◌, length};
ghost use Rattle.model.specs.Rules.{model_fault};
ghost use Rattle.tables_distance.specs.Store.{far};
ghost use Rattle.tables_row.specs.Row.{step_word, step_words, steps_in, IsRow};
ghost use Rattle.tables_row.specs.Lower.{start_to, is_lower, lowered_at, Lowers, RestsAt, RestsTo, Settles};

use model::{CUT_WORD, Model};
use tables_distance::Steps;

// The word in the upper 48 bits, then the two next segments.
fn step_word(g: Steps) -> u64
    requires { g.word ≤ far }
    ensures { result ≡ step_word g }
{
    g.word * 65536 + u64::from(g.a) * 256 + u64::from(g.b)
}

fn store_steps(m: Model, steps: &mut [u64])
    requires { 64 ≤ length steps.old }
    ensures { steps.new ≡ steps_in m steps.old }
{
    for (s, g) in m.segments.iter().enumerate() {
        steps[s] = step_word(tables_distance::steps_of(g.closer));
    }
}

// The steps of all 64 places; a buffer below 64 words stays.
pub fn fill_steps(m: Model, steps: &mut [u64])
    ensures { steps.new ≡ steps_in m steps.old }
{
    if steps.len() >= 64 {
        store_steps(m, steps);
    }
}

// "0 to itself"; no other segment is reached yet.
fn start(row: &mut [u64], r: usize)
    ensures { row.new ≡ start_to r row.old (length row.old) }
{
    for (s, w) in row.iter_mut().enumerate() {
        *w = if s == r { 0 } else { CUT_WORD };
    }
}

// Word t made c, if that is less; whether it was.
fn lower(row: &mut [u64], t: usize, c: u64) -> bool
    ensures told { result ≡ is_lower (length row.old) t c row.old }
    ensures after { row.new ≡ lowered_at (length row.old) t c row.old }
{
    if t >= row.len() || c >= row[t] {
        return false;
    }
    row[t] = c;
    true
}

// The step of place s, to both its next segments.
fn follow(steps: &[u64], s: usize, row: &mut [u64]) -> bool
    requires { (s < length row.old) × (length row.old ≤ length steps.now) }
    ensures lowers { Lowers steps.now (length row.old) result row.old row.new }
    ensures rests { result ≡ false → RestsAt steps.now (length row.old) row.old s }
{
    let d = row[s];
    let g = steps[s];
    let w = g / 65536;
    if d >= CUT_WORD || w >= CUT_WORD {
        return false;
    }
    let c = tables_distance::sum_word(d, w);
    let x = lower(row, (g / 256 % 256) as usize, c);
    let y = lower(row, (g % 256) as usize, c);
    x || y
}

// The steps of all places in order, each on the row as those before it left it; whether a word changed.
fn pass(steps: &[u64], row: &mut [u64]) -> bool
    requires { length row.old ≤ length steps.now }
    ensures lowers { Lowers steps.now (length row.old) result row.old row.new }
    ensures rests { result ≡ false → RestsTo steps.now (length row.old) row.old (length row.old) }
{
    let mut changed = false;
    for s in 0..row.len() {
        if follow(steps, s, row) {
            changed = true;
        }
    }
    changed
}

// Until a pass changes nothing.
fn relax(steps: &[u64], row: &mut [u64])
    requires { length row.old ≤ length steps.now }
    ensures { Settles steps.now (length row.old) row.old row.new }
{
    let mut changed = true;
    while changed {
        changed = pass(steps, row);
    }
}

// Row r, of which the first n words are the distances from segment r; a buffer below 64 words stays.
pub fn fill_row(steps: &[u64], n: u8, r: usize, row: &mut [u64])
    ensures kept { length row.new ≡ length row.old }
    ensures row { (m : Model) → model_fault m ≡ 0 → n ≡ m.n → steps.now ≡ step_words m → r < m.n → 64 ≤ length row.old → IsRow m r row.new }
{
    let k = usize::from(n).min(64);
    if steps.len() < 64 || row.len() < 64 || r >= k {
        return;
    }
    let row = &mut row[..k];
    start(row, r);
    relax(steps, row);
    tables_distance::cut_words(row, k);
}
