// Document 02, slip 2: numbers that hold a model, judged: the first fault in file order, up to 8.
#![tactic(auto)]

ghost use Rattle.std.specs.Prelude.{◌+◌, ◌≤◌, ◌≡◌, not, ltb, eqb, length};
ghost use Rattle.base.specs.Index.{any_below, or_else, first_below, tabulate};
ghost use Rattle.refusal.specs.Number.{number_told};
ghost use Rattle.model.specs.Refusal.{wrong_closer, wrong_name};
ghost use Rattle.model.specs.Rules.{unless, head_fault, choice_fault, is_name, test_fault, closer_fault, op_fault, ports_fault, leaves_model};
ghost use Rattle.reader.specs.Closer.{closer_form_fault};
ghost use Rattle.reader.specs.Statement.{op_of, op_form_fault};
ghost use Rattle.export_model.specs.Numbers.{number_at, count_n, count_t, segment_place, statement_place, start_place, size_of, next_held, closer_held};
ghost use Rattle.export_model.specs.Judged.{closer_numbers_fault, op_numbers_fault, segment_numbers_fault, start_numbers_fault, count_numbers_fault, target_numbers_fault, parts_fault};

use model::LARGEST_TIME;
use refusal::Refusal;

// A variable of the model, or a port.
fn is_name(v: u32, x: u32) -> bool
    ensures { result ≡ is_name v x }
{
    x < v || (128 <= x && x < 136)
}

// 4 where the horizon or a count is out of range.
fn head_fault(xs: &[u32]) -> Result<(), Refusal>
    requires { 5 ≤ length xs.now }
    ensures { number_told result ≡ head_fault (number_at xs.now 0) (number_at xs.now 1) (number_at xs.now 2) }
{
    let h = u64::from(xs[0]);
    model_rules::unless(
        1 <= h && h <= LARGEST_TIME && xs[1] <= 64 && xs[2] <= 32,
        Refusal::WrongCount,
    )
}

// Whether all of a closer but its kind is 0.
fn rest_is_zero(xs: &[u32], p: usize) -> bool
    requires { p + 104 ≤ length xs.now }
    ensures { result ≡ not (any_below 6 (λ i. not (eqb (number_at xs.now (p + 1 + i)) 0))) }
{
    xs[p + 1..p + 7].iter().all(|x| *x == 0)
}

// 5 where the numbers break a rule that a declared closer cannot.
fn closer_form_fault(xs: &[u32], p: usize) -> Result<(), Refusal>
    requires { p + 104 ≤ length xs.now }
    ensures { number_told result ≡ closer_form_fault (number_at xs.now p) (number_at xs.now (p + 1)) (number_at xs.now (p + 2)) (not (any_below 6 (λ i. not (eqb (number_at xs.now (p + 1 + i)) 0)))) }
{
    let kept = match xs[p] {
        0 => rest_is_zero(xs, p),
        1 => xs[p + 1] == 0,
        2 => xs[p + 2] == 0,
        _ => false,
    };
    model_rules::unless(kept, Refusal::WrongCloser)
}

// 5 where the delay is too long, or there is no test and B is not A or the limit not 0; then 7 where the event is not below
// E, or the test variable neither below V nor a port.
fn next_fault(xs: &[u32], p: usize, short: bool, named: bool) -> Result<(), Refusal>
    requires { p + 104 ≤ length xs.now }
    ensures { number_told result ≡ or_else (unless short wrong_closer) (or_else (choice_fault (next_held xs.now p)) (or_else (unless named wrong_name) (test_fault (number_at xs.now 1) (next_held xs.now p)))) }
{
    let test = xs[p + 5];
    let untested = test == 255;
    model_rules::unless(
        short && (!untested || (xs[p + 4] == xs[p + 3] && xs[p + 6] == 0)),
        Refusal::WrongCloser,
    )?;
    model_rules::unless(
        named && (untested || is_name(xs[1], test)),
        Refusal::WrongName,
    )
}

// The closer's 5 and 7 as a value.
fn closer_value_fault(xs: &[u32], p: usize) -> Result<(), Refusal>
    requires { p + 104 ≤ length xs.now }
    ensures { number_told result ≡ closer_fault (number_at xs.now 1) (number_at xs.now 2) (closer_held xs.now p) }
{
    match xs[p] {
        1 => next_fault(xs, p, u64::from(xs[p + 2]) <= LARGEST_TIME, true),
        2 => next_fault(xs, p, true, xs[p + 1] < xs[2]),
        _ => Ok(()),
    }
}

// The closer's 5 and 7.
fn closer_fault(xs: &[u32], p: usize) -> Result<(), Refusal>
    requires { p + 104 ≤ length xs.now }
    ensures { number_told result ≡ closer_numbers_fault xs.now p }
{
    closer_form_fault(xs, p)?;
    closer_value_fault(xs, p)
}

// A statement's 6: an operation outside 1 to 6, or b not 0 in a notify.
fn op_form_fault(op: u32, b: u32) -> Result<(), Refusal>
    ensures { number_told result ≡ op_form_fault op b }
{
    model_rules::unless(
        1 <= op && op <= 6 && (op != 6 || b == 0),
        Refusal::WrongStatement,
    )
}

// A statement's 7.
fn op_value_fault(v: u32, e: u32, op: u32, a: u32, b: u32) -> Result<(), Refusal>
    ensures { number_told result ≡ op_fault v e (op_of op a b) }
{
    let named = match op {
        1 | 2 => is_name(v, a),
        3..=5 => is_name(v, a) && is_name(v, b),
        _ => a < e,
    };
    model_rules::unless(named, Refusal::WrongName)
}

// A statement's 6 and 7.
fn op_fault(xs: &[u32], p: usize) -> Result<(), Refusal>
    requires { p + 3 ≤ length xs.now }
    ensures { number_told result ≡ op_numbers_fault xs.now p }
{
    op_form_fault(xs[p], xs[p + 2])?;
    op_value_fault(xs[1], xs[2], xs[p], xs[p + 1], xs[p + 2])
}

// The first fault of n statements of segment i.
fn statements_fault(xs: &[u32], i: usize, n: usize) -> Result<(), Refusal>
    requires { (segment_place i + 104 ≤ length xs.now) × (n ≤ 32) }
    ensures { number_told result ≡ first_below n (λ j. op_numbers_fault xs.now (statement_place i j)) }
{
    for j in 0..n {
        op_fault(xs, 5 + 104 * i + 8 + 3 * j)?;
    }
    Ok(())
}

// A segment's 3, its 4, its closer's 5 and 7, then 6 and 7 of each statement.
fn segment_fault(xs: &[u32], i: usize) -> Result<(), Refusal>
    requires { segment_place i + 104 ≤ length xs.now }
    ensures { number_told result ≡ segment_numbers_fault xs.now i }
{
    let p = 5 + 104 * i;
    let n = xs[p + 7] as usize;
    model_rules::unless(n <= 32, Refusal::WrongLength)?;
    model_rules::unless(i < 64, Refusal::WrongCount)?;
    closer_fault(xs, p)?;
    statements_fault(xs, i, n)
}

// The first fault of n segments.
fn segments_fault(xs: &[u32], n: usize) -> Result<(), Refusal>
    requires { segment_place n ≤ length xs.now }
    ensures { number_told result ≡ first_below n (λ i. segment_numbers_fault xs.now i) }
{
    for i in 0..n {
        segment_fault(xs, i)?;
    }
    Ok(())
}

// 17 where one of the eight ports from place p on is neither unused nor a variable of the model.
fn ports_fault(xs: &[u32], p: usize) -> Result<(), Refusal>
    requires { (5 ≤ p) × (p + 8 ≤ length xs.now) }
    ensures { number_told result ≡ ports_fault (number_at xs.now 1) (tabulate 8 0 (λ i. number_at xs.now (p + i))) }
{
    let v = xs[1];
    let kept = xs[p..p + 8].iter().all(|x| *x == 255 || *x < v);
    model_rules::unless(kept, Refusal::WrongPort)
}

// A thread's 4, then its ports' 17.
fn start_fault(xs: &[u32], n: usize, k: usize) -> Result<(), Refusal>
    requires { (start_place n k + 9 ≤ length xs.now) × (n ≡ count_n xs.now) }
    ensures { number_told result ≡ start_numbers_fault xs.now k }
{
    model_rules::unless(k < 32, Refusal::WrongCount)?;
    ports_fault(xs, 5 + 104 * n + 9 * k + 1)
}

// The first fault of t threads.
fn starts_fault(xs: &[u32], n: usize, t: usize) -> Result<(), Refusal>
    requires { (size_of n t ≤ length xs.now) × (n ≡ count_n xs.now) }
    ensures { number_told result ≡ first_below t (λ k. start_numbers_fault xs.now k) }
{
    for k in 0..t {
        start_fault(xs, n, k)?;
    }
    Ok(())
}

// 2 for no segment or no thread, then thread by thread.
fn counts_fault(xs: &[u32], n: usize, t: usize) -> Result<(), Refusal>
    requires { (size_of n t ≤ length xs.now) × (n ≡ count_n xs.now) × (t ≡ count_t xs.now) }
    ensures { number_told result ≡ count_numbers_fault xs.now }
{
    model_rules::unless(1 <= n && 1 <= t, Refusal::WrongKind)?;
    starts_fault(xs, n, t)
}

// Whether a next segment of the closer at p is not below N.
fn leaves_model(xs: &[u32], p: usize) -> bool
    requires { p + 104 ≤ length xs.now }
    ensures { result ≡ leaves_model (count_n xs.now) (closer_held xs.now p) }
{
    let n = xs[3];
    matches!(xs[p], 1 | 2) && !(xs[p + 3] < n && xs[p + 4] < n)
}

fn any_segment_leaves(xs: &[u32], n: usize) -> bool
    requires { segment_place n ≤ length xs.now }
    ensures { result ≡ any_below n (λ i. leaves_model (count_n xs.now) (closer_held xs.now (segment_place i))) }
{
    (0..n).any(|i| leaves_model(xs, 5 + 104 * i))
}

fn any_start_leaves(xs: &[u32], n: usize, t: usize) -> bool
    requires { size_of n t ≤ length xs.now }
    ensures { result ≡ any_below t (λ k. not (ltb (number_at xs.now (start_place n k)) (count_n xs.now))) }
{
    (0..t).any(|k| xs[3] <= xs[5 + 104 * n + 9 * k])
}

// 8 where a next or first segment is not below N.
fn targets_fault(xs: &[u32], n: usize, t: usize) -> Result<(), Refusal>
    requires { (size_of n t ≤ length xs.now) × (n ≡ count_n xs.now) × (t ≡ count_t xs.now) }
    ensures { number_told result ≡ target_numbers_fault xs.now }
{
    model_rules::unless(
        !(any_segment_leaves(xs, n) || any_start_leaves(xs, n, t)),
        Refusal::WrongTarget,
    )
}

// The first fault in file order, up to 8, in a slice that is long enough.
pub fn parts_fault(xs: &[u32], n: usize, t: usize) -> Result<(), Refusal>
    requires { (size_of n t ≤ length xs.now) × (n ≡ count_n xs.now) × (t ≡ count_t xs.now) }
    ensures { number_told result ≡ parts_fault xs.now }
{
    head_fault(xs)?;
    segments_fault(xs, n)?;
    counts_fault(xs, n, t)?;
    targets_fault(xs, n, t)
}
