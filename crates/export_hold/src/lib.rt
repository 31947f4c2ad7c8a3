// Document 02, slip 2: the model that numbers hold, and their number.
#![tactic(auto)]

ghost use Rattle.std.specs.Prelude.{ℕ, ◌+◌, ◌-◌, ◌<◌, ◌≤◌, ◌≡◌, ◌++◌, length, replicate};
ghost use Rattle.base.specs.Index.{tabulate};
ghost use Rattle.refusal.specs.Number.{number_told};
ghost use Rattle.model.specs.Values.{no_segment, no_start};
ghost use Rattle.reader.specs.Statement.{op_of};
ghost use Rattle.export_model.specs.Numbers.{number_at, count_n, count_t, segment_place, start_place, port_place, size_of, next_held, closer_held};
ghost use Rattle.export_model.specs.Judged.{parts_fault, numbers_number, segment_held, model_held, held_or};

use clock::{Delay, Time};
use model::{Closer, Model, Next, Op, Segment, Start, Statement};
use refusal::Refusal;
use std::array;

// What comes after the closer at p.
fn next_held(xs: &[u32], p: usize) -> Next
    requires { (p + 104 ≤ length xs.now) × (number_at xs.now (p + 3) < 256) × (number_at xs.now (p + 4) < 256) × (number_at xs.now (p + 5) < 256) }
    ensures { result ≡ next_held xs.now p }
{
    Next {
        a: xs[p + 3] as u8,
        b: xs[p + 4] as u8,
        test: xs[p + 5] as u8,
        limit: xs[p + 6],
    }
}

// The closer of segment i.
fn closer_held(xs: &[u32], i: usize) -> Closer
    requires { (segment_place i + 104 ≤ length xs.now) × (parts_fault xs.now ≡ 0) × (i < count_n xs.now) }
    ensures { result ≡ closer_held xs.now (segment_place i) }
{
    let p = 5 + 104 * i;
    match xs[p] {
        1 => Closer::Time(Delay(xs[p + 2]), next_held(xs, p)),
        2 => Closer::Event(xs[p + 1] as u8, next_held(xs, p)),
        _ => Closer::End,
    }
}

// A statement by its operation, a and b.
fn op_held(op: u32, a: u32, b: u32) -> Op
    requires { a < 256 }
    ensures { result ≡ op_of op a b }
{
    let x = a as u8;
    match op {
        1 => Op::Set(x, b),
        2 => Op::Add(x, b),
        3 => Op::Copy(x, b),
        4 => Op::AddVariable(x, b),
        5 => Op::SubVariable(x, b),
        _ => Op::Notify(x),
    }
}

// Segment i.
fn segment_held(xs: &[u32], i: usize) -> Segment
    requires { (segment_place i + 104 ≤ length xs.now) × (parts_fault xs.now ≡ 0) × (i < count_n xs.now) }
    ensures { result ≡ segment_held xs.now i }
{
    let p = 5 + 104 * i;
    let n = xs[p + 7];
    let mut g = Segment {
        closer: closer_held(xs, i),
        n: n as u8,
        statements: [Statement { op: Op::Set(0, 0) }; 32],
    };
    for j in 0..n as usize {
        let q = p + 8 + 3 * j;
        let op = op_held(xs[q], xs[q + 1], xs[q + 2]);
        g.statements[j] = Statement { op };
    }
    g
}

fn segments_held(xs: &[u32], n: usize) -> [Segment; 64]
    requires { (segment_place n ≤ length xs.now) × (n ≤ 64) × (parts_fault xs.now ≡ 0) × (n ≡ count_n xs.now) }
    ensures { result ≡ tabulate n 0 (λ i. segment_held xs.now i) ++ replicate (64 - n) no_segment }
{
    let mut segments = [model_effect::no_segment(); 64];
    for i in 0..n {
        segments[i] = segment_held(xs, i);
    }
    segments
}

// The eight ports from place p on.
fn ports_held(xs: &[u32], p: usize) -> [u8; 8]
    requires { (p + 8 ≤ length xs.now) × ((i : ℕ) → i < 8 → number_at xs.now (p + i) < 256) }
    ensures { result ≡ tabulate 8 0 (λ i. number_at xs.now (p + i)) }
{
    array::from_fn(|i| xs[p + i] as u8)
}

fn starts_held(xs: &[u32], n: usize, t: usize) -> [Start; 32]
    requires { (size_of n t ≤ length xs.now) × (t ≤ 32) × (parts_fault xs.now ≡ 0) × (n ≡ count_n xs.now) × (t ≡ count_t xs.now) }
    ensures { result ≡ tabulate t 0 (λ k. record { first = number_at xs.now (start_place n k); ports = tabulate 8 0 (λ p. number_at xs.now (port_place n k p)) }) ++ replicate (32 - t) no_start }
{
    let mut starts = [model_effect::no_start(); 32];
    for k in 0..t {
        let p = 5 + 104 * n + 9 * k;
        starts[k] = Start {
            first: xs[p] as u8,
            ports: ports_held(xs, p + 1),
        };
    }
    starts
}

// The model of numbers without a fault up to 8.
fn model_kept(xs: &[u32]) -> Model
    requires { (parts_fault xs.now ≡ 0) × (size_of (count_n xs.now) (count_t xs.now) ≤ length xs.now) × (number_at xs.now 1 ≤ 64) × (number_at xs.now 2 ≤ 32) × (count_n xs.now ≤ 64) × (count_t xs.now ≤ 32) }
    ensures { result ≡ model_held xs.now }
{
    let n = xs[3] as usize;
    Model {
        horizon: Time(u64::from(xs[0])),
        v: xs[1] as u8,
        e: xs[2] as u8,
        n: xs[3] as u8,
        t: xs[4] as u8,
        segments: segments_held(xs, n),
        starts: starts_held(xs, n, xs[4] as usize),
    }
}

// Numbers that hold a model, judged: 11 where the slice is shorter than its counts ask for, then the first fault in file order.
pub fn held_number(xs: &[u32]) -> Result<(), Refusal>
    ensures { number_told result ≡ numbers_number xs.now }
{
    let n = buffers::value_at(xs, 3) as usize;
    let t = buffers::value_at(xs, 4) as usize;
    if xs.len() < 5 + 104 * n + 9 * t {
        return Err(Refusal::Unfit);
    }
    export_judge::parts_fault(xs, n, t)?;
    model_rules::lack_fault(model_kept(xs))
}

// The model that the numbers hold; zero where they are refused.
pub fn model_held(xs: &[u32]) -> Model
    ensures { result ≡ held_or xs.now }
{
    match held_number(xs) {
        Ok(()) => model_kept(xs),
        Err(_) => model_effect::no_model(),
    }
}
