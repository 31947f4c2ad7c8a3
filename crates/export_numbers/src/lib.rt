// Document 02, slip 2: the numbers of a model, at the front of a lent slice.
#![tactic(auto)]

ghost use Rattle.std.specs.Prelude.{◌+◌, ◌<◌, ◌≤◌, ◌≡◌, cond, [], ◌∷◌, eqb, length};
ghost use Rattle.std.proofs.lemmas.List.Edits.{sets};
ghost use Rattle.buffers.specs.Write.{Writes};
ghost use Rattle.model.specs.Values.{segment_at, start_at};
ghost use Rattle.model.specs.Rules.{model_fault};
ghost use Rattle.writer.specs.Bytes.{joined};
ghost use Rattle.export_model.specs.Numbers.{segment_place, size_of, closer_numbers, op_numbers, segment_numbers, start_numbers, numbers_of};

use model::{Closer, Model, Op, Segment, Start};

// Kind, event, delay, A, B, test and limit.
fn closer_numbers(closer: Closer) -> [u32; 7]
    ensures { result ≡ closer_numbers closer }
{
    match closer {
        Closer::End => [0; 7],
        Closer::Time(k, x) => [
            1,
            0,
            k.0,
            u32::from(x.a),
            u32::from(x.b),
            u32::from(x.test),
            x.limit,
        ],
        Closer::Event(e, x) => [
            2,
            u32::from(e),
            0,
            u32::from(x.a),
            u32::from(x.b),
            u32::from(x.test),
            x.limit,
        ],
    }
}

// Operation, a and b.
fn op_numbers(op: Op) -> [u32; 3]
    ensures { result ≡ op_numbers op }
{
    match op {
        Op::Set(a, b) => [1, u32::from(a), b],
        Op::Add(a, b) => [2, u32::from(a), b],
        Op::Copy(a, b) => [3, u32::from(a), b],
        Op::AddVariable(a, b) => [4, u32::from(a), b],
        Op::SubVariable(a, b) => [5, u32::from(a), b],
        Op::Notify(e) => [6, u32::from(e), 0],
    }
}

// A closer, n, and n statements; 0 past them.
fn segment_numbers(g: Segment) -> [u32; 104]
    requires { g.n ≤ 32 }
    ensures { result ≡ segment_numbers g }
{
    let mut numbers = [0; 104];
    buffers::put(&mut numbers, 0, &closer_numbers(g.closer));
    numbers[7] = u32::from(g.n);
    for (j, x) in g.statements[..usize::from(g.n)].iter().enumerate() {
        buffers::put(&mut numbers, 8 + 3 * j, &op_numbers(x.op));
    }
    numbers
}

// H, V, E, N, T.
fn put_head(m: Model, xs: &mut [u32])
    requires { (m.horizon.0 < 4294967296) × (5 ≤ length xs.old) }
    ensures { xs.new ≡ sets xs.old 0 (m.horizon.0 ∷ m.v ∷ m.e ∷ m.n ∷ m.t ∷ []) }
{
    let head = [
        m.horizon.0 as u32,
        u32::from(m.v),
        u32::from(m.e),
        u32::from(m.n),
        u32::from(m.t),
    ];
    buffers::put(xs, 0, &head);
}

fn put_segments(m: Model, xs: &mut [u32])
    requires { (model_fault m ≡ 0) × (m.n ≤ 64) × (segment_place m.n ≤ length xs.old) }
    ensures { xs.new ≡ sets xs.old 5 (joined m.n 0 (λ i. segment_numbers (segment_at m i))) }
{
    for (i, g) in m.segments[..usize::from(m.n)].iter().enumerate() {
        buffers::put(xs, 5 + 104 * i, &segment_numbers(*g));
    }
}

// A thread's first segment and its ports.
fn start_numbers(x: Start) -> [u32; 9]
    ensures { result ≡ start_numbers x }
{
    [
        u32::from(x.first),
        u32::from(x.ports[0]),
        u32::from(x.ports[1]),
        u32::from(x.ports[2]),
        u32::from(x.ports[3]),
        u32::from(x.ports[4]),
        u32::from(x.ports[5]),
        u32::from(x.ports[6]),
        u32::from(x.ports[7]),
    ]
}

fn put_starts(m: Model, xs: &mut [u32])
    requires { (m.n ≤ 64) × (m.t ≤ 32) × (size_of m.n m.t ≤ length xs.old) }
    ensures { xs.new ≡ sets xs.old (segment_place m.n) (joined m.t 0 (λ k. start_numbers (start_at m k))) }
{
    let p = 5 + 104 * usize::from(m.n);
    for (k, x) in m.starts[..usize::from(m.t)].iter().enumerate() {
        buffers::put(xs, p + 9 * k, &start_numbers(*x));
    }
}

// A model as numbers, at the front of the slice: how many. 0 where it breaks a rule or the slice is too short, and then nothing is written.
pub fn numbers_into(m: Model, xs: &mut [u32]) -> usize
    ensures { Writes xs.old xs.new result (cond (eqb (model_fault m) 0) (numbers_of m) []) }
{
    if model_rules::model_fault(m).is_err() {
        return 0;
    }
    let size = 5 + 104 * usize::from(m.n) + 9 * usize::from(m.t);
    if xs.len() < size {
        return 0;
    }
    put_head(m, xs);
    put_segments(m, xs);
    put_starts(m, xs);
    size
}
