// A model packed into words, for the plain run, and what is read of them: how a segment closes, and whether one names a port.
#![tactic(auto)]

ghost use Rattle.std.specs.Prelude.{◌≡◌, ℕ, ◌+◌, ◌*◌, ◌≤◌, ◌<◌, ◌^◌, get_or, length};
ghost use Rattle.model.specs.Port.{is_port};
ghost use Rattle.model.specs.Values.{no_statement};
ghost use Rattle.plain_words.specs.Pack.{Held, few, pack_end, pack_next, pack_choice, code_of, IsCode, IsPort, IsPorts};
ghost use Rattle.plain_words.specs.Ports.{word_names, names_from, marked_if, Marks, any_marked};
ghost use Rattle.plain_words.specs.Unpack.{end_by, size_by};

use model::{Closer, Model, Next, Op, Statement};

// The mark of a segment that names a port, in the word that says how it closes.
pub const PORTS: u64 = 17592186044416;

// A statement: its operation, a and b.
fn packed(code: u64, a: u8, b: u32) -> u64
    requires { code < 8 }
    ensures word { result ≡ code + 8 * a + 2048 * b }
    ensures constant { b < 2 ^ 32 }
{
    code + 8 * u64::from(a) + 2048 * u64::from(b)
}

fn pack_op(op: Op) -> u64
    ensures { Held op result }
{
    match op {
        Op::Set(a, b) => packed(0, a, b),
        Op::Add(a, b) => packed(1, a, b),
        Op::Copy(a, b) => packed(2, a, b),
        Op::AddVariable(a, b) => packed(3, a, b),
        Op::SubVariable(a, b) => packed(4, a, b),
        Op::Notify(w) => packed(5, w, 0),
    }
}

// A number of statements, at most the 32 that a row has. A function, since the proof of what is packed goes by its clauses.
fn few(n: u8) -> u64
    ensures word { result ≡ few n }
    ensures range { result ≤ 32 }
{
    u64::from(n.min(32))
}

// How a segment closes, with its number of statements: the kind, and the delay or the event.
fn pack_end(n: u8, closer: Closer) -> u64
    ensures word { result ≡ pack_end n closer }
    ensures range { result < 2 ^ 44 }
    ensures statements { size_by result ≤ 32 }
{
    let size = few(n);
    match closer {
        Closer::End => 4 * size,
        Closer::Time(k, _) => 1 + 4 * size + 1024 * u64::from(k.0),
        Closer::Event(e, _) => 2 + 4 * size + 1024 * u64::from(e),
    }
}

fn pack_next(x: Next) -> u64
    ensures { result ≡ pack_next x }
{
    u64::from(x.a)
        + 256 * u64::from(x.b)
        + 65536 * u64::from(x.test)
        + 16777216 * u64::from(x.limit)
}

fn pack_choice(closer: Closer) -> u64
    ensures { result ≡ pack_choice closer }
{
    match closer {
        Closer::End => 0,
        Closer::Time(_, x) => pack_next(x),
        Closer::Event(_, x) => pack_next(x),
    }
}

// A segment's statements, from a place on.
fn pack_statements(statements: &[Statement; 32], base: usize, code: &mut [u64; 4384])
    requires base_bound { base + 32 ≤ 2176 }
    requires code_len { length code.old ≡ 4384 }
    ensures places { length code.new ≡ 4384 }
    ensures size { length statements.now ≡ 32 }
    ensures here { (j : ℕ) → j < 32 → Held (get_or statements.now j no_statement).op (get_or code.new (base + j) 0) }
    ensures before { (k : ℕ) → k < base → get_or code.new k 0 ≡ get_or code.old k 0 }
    ensures rest { (k : ℕ) → 2432 ≤ k → get_or code.new k 0 ≡ get_or code.old k 0 }
{
    for (j, x) in statements.iter().enumerate() {
        code[base + j] = pack_op(x.op);
    }
}

// Document 02: "128 to 135 .. mean ports 0 to 7".
fn is_port(x: u64) -> bool
    ensures { result ≡ is_port x }
{
    128 <= x && x < 136
}

// Whether a statement names a port.
fn names_port(w: u64) -> bool
    ensures { result ≡ word_names w }
{
    // A number, not an enum: the run reads packed words, and to unpack one is slower.
    let code = w % 8;
    code <= 4 && (is_port((w / 8) % 256) || (2 <= code && is_port(w / 2048)))
}

// Whether a segment does, whose words stand from a place on: its test, or one of its n statements.
fn names_ports(code: &[u64; 4384], base: usize, n: usize) -> bool
    requires base_bound { base + 34 ≤ 2176 }
    requires n_bound { n ≤ 32 }
    ensures { result ≡ names_from code.now base n }
{
    is_port((code[base + 1] / 65536) % 256)
        || code[base + 2..base + 2 + n].iter().any(|w| names_port(*w))
}

// How a segment closes, marked if it names a port.
fn marked_end(code: &[u64; 4384], base: usize, end: u64) -> u64
    requires base_bound { base + 34 ≤ 2176 }
    requires end_bound { end < 2 ^ 44 }
    requires end_bound_2 { size_by end ≤ 32 }
    ensures { result ≡ marked_if (names_from code.now base (size_by end)) end }
{
    if names_ports(code, base, size_of(end)) {
        end + PORTS
    } else {
        end
    }
}

// One thread's ports are put at their place.
fn pack_eight(from: [u8; 8], base: usize, code: &mut [u64; 4384])
    requires base_bound { base + 8 ≤ 2432 }
    requires code_len { length code.old ≡ 4384 }
    ensures places { length code.new ≡ 4384 }
    ensures here { (p : ℕ) → p < 8 → IsPort (get_or from p 0) (get_or code.new (base + p) 0) }
    ensures before { (i : ℕ) → i < base → get_or code.new i 0 ≡ get_or code.old i 0 }
    ensures rest { (i : ℕ) → 2432 ≤ i → get_or code.new i 0 ≡ get_or code.old i 0 }
{
    for (p, port) in from.iter().enumerate() {
        code[base + p] = u64::from(*port);
    }
}

// The ports of a model's threads, behind its segments.
fn pack_ports(m: Model, code: &mut [u64; 4384])
    requires { length code.old ≡ 4384 }
    ensures places { length code.new ≡ 4384 }
    ensures here { IsPorts m code.new }
    ensures before { (i : ℕ) → i < 2176 → get_or code.new i 0 ≡ get_or code.old i 0 }
    ensures rest { (i : ℕ) → 2432 ≤ i → get_or code.new i 0 ≡ get_or code.old i 0 }
{
    for (k, start) in m.starts.iter().enumerate() {
        pack_eight(start.ports, 2176 + 8 * k, code);
    }
}

// The words of a model, whether it keeps the file rules or not.
pub fn pack(m: Model) -> [u64; 4384]
    ensures words { result ≡ code_of m }
    ensures held { IsCode m 64 result }
    ensures ports { IsPorts m result }
    ensures marks { Marks result }
{
    let mut code = [0u64; 4384];
    for (s, g) in m.segments.iter().enumerate() {
        let base = 34 * s;
        let end = pack_end(g.n, g.closer);
        code[base + 1] = pack_choice(g.closer);
        pack_statements(&g.statements, base + 2, &mut code);
        code[base] = marked_end(&code, base, end);
    }
    pack_ports(m, &mut code);
    code
}

// How segment s closes.
pub fn end_of(code: &[u64; 4384], s: u8) -> u64
    ensures { result ≡ end_by code.now s }
{
    code[34 * (usize::from(s) % 128)]
}

// How many statements that closes.
pub fn size_of(end: u64) -> usize
    ensures { result ≡ size_by end }
{
    ((end / 4) % 64) as usize
}

// Whether some segment has the mark.
pub fn any_marked(code: &[u64; 4384]) -> bool
    ensures { result ≡ any_marked code.now }
{
    (0..64).any(|s| PORTS <= code[34 * s])
}
