// Document 02, "Modules with ports": from which segments a thread could reach a port that it leaves unused.
#![tactic(auto)]

ghost use Rattle.std.specs.Prelude.{◌≡◌, ◌≤◌, ◌<◌, min, length};
ghost use Rattle.masks.specs.Mask.{mask_of};
ghost use Rattle.model_reach.specs.Lacks.{HoldsLacks};
ghost use Rattle.model_reach.specs.Store.{port_bit, op_ports, test_port, ports_of, first_row, joined, round_to, rounds_to, meets, unused_of, lack_of, lacks_to, lacks_by};

use model::{Closer, Model, Op, Segment, Start, Statement};

// Number 128 + p as bit p; 255 is none.
fn port_bit(x: u32) -> u64
    ensures { result ≡ port_bit x }
{
    if x < 128 {
        0
    } else {
        masks::with(0, (x - 128) as usize)
    }
}

// The ports that an operation names; b is the whole 32-bit number.
fn op_ports(op: Op) -> u64
    ensures { result ≡ op_ports op }
{
    match op {
        Op::Set(a, _) | Op::Add(a, _) => port_bit(u32::from(a)),
        Op::Copy(a, b) | Op::AddVariable(a, b) | Op::SubVariable(a, b) => {
            port_bit(u32::from(a)) | port_bit(b)
        }
        Op::Notify(_) => 0,
    }
}

// The port of the test variable.
fn test_port(closer: Closer) -> u64
    ensures { result ≡ test_port closer }
{
    match closer {
        Closer::End => 0,
        Closer::Time(_, x) | Closer::Event(_, x) => port_bit(u32::from(x.test)),
    }
}

// The ports that a segment names: its statements, as many as it counts and no more than its places, and its test variable.
fn ports_of(g: &Segment) -> u64
    ensures { result ≡ ports_of g.now }
{
    let places: &[Statement] = &g.statements;
    let mut w = 0;
    for x in &places[..usize::from(g.n).min(places.len())] {
        w |= op_ports(x.op);
    }
    w | test_port(g.closer)
}

// Segment r and its next segments.
fn first_row(closer: Closer, r: usize) -> u64
    ensures { result ≡ first_row closer r }
{
    let own = masks::with(0, r);
    match closer {
        Closer::End => own,
        Closer::Time(_, x) | Closer::Event(_, x) => {
            masks::with(masks::with(own, usize::from(x.a)), usize::from(x.b))
        }
    }
}

// A row with the row of k, where it has k.
fn joined(w: u64, over: u64, k: usize) -> u64
    ensures { result ≡ joined w over k }
{
    if masks::has(w, k) { w | over } else { w }
}

// One round: every row, with ways over segment k.
fn round(rows: &mut [u64], k: usize)
    requires { k < length rows.old }
    ensures { rows.new ≡ round_to rows.old k (length rows.old) }
{
    let over = rows[k];
    for row in rows.iter_mut() {
        *row = joined(*row, over, k);
    }
}

// A round for each segment.
fn all_rounds(rows: &mut [u64])
    ensures { rows.new ≡ rounds_to rows.old (length rows.old) (length rows.old) }
{
    for k in 0..rows.len() {
        round(rows, k);
    }
}

// The words that have a bit in common with w.
fn meeting(words: &[u64], w: u64) -> u64
    ensures { result ≡ mask_of (meets words.now w) (length words.now) }
{
    let mut out = 0;
    for (i, word) in words.iter().enumerate() {
        out = masks::with_if(out, i, *word & w != 0);
    }
    out
}

// The ports that a thread leaves unused.
fn unused_ports(ports: &[u8; 8]) -> u64
    ensures { result ≡ unused_of ports.now }
{
    let mut out = 0;
    for (p, port) in ports.iter().enumerate() {
        out = masks::with_if(out, p, *port == 255);
    }
    out
}

// From which segments a thread could reach one that names a port it leaves unused.
fn lack(names: &[u64], rows: &[u64], x: &Start) -> u64
    requires { length names.now ≡ length rows.now }
    ensures { result ≡ lack_of names.now rows.now (length names.now) x.now.ports }
{
    meeting(rows, meeting(names, unused_ports(&x.ports)))
}

fn lacks_to(starts: &[Start; 32], names: &[u64], rows: &[u64]) -> [u64; 32]
    requires { length names.now ≡ length rows.now }
    ensures { result ≡ lacks_to starts.now names.now rows.now (length names.now) 32 }
{
    let mut out = [0; 32];
    for (k, x) in starts.iter().enumerate() {
        out[k] = lack(names, rows, x);
    }
    out
}

// By the ports that each segment names and its first row. Where no segment names a port the rows are not closed.
fn lacks_by(starts: &[Start; 32], names: &[u64], rows: &mut [u64]) -> [u64; 32]
    requires { length names.now ≡ length rows.old }
    ensures { result ≡ lacks_by starts.now names.now rows.old (length names.now) }
{
    if meeting(names, 255) == 0 {
        return [0; 32];
    }
    all_rounds(rows);
    lacks_to(starts, names, rows)
}

// Word k has bit r where thread k could reach, from segment r, a segment that names a port it leaves unused. The model is gone over once.
pub fn lacks(m: Model) -> [u64; 32]
    ensures { HoldsLacks m result }
{
    let n = usize::from(m.n).min(64);
    let mut names = [0; 64];
    let mut rows = [0; 64];
    for (s, g) in m.segments[..n].iter().enumerate() {
        names[s] = ports_of(g);
        rows[s] = first_row(g.closer, s);
    }
    lacks_by(&m.starts, &names[..n], &mut rows[..n])
}
