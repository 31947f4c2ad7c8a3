// Document 02, "Modules with ports": "a conflict through a port", by masks. What each segment names is worked out once for a request.
#![tactic(auto)]

ghost use Rattle.std.specs.Prelude.{◌≡◌, ◌≤◌, ◌<◌, ◌+◌, ◌*◌, min, length};
ghost use Rattle.model.specs.Port.{uses_ports};
ghost use Rattle.early_ports.specs.Names.{bit_from, read_from, op_names, test_name, names_of, name_word, stretch, any_ports, names_for};
ghost use Rattle.early_ports.specs.Cross.{segment_with, ports_in, map_bits, footprint_of, crosses};

use model::{Closer, Model, Op, Segment, Start};

// What a thread does in a segment, after mapping: the variables that it writes, those that it accesses, and those that it names through a
// port. Variable v is bit v.
#[derive(Clone, Copy)]
pub struct Footprint {
    pub writes: u64,
    pub uses: u64,
    pub ported: u64,
}

// What is asked of a segment: the numbers from a first one on that it writes, or those that it writes, reads or tests.
#[derive(Clone, Copy)]
struct Asked {
    from: u32,
    written: bool,
}

impl Asked {
    // Number x as bit x - from; none where there is no such bit.
    fn bit(self, x: u32) -> u64
        ensures { result ≡ bit_from self.from x }
    {
        if x < self.from {
            0
        } else {
            masks::with(0, (x - self.from) as usize)
        }
    }

    // A number that is read: none where only those written are asked for.
    fn read(self, x: u32) -> u64
        ensures { result ≡ read_from self.from self.written x }
    {
        if self.written { 0 } else { self.bit(x) }
    }

    // Of an operation; b is the whole 32-bit number.
    fn op(self, op: Op) -> u64
        ensures { result ≡ op_names self.from self.written op }
    {
        match op {
            Op::Set(a, _) | Op::Add(a, _) => self.bit(u32::from(a)),
            Op::Copy(a, b) | Op::AddVariable(a, b) | Op::SubVariable(a, b) => {
                self.bit(u32::from(a)) | self.read(b)
            }
            Op::Notify(_) => 0,
        }
    }

    // Document 01: "The test variable counts as read."
    fn test(self, closer: Closer) -> u64
        ensures { result ≡ test_name self.from self.written closer }
    {
        match closer {
            Closer::End => 0,
            Closer::Time(_, x) | Closer::Event(_, x) => self.read(u32::from(x.test)),
        }
    }
}

// The numbers from a first one on that a segment writes, or those that it writes, reads or tests. `written` is what is asked, a value as in
// the definition: two functions, or a closure for the question, would say the same twice.
pub fn names_of(g: Segment, from: u32, written: bool) -> u64
    ensures { result ≡ names_of from written g }
{
    let asked = Asked { from, written };
    let mut w = 0;
    for x in &g.statements[..usize::from(g.n).min(32)] {
        w |= asked.op(x.op);
    }
    w | asked.test(g.closer)
}

// Word q of a segment: the variables that it writes, those that it uses, the ports that it writes, those that it uses.
fn name_word(g: Segment, q: usize) -> u64
    ensures { result ≡ name_word q g }
{
    if q < 2 {
        names_of(g, 0, q == 0)
    } else {
        names_of(g, 128, q == 2)
    }
}

// Word q of each segment, from place 64 × q on.
fn fill_stretch(m: Model, names: &mut [u64], n: usize, q: usize)
    requires { (n ≤ 64) × (q < 4) × (256 ≤ length names.old) }
    ensures { names.new ≡ stretch m n names.old q }
{
    for (s, g) in m.segments[..n].iter().enumerate() {
        names[64 * q + s] = name_word(*g, q);
    }
}

// The segment as a thread with these ports runs it; as it is where it uses none.
pub fn segment_for(ports: [u8; 8], g: Segment) -> Segment
    ensures { result ≡ segment_with ports g }
{
    if model_effect::uses_ports(ports) {
        model_effect::mapped_segment(ports, g)
    } else {
        g
    }
}

// The ports of thread k; none past the threads.
pub fn ports_of(starts: [Start; 32], k: usize) -> [u8; 8]
    ensures { result ≡ ports_in starts k }
{
    if k < 32 { starts[k].ports } else { [255; 8] }
}

fn any_ports(starts: [Start; 32], t: u8) -> bool
    ensures { result ≡ any_ports starts t }
{
    starts[..usize::from(t).min(32)]
        .iter()
        .any(|x| model_effect::uses_ports(x.ports))
}

// Four stretches of 64 words, in a buffer of zeros. Where no thread uses a port, or the buffer is too short, it stays.
pub fn fill_names(m: Model, names: &mut [u64])
    ensures { names.new ≡ names_for m names.old }
{
    if names.len() < 256 || !any_ports(m.starts, m.t) {
        return;
    }
    let n = usize::from(m.n).min(64);
    for q in 0..4 {
        fill_stretch(m, names, n, q);
    }
}

// The variables of the ports in w; an unused port is none.
fn map_bits(ports: [u8; 8], w: u64) -> u64
    ensures { result ≡ map_bits ports w 8 }
{
    if w == 0 {
        return 0;
    }
    let mut out = 0;
    for (p, port) in ports.iter().enumerate() {
        out = masks::with_if(out, usize::from(*port), masks::has(w, p));
    }
    out
}

// Of a thread with these ports in segment s.
pub fn footprint_of(names: &[u64], ports: [u8; 8], s: usize) -> Footprint
    ensures { result ≡ footprint_of names.now ports s }
{
    if s >= 64 {
        return Footprint {
            writes: 0,
            uses: 0,
            ported: 0,
        };
    }
    let ported = map_bits(ports, buffers::word_at(names, 192 + s));
    let written = map_bits(ports, buffers::word_at(names, 128 + s));
    Footprint {
        writes: buffers::word_at(names, s) | written,
        uses: buffers::word_at(names, 64 + s) | ported,
        ported,
    }
}

// Document 02: "a conflict through a port": "both access a variable which at least one writes", and at least one names it through a port.
pub fn crosses(a: Footprint, b: Footprint) -> bool
    ensures { result ≡ crosses a b }
{
    a.uses & b.uses & (a.writes | b.writes) & (a.ported | b.ported) != 0
}
