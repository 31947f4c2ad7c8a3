// Document 01, "Model file": a record of a file: its first fault, after what is counted.
#![tactic(auto)]

ghost use Rattle.std.specs.Prelude.{◌≡◌, ◌≤◌, length, true, IfOk};
ghost use Rattle.refusal.specs.Number.{number_told};
ghost use Rattle.reader.specs.Word.{long_at};
ghost use Rattle.reader.specs.Record.{follows, length_fits, framing_fault, ports_from, ports_bytes_fault};
ghost use Rattle.reader_segment.specs.Parts.{fits};
ghost use Rattle.reader_record.specs.Kinds.{kind_number, last_number, KindGives, Frames};
ghost use Rattle.reader_record.specs.Parts.{is_whole, count_fault, own_fault, record_fault};

use clock::Time;
use refusal::Refusal;

// Document 01: "1 head, 2 segment, 3 thread, 4 end"; document 02: kind 5, the ports of a thread.
#[derive(Clone, Copy, PartialEq, Eq)]
pub enum Kind {
    Head,
    Segment,
    Thread,
    End,
    Ports,
}

impl TryFrom<u32> for Kind {
    type Error = Refusal;

    ghost try_from_gives = { KindGives };

    fn try_from(number: u32) -> Result<Self, Refusal> {
        match number {
            1 => Ok(Kind::Head),
            2 => Ok(Kind::Segment),
            3 => Ok(Kind::Thread),
            4 => Ok(Kind::End),
            5 => Ok(Kind::Ports),
            _ => Err(Refusal::WrongKind),
        }
    }
}

// What a record's head says: its kind, and its length with the head.
#[derive(Clone, Copy)]
pub struct Frame {
    pub kind: Kind,
    pub size: usize,
}

// What is counted as a file is judged: variables, events, segments, threads, the least N that every target is below, and whether a
// segment can name a port: a thing counted like the others, and no sign of which they are.
#[derive(Clone, Copy)]
pub struct Counts {
    pub v: u8,
    pub e: u8,
    pub n: u8,
    pub t: u8,
    pub bound: u32,
    pub named: bool,
}

// Whether a record's head and its length are there. No length that is there is below the head's.
#[tactic(auto, unfolding(crate::specs::Parts::is_whole))]
fn is_whole(b: &[u8]) -> bool
    ensures { result ≡ is_whole b.now }
{
    let size = reader_segment::word_at(b, 0) as usize;
    4 <= size && size <= b.len()
}

// Document 01: "The order is one head, 1 to 64 segments, 1 to 32 threads, one end."; 5 "may follow a thread's record".
#[tactic(auto, unfolding(reader::specs::Record::follows))]
fn comes_after(last: Option<Kind>, kind: Kind) -> bool
    ensures { result ≡ follows (last_number last) (kind_number kind) }
{
    match last {
        None => matches!(kind, Kind::Head),
        Some(Kind::Head) => matches!(kind, Kind::Segment),
        Some(Kind::Segment) => matches!(kind, Kind::Segment | Kind::Thread),
        Some(Kind::Thread) => matches!(kind, Kind::Thread | Kind::End | Kind::Ports),
        Some(Kind::Ports) => matches!(kind, Kind::Thread | Kind::End),
        Some(Kind::End) => false,
    }
}

// Document 01: "head, length 10"; "thread, length 5"; "end, length 4"; document 02: "kind 5, length 12".
#[tactic(auto, unfolding(reader::specs::Record::length_fits))]
fn length_fits(kind: Kind, size: usize) -> bool
    ensures { result ≡ length_fits (kind_number kind) size }
{
    match kind {
        Kind::Head => size == 10,
        Kind::Segment => reader_segment::segment_length_fits(size),
        Kind::Thread => size == 5,
        Kind::Ports => size == 12,
        Kind::End => size == 4,
    }
}

// 1, 2 and 3 at a record that begins the bytes b, after a record of kind last; else what its head says.
fn framing_fault(last: Option<Kind>, b: &[u8]) -> Result<Frame, Refusal>
    ensures fault { number_told result ≡ framing_fault (last_number last) b.now }
    ensures frame { IfOk result (Frames b.now) }
{
    if !is_whole(b) {
        return Err(Refusal::ShortFile);
    }
    let kind = Kind::try_from(reader_segment::word_at(b, 2))?;
    if !comes_after(last, kind) {
        return Err(Refusal::WrongKind);
    }
    let size = reader_segment::word_at(b, 0) as usize;
    if !length_fits(kind, size) {
        return Err(Refusal::WrongLength);
    }
    Ok(Frame { kind, size })
}

// Document 01: "horizon H (4 bytes, ..)".
pub fn horizon_at(r: &[u8]) -> Time
    requires { 8 ≤ length r.now }
    ensures { result.0 ≡ long_at r.now 4 }
{
    Time(u64::from(reader_segment::long_at(r, 4)))
}

// Document 01: "H, V or E out of range; 65th segment; 33rd thread".
#[tactic(auto, unfolding(crate::specs::Parts::count_fault))]
fn count_fault(kind: Kind, c: Counts, r: &[u8]) -> Result<(), Refusal>
    requires { kind_number kind ≡ 1 → 10 ≤ length r.now }
    ensures { number_told result ≡ count_fault (kind_number kind) c r.now }
{
    match kind {
        Kind::Head => model_rules::head_fault(horizon_at(r), r[8], r[9]),
        Kind::Segment => model_rules::unless(c.n < 64, Refusal::WrongCount),
        Kind::Thread => model_rules::unless(c.t < 32, Refusal::WrongCount),
        Kind::End | Kind::Ports => Ok(()),
    }
}

// Document 02: "gives eight variable numbers".
#[tactic(auto, unfolding(reader::specs::Record::ports_from, base::specs::Index::tabulate))]
pub fn ports_at(r: &[u8]) -> [u8; 8]
    requires { 12 ≤ length r.now }
    ensures { result ≡ ports_from r.now }
{
    [r[4], r[5], r[6], r[7], r[8], r[9], r[10], r[11]]
}

// Document 02: "17 when all eight are 255 or a mapped number is neither 255 nor below V".
fn ports_record_fault(v: u8, r: &[u8]) -> Result<(), Refusal>
    requires { 12 ≤ length r.now }
    ensures { number_told result ≡ ports_bytes_fault v r.now }
{
    let ports = ports_at(r);
    if !model_effect::uses_ports(ports) {
        return Err(Refusal::WrongPort);
    }
    model_rules::ports_fault(v, ports)
}

// A segment's 5 to 7, the 17 of a thread's ports.
#[tactic(auto, unfolding(crate::specs::Parts::own_fault))]
fn own_fault(kind: Kind, c: Counts, r: &[u8]) -> Result<(), Refusal>
    requires { (kind_number kind ≡ 2 → fits r.now ≡ true) × (kind_number kind ≡ 5 → 12 ≤ length r.now) }
    ensures { number_told result ≡ own_fault (kind_number kind) c.v c.e r.now }
{
    match kind {
        Kind::Segment => reader_segment::segment_fault(c.v, c.e, r),
        Kind::Ports => ports_record_fault(c.v, r),
        Kind::Head | Kind::Thread | Kind::End => Ok(()),
    }
}

// The first of 1 to 7 and 17 at a record that begins the bytes b, after a record of kind last: "1 to 7 .., lower number first"; else what
// its head says.
pub fn fault_after(last: Option<Kind>, c: Counts, b: &[u8]) -> Result<Frame, Refusal>
    ensures fault { number_told result ≡ record_fault (last_number last) c b.now }
    ensures frame { IfOk result (Frames b.now) }
{
    let frame = framing_fault(last, b)?;
    let r = &b[..frame.size];
    count_fault(frame.kind, c, r)?;
    own_fault(frame.kind, c, r)?;
    Ok(frame)
}

// The same after a record whose kind has the number last; 0 stands before the first record. Nothing comes after a number that no kind has,
// as nothing comes after an end.
pub fn record_fault(last: u32, c: Counts, b: &[u8]) -> Result<Frame, Refusal>
    ensures fault { number_told result ≡ record_fault last c b.now }
    ensures frame { IfOk result (Frames b.now) }
{
    match Kind::try_from(last) {
        Ok(kind) => fault_after(Some(kind), c, b),
        Err(_) if last == 0 => fault_after(None, c, b),
        Err(_) => fault_after(Some(Kind::End), c, b),
    }
}
