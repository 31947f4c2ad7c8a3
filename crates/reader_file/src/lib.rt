// Document 01, "Model file": bytes to a model, or the first number that applies.
#![tactic(auto)]

ghost use Rattle.std.specs.Prelude.{◌≡◌, ◌≤◌, length};
ghost use Rattle.refusal.specs.Number.{number_told};
ghost use Rattle.model.specs.Rules.{lack_fault};
ghost use Rattle.reader.specs.Read.{read_of};
ghost use Rattle.reader.specs.File.{read_file};
ghost use Rattle.reader_record.specs.Kinds.{kind_number};
ghost use Rattle.reader_file.specs.Parts.{Room, no_counts, counts_after, end_fault, thread_from, ports_into, judged_file, Judges, Builds};

use model::{Model, Start};
use reader_record::{Counts, Kind};
use refusal::Refusal;

// Before the first record nothing is counted.
fn no_counts() -> Counts
    ensures { result ≡ no_counts }
{
    Counts {
        v: 0,
        e: 0,
        n: 0,
        t: 0,
        bound: 0,
        named: false,
    }
}

// What is counted with one record more.
#[tactic(auto, unfolding(crate::specs::Parts::counts_after))]
fn counts_after(kind: Kind, c: Counts, r: &[u8]) -> Counts
    requires { Room (kind_number kind) c (length r.now) }
    ensures { result ≡ counts_after (kind_number kind) c r.now }
{
    match kind {
        Kind::Head => Counts {
            v: r[8],
            e: r[9],
            ..c
        },
        Kind::Segment => Counts {
            n: c.n + 1,
            bound: c.bound.max(reader_segment::target_bound(r)),
            named: c.named | reader_segment::record_names(r),
            ..c
        },
        Kind::Thread => Counts {
            t: c.t + 1,
            bound: c.bound.max(u32::from(r[4]) + 1),
            ..c
        },
        Kind::End | Kind::Ports => c,
    }
}

// Document 01: "then 9, 8".
fn end_fault(left: usize, c: Counts) -> Result<(), Refusal>
    ensures { number_told result ≡ end_fault left c }
{
    model_rules::unless(left == 0, Refusal::ExtraBytes)?;
    model_rules::unless(c.bound <= u32::from(c.n), Refusal::WrongTarget)
}

// Document 01: "Order: 1 to 7 record by record, lower number first .., then 9, 8". On counts alone: no model is built. Of a file with no
// such fault, whether a segment can name a port.
fn judge(bytes: &[u8]) -> Result<bool, Refusal>
    ensures { Judges bytes.now result }
{
    let mut c = no_counts();
    let mut last = None;
    let mut at = 0;
    // A while, not a range: each turn goes on by the length of the record that it read.
    while at < bytes.len() {
        let b = &bytes[at..];
        let frame = reader_record::fault_after(last, c, b)?;
        if frame.kind == Kind::End {
            end_fault(b.len() - frame.size, c)?;
            return Ok(c.named);
        }
        c = counts_after(frame.kind, c, &b[..frame.size]);
        last = Some(frame.kind);
        at += frame.size;
    }
    Err(Refusal::ShortFile)
}

// Document 01: "thread, length 5: its first segment"; document 02: "Without it all eight are unused."
#[tactic(auto, unfolding(crate::specs::Parts::thread_from))]
fn thread_from(r: &[u8]) -> Start
    requires { 5 ≤ length r.now }
    ensures { result ≡ thread_from r.now }
{
    Start {
        first: r[4],
        ports: [255; 8],
    }
}

// A thread with the ports of the record after its own.
#[tactic(auto, unfolding(crate::specs::Parts::ports_into))]
fn with_ports(x: Start, r: &[u8]) -> Start
    requires { 12 ≤ length r.now }
    ensures { result ≡ ports_into x r.now }
{
    Start {
        first: x.first,
        ports: reader_record::ports_at(r),
    }
}

// The model of a file with no fault but 18: after the head, segments and threads up to the end, the last 4 bytes.
fn model_from(bytes: &[u8]) -> Model
    requires { (judged_file bytes.now).number ≡ 0 }
    ensures { Builds bytes.now result }
{
    let head = &bytes[..10];
    let horizon = reader_record::horizon_at(head);
    let v = head[8];
    let e = head[9];
    let mut n = 0;
    let mut t = 0;
    let mut segments = [model_effect::no_segment(); 64];
    let mut starts = [model_effect::no_start(); 32];
    let mut at = 10;
    // A while, not a range: each turn goes on by the length of the record that it read.
    while 4 < bytes.len() - at {
        let b = &bytes[at..];
        let size = reader_segment::word_at(b, 0) as usize;
        let r = &b[..size];
        match Kind::try_from(reader_segment::word_at(b, 2)) {
            Ok(Kind::Segment) => {
                segments[usize::from(n)] = reader_segment::segment_from(r);
                n += 1;
            }
            Ok(Kind::Thread) => {
                starts[usize::from(t)] = thread_from(r);
                t += 1;
            }
            _ => {
                let k = usize::from(t) - 1;
                starts[k] = with_ports(starts[k], r);
            }
        }
        at += size;
    }
    Model {
        horizon,
        v,
        e,
        n,
        t,
        segments,
        starts,
    }
}

// 18 of a file with no other fault: its model is built for that.
fn lack_number(bytes: &[u8]) -> Result<(), Refusal>
    requires { (judged_file bytes.now).number ≡ 0 }
    ensures { number_told result ≡ lack_fault (judged_file bytes.now).model }
{
    model_rules::lack_fault(model_from(bytes))
}

// Document 01, "Numbers of refusal": a file's first fault. A model is built only where a port is named, for 18.
fn file_fault(bytes: &[u8]) -> Result<(), Refusal>
    ensures { number_told result ≡ (read_file bytes.now).number }
{
    if !judge(bytes)? {
        return Ok(());
    }
    lack_number(bytes)
}

// A file's number, 0 where it is accepted, as C is told it.
pub fn file_number(bytes: &[u8]) -> u8
    ensures { result ≡ (read_file bytes.now).number }
{
    match file_fault(bytes) {
        Ok(()) => 0,
        Err(r) => u8::from(r),
    }
}

// Document 01, "Model file": a file's model, or its refusal.
pub fn read_file(bytes: &[u8]) -> Result<Model, Refusal>
    ensures { read_of result ≡ read_file bytes.now }
{
    file_fault(bytes)?;
    Ok(model_from(bytes))
}
