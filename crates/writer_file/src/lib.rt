// Document 02, slip 2: the file of a model, as bytes in a lent buffer.
#![tactic(auto)]

ghost use Rattle.std.specs.Prelude.{◌≡◌, ◌++◌, ◌+◌, ◌≤◌, length};
ghost use Rattle.buffers.specs.Put.{Puts};
ghost use Rattle.buffers.specs.Written.{Saves};
ghost use Rattle.model.specs.Port.{port_of};
ghost use Rattle.model.specs.Values.{segment_at, start_at};
ghost use Rattle.model.specs.Rules.{model_fault};
ghost use Rattle.reader.specs.Record.{head_kind, thread_kind};
ghost use Rattle.writer.specs.Bytes.{bytes_of, joined};
ghost use Rattle.writer.specs.File.{record_bytes, segment_bytes, ports_bytes, start_bytes, file_of};
ghost use Rattle.writer.specs.Back.{ReadsBack};

use buffers::Written;
use clock::Time;
use model::{Model, Start};
use refusal::Refusal;

// Document 01: "head, length 10".
fn put_head(out: &mut [u8], at: usize, horizon: Time, v: u8, e: u8) -> usize
    ensures { Puts out.old at out.new result (record_bytes head_kind (bytes_of 4 horizon.0 ++ (bytes_of 1 v ++ bytes_of 1 e))) }
{
    let a = writer_segment::put_frame(out, at, 10, 1);
    let b = writer_segment::put_four(out, a, horizon.0);
    let c = writer_segment::put_one(out, b, v);
    writer_segment::put_one(out, c, e)
}

// A model's segments. Past its 64 places each ends and has no statements.
fn put_segments(out: &mut [u8], at: usize, m: Model) -> usize
    ensures { Puts out.old at out.new result (joined m.n 0 (λ i. segment_bytes (segment_at m i))) }
{
    let none = model_effect::no_segment();
    let mut to = at.min(out.len());
    for i in 0..usize::from(m.n) {
        let g = m.segments.get(i).unwrap_or(&none);
        to = writer_segment::put_segment(out, to, *g);
    }
    to
}

// Document 01: "thread, length 5".
fn put_start(out: &mut [u8], at: usize, first: u8) -> usize
    ensures { Puts out.old at out.new result (record_bytes thread_kind (bytes_of 1 first)) }
{
    let a = writer_segment::put_frame(out, at, 5, 3);
    writer_segment::put_one(out, a, first)
}

// Document 02, slip 4: "eight variable numbers".
fn put_eight(out: &mut [u8], at: usize, ports: [u8; 8]) -> usize
    ensures { Puts out.old at out.new result (joined 8 0 (λ p. bytes_of 1 (port_of ports p))) }
{
    let mut to = at.min(out.len());
    for x in &ports {
        to = writer_segment::put_one(out, to, *x);
    }
    to
}

// Document 02, slip 4: "length 12"; "writes no record where all eight are unused".
fn put_ports(out: &mut [u8], at: usize, ports: [u8; 8]) -> usize
    ensures { Puts out.old at out.new result (ports_bytes ports) }
{
    if model_effect::uses_ports(ports) {
        let a = writer_segment::put_frame(out, at, 12, 5);
        return put_eight(out, a, ports);
    }
    at.min(out.len())
}

// A thread's record, then that of its ports.
fn put_thread(out: &mut [u8], at: usize, s: Start) -> usize
    ensures { Puts out.old at out.new result (start_bytes s) }
{
    let a = put_start(out, at, s.first);
    put_ports(out, a, s.ports)
}

// A model's threads. Past its 32 places each begins at segment 0 and uses no port.
fn put_starts(out: &mut [u8], at: usize, m: Model) -> usize
    ensures { Puts out.old at out.new result (joined m.t 0 (λ k. start_bytes (start_at m k))) }
{
    let none = model_effect::no_start();
    let mut to = at.min(out.len());
    for k in 0..usize::from(m.t) {
        let s = m.starts.get(k).copied().unwrap_or(none);
        to = put_thread(out, to, s);
    }
    to
}

// The file of a model at the front of out, as far as there is room; how much of it is there.
pub fn put_file(m: Model, out: &mut [u8]) -> usize
    ensures { Puts out.old 0 out.new result (file_of m) }
{
    let a = put_head(out, 0, m.horizon, m.v, m.e);
    let b = put_segments(out, a, m);
    let c = put_starts(out, b, m);
    writer_segment::put_frame(out, c, 4, 4)
}

// How many bytes a thread takes, with the record of its ports.
fn start_size(ports: [u8; 8]) -> usize
    ensures { (result ≡ 5 + length (ports_bytes ports)) × (result ≤ 17) }
{
    if model_effect::uses_ports(ports) {
        17
    } else {
        5
    }
}

fn starts_size(m: Model) -> usize
    ensures { (result ≡ length (joined m.t 0 (λ k. start_bytes (start_at m k)))) × (result ≤ 4335) }
{
    let none = model_effect::no_start();
    let mut size = 0;
    for i in 0..usize::from(m.t) {
        let s = m.starts.get(i).copied().unwrap_or(none);
        size += start_size(s.ports);
    }
    size
}

// The length of a model's file: head, segments, threads, end.
pub fn size_of(m: Model) -> usize
    ensures { result ≡ length (file_of m) }
{
    let mut size = 14 + starts_size(m);
    for i in 0..usize::from(m.n) {
        let n = m.segments.get(i).map_or(0, |g| g.n);
        size += 17 + 6 * usize::from(n);
    }
    size
}

// The file of a model that keeps the file rules, if there is room for all of it; its length in bytes. Else the number of the
// first fault, or 16 where there is no room, and nothing is written. The reader takes what is written as the same model up to its counts.
pub fn write(m: Model, out: &mut [u8]) -> Written
    ensures saves { Saves out.old out.new result (model_fault m) (file_of m) }
    ensures back { ReadsBack m result out.new }
{
    let size = size_of(m);
    if let Err(fault) = model_rules::model_fault(m) {
        return Written::Refused(u8::from(fault));
    }
    if out.len() < size {
        return Written::Refused(u8::from(Refusal::ShortTable));
    }
    Written::Length(put_file(m, out))
}
