// Document 01, "Model file": the record of a segment, from its bytes to its first fault and to the segment.
#![tactic(auto)]

ghost use Rattle.std.specs.Prelude.{◌≡◌, ◌+◌, ◌≤◌, ◌<◌, length, IfOk};
ghost use Rattle.refusal.specs.Number.{number_told};
ghost use Rattle.reader.specs.Word.{word_at, long_at};
ghost use Rattle.reader.specs.Closer.{next_from, closer_from, rest_is_zero, closer_shape_fault, closer_bytes_fault};
ghost use Rattle.reader.specs.Statement.{op_from, op_shape_fault, op_bytes_fault};
ghost use Rattle.reader.specs.Record.{segment_kind, length_fits, statement_count};
ghost use Rattle.reader_segment.specs.Parts.{statements_bytes_fault, count_in, closer_in, bound_of, target_bound, segment_record_fault, segment_in, op_names, test_names, record_names};

use clock::Delay;
use model::{Closer, Next, Op, Segment, Statement};
use refusal::Refusal;

// Document 01: "Little-endian." The bytes are there.
fn word_within(s: &[u8], at: usize) -> u32
    requires { at + 2 ≤ length s.now }
    ensures { (result ≡ word_at s.now at) × (result < 65536) }
{
    u32::from(s[at]) + u32::from(s[at + 1]) * 256
}

fn long_within(s: &[u8], at: usize) -> u32
    requires { at + 4 ≤ length s.now }
    ensures { result ≡ long_at s.now at }
{
    word_within(s, at) + word_within(s, at + 2) * 65536
}

// Two bytes, wherever they stand: past the end they count as 0.
pub fn word_at(s: &[u8], at: usize) -> u32
    ensures { (result ≡ word_at s.now at) × (result < 65536) }
{
    match s.len().saturating_sub(at) {
        0 => 0,
        1 => u32::from(s[at]),
        _ => word_within(s, at),
    }
}

// Four bytes.
pub fn long_at(s: &[u8], at: usize) -> u32
    ensures { result ≡ long_at s.now at }
{
    let low = word_at(s, at);
    if s.len().saturating_sub(at) <= 2 {
        low
    } else {
        low + word_at(s, at + 2) * 65536
    }
}

// Document 01: "Bytes 6 and 7 are next segments A and B. Byte 8 is a test variable, or 255 for none. Bytes 9 to 12 are a limit."
fn next_from(s: &[u8]) -> Next
    requires { 13 ≤ length s.now }
    ensures { result ≡ next_from s.now }
{
    Next {
        a: s[6],
        b: s[7],
        test: s[8],
        limit: long_within(s, 9),
    }
}

// Document 01: "Byte 0 is 0 end, 1 wait for time, 2 wait for event."
#[tactic(auto, unfolding(reader::specs::Closer::closer_from))]
fn closer_from(s: &[u8]) -> Closer
    requires { 13 ≤ length s.now }
    ensures { result ≡ closer_from s.now }
{
    match s[0] {
        1 => Closer::Time(Delay(long_within(s, 2)), next_from(s)),
        2 => Closer::Event(s[1], next_from(s)),
        0 | 3..=255 => Closer::End,
    }
}

// Document 01: "With kind 0 the other twelve bytes are 0".
fn rest_is_zero(s: &[u8]) -> bool
    requires { 13 ≤ length s.now }
    ensures { result ≡ rest_is_zero s.now }
{
    s[1..13].iter().all(|x| *x == 0)
}

// 5 where the bytes break a rule that a declared closer cannot.
#[tactic(auto, unfolding(reader::specs::Closer::closer_shape_fault))]
fn closer_shape_fault(s: &[u8]) -> Result<(), Refusal>
    requires { 13 ≤ length s.now }
    ensures { number_told result ≡ closer_shape_fault s.now }
{
    match s[0] {
        0 => model_rules::unless(rest_is_zero(s), Refusal::WrongCloser),
        1 => model_rules::unless(s[1] == 0, Refusal::WrongCloser),
        2 => model_rules::unless(long_within(s, 2) == 0, Refusal::WrongCloser),
        3..=255 => Err(Refusal::WrongCloser),
    }
}

// Document 01: "the closer's 5 and 7".
fn closer_bytes_fault(v: u8, e: u8, s: &[u8]) -> Result<(), Refusal>
    requires { 13 ≤ length s.now }
    ensures { number_told result ≡ closer_bytes_fault v e s.now }
{
    closer_shape_fault(s)?;
    model_rules::closer_fault(v, e, closer_from(s))
}

// Document 01: "An operation byte outside 1 to 6 is refused."
#[tactic(auto, unfolding(reader::specs::Statement::op_from, reader::specs::Statement::op_shape_fault))]
fn decode(s: &[u8]) -> Result<Op, Refusal>
    requires { 6 ≤ length s.now }
    ensures fault { number_told result ≡ op_shape_fault s.now }
    ensures op { IfOk result (λ op. op ≡ op_from s.now) }
{
    let a = s[1];
    let b = long_within(s, 2);
    match s[0] {
        1 => Ok(Op::Set(a, b)),
        2 => Ok(Op::Add(a, b)),
        3 => Ok(Op::Copy(a, b)),
        4 => Ok(Op::AddVariable(a, b)),
        5 => Ok(Op::SubVariable(a, b)),
        6 if b == 0 => Ok(Op::Notify(a)),
        0 | 6..=255 => Err(Refusal::WrongStatement),
    }
}

// Document 01: "6 and 7 of each statement".
fn statement_fault(v: u8, e: u8, s: &[u8]) -> Result<(), Refusal>
    requires { 6 ≤ length s.now }
    ensures { number_told result ≡ op_bytes_fault v e s.now }
{
    let op = decode(s)?;
    model_rules::op_fault(v, e, op)
}

// Document 01: "then n statements of 6 bytes".
fn statements_fault(v: u8, e: u8, r: &[u8]) -> Result<(), Refusal>
    requires { (17 ≤ length r.now) × (length r.now ≤ 209) }
    ensures { number_told result ≡ statements_bytes_fault (statement_count r.now) v e r.now }
{
    let n = (r.len() - 17) / 6;
    for j in 0..n {
        let at = 17 + 6 * j;
        statement_fault(v, e, &r[at..])?;
    }
    Ok(())
}

// Document 01: "segment, length 17 + 6n, n from 0 to 32".
#[tactic(auto, unfolding(reader::specs::Record::length_fits))]
pub fn segment_length_fits(size: usize) -> bool
    ensures { result ≡ length_fits segment_kind size }
{
    17 <= size && size <= 209 && (size - 17) % 6 == 0
}

// A segment's record: 3, then "the closer's 5 and 7, then 6 and 7 of each statement".
pub fn segment_fault(v: u8, e: u8, r: &[u8]) -> Result<(), Refusal>
    ensures { number_told result ≡ segment_record_fault v e r.now }
{
    if !segment_length_fits(r.len()) {
        return Err(Refusal::WrongLength);
    }
    closer_bytes_fault(v, e, &r[4..])?;
    statements_fault(v, e, r)
}

// How many statements a record holds, none where its length does not fit.
fn count_in(r: &[u8]) -> usize
    ensures { result ≡ count_in r.now }
{
    if !segment_length_fits(r.len()) {
        return 0;
    }
    (r.len() - 17) / 6
}

// A record's closer, an end where its length does not fit.
fn closer_in(r: &[u8]) -> Closer
    ensures { result ≡ closer_in r.now }
{
    if !segment_length_fits(r.len()) {
        return Closer::End;
    }
    closer_from(&r[4..])
}

// The segment that a record says. A statement that is refused stands in it as a notify.
pub fn segment_from(r: &[u8]) -> Segment
    ensures { result ≡ segment_in r.now }
{
    let n = count_in(r);
    let mut g = Segment {
        closer: closer_in(r),
        n: n as u8,
        statements: [Statement { op: Op::Set(0, 0) }; 32],
    };
    for j in 0..n {
        let at = 17 + 6 * j;
        let s = &r[at..];
        g.statements[j].op = decode(s).unwrap_or(Op::Notify(s[1]));
    }
    g
}

// One more than the greater of two next segments.
fn bound_of(x: Next) -> u32
    ensures { result ≡ bound_of x }
{
    u32::from(x.a.max(x.b)) + 1
}

// The least N that the next segments of a record are below.
pub fn target_bound(r: &[u8]) -> u32
    ensures { result ≡ target_bound (closer_in r.now) }
{
    match closer_in(r) {
        Closer::End => 0,
        Closer::Time(_, x) | Closer::Event(_, x) => bound_of(x),
    }
}

// Whether a statement's bytes can name a port: "128 to 135 may stand wherever a variable is named". Operations 1 and 2 take b as it stands.
#[tactic(auto, unfolding(crate::specs::Parts::op_names))]
fn op_names(s: &[u8]) -> bool
    requires { 6 ≤ length s.now }
    ensures { result ≡ op_names s.now }
{
    128 <= s[1] || (3 <= s[0] && 128 <= s[2])
}

// Whether a closer can test a port; 255 is no test.
#[tactic(auto, unfolding(crate::specs::Parts::test_names))]
fn test_names(closer: Closer) -> bool
    ensures { result ≡ test_names closer }
{
    match closer {
        Closer::End => false,
        Closer::Time(_, x) | Closer::Event(_, x) => 128 <= x.test && x.test != 255,
    }
}

// Whether a record can name a port. Where it is false none of its statements and not its test does.
pub fn record_names(r: &[u8]) -> bool
    ensures { result ≡ record_names r.now }
{
    for j in 0..count_in(r) {
        let at = 17 + 6 * j;
        if op_names(&r[at..]) {
            return true;
        }
    }
    test_names(closer_in(r))
}
