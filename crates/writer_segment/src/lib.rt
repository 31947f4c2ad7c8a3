// Document 02, slip 2: the record of a segment, and the bytes and the frame that every record has.
#![tactic(auto)]

ghost use Rattle.std.specs.Prelude.{◌++◌, ◌+◌, ◌*◌, get_or};
ghost use Rattle.buffers.specs.Put.{Puts};
ghost use Rattle.model.specs.Values.{no_statement};
ghost use Rattle.reader.specs.Record.{segment_kind};
ghost use Rattle.writer.specs.Bytes.{bytes_of, joined, next_bytes, closer_bytes, statement_of, op_bytes};
ghost use Rattle.writer.specs.File.{segment_bytes};

use model::{Closer, Next, Op, Segment, Statement};

// Document 01: "Little-endian." One, two and four bytes; each put answers where the next byte goes.
pub fn put_one(out: &mut [u8], at: usize, x: u8) -> usize
    ensures { Puts out.old at out.new result (bytes_of 1 x) }
{
    buffers::put_byte(out, at, x)
}

fn put_two(out: &mut [u8], at: usize, x: u64) -> usize
    ensures { Puts out.old at out.new result (bytes_of 2 x) }
{
    let low = x % 256;
    let high = (x / 256) % 256;
    let a = buffers::put_byte(out, at, low as u8);
    buffers::put_byte(out, a, high as u8)
}

pub fn put_four(out: &mut [u8], at: usize, x: u64) -> usize
    ensures { Puts out.old at out.new result (bytes_of 4 x) }
{
    let a = put_two(out, at, x);
    put_two(out, a, (x / 256) / 256)
}

// Document 01: "Each record is a two-byte length (whole record, head included), a two-byte kind, a body."
pub fn put_frame(out: &mut [u8], at: usize, size: u64, kind: u64) -> usize
    ensures { Puts out.old at out.new result (bytes_of 2 size ++ bytes_of 2 kind) }
{
    let a = put_two(out, at, size);
    put_two(out, a, kind)
}

// Document 01: "Bytes 6 and 7 are next segments A and B. Byte 8 is a test variable, or 255 for none. Bytes 9 to 12 are a limit."
fn put_next(out: &mut [u8], at: usize, x: Next) -> usize
    ensures { Puts out.old at out.new result (next_bytes x) }
{
    let a = put_one(out, at, x.a);
    let b = put_one(out, a, x.b);
    let c = put_one(out, b, x.test);
    put_four(out, c, u64::from(x.limit))
}

// A closer's kind, event and delay, then its next.
fn put_wait(out: &mut [u8], at: usize, kind: u8, e: u8, delay: u32, x: Next) -> usize
    ensures { Puts out.old at out.new result (bytes_of 1 kind ++ (bytes_of 1 e ++ (bytes_of 4 delay ++ next_bytes x))) }
{
    let a = put_one(out, at, kind);
    let b = put_one(out, a, e);
    let c = put_four(out, b, u64::from(delay));
    put_next(out, c, x)
}

// Document 01: "Byte 0 is 0 end, 1 wait for time, 2 wait for event." "With kind 0 the other twelve bytes are 0".
fn put_closer(out: &mut [u8], at: usize, closer: Closer) -> usize
    ensures { Puts out.old at out.new result (closer_bytes closer) }
{
    match closer {
        Closer::End => {
            let none = Next {
                a: 0,
                b: 0,
                test: 0,
                limit: 0,
            };
            put_wait(out, at, 0, 0, 0, none)
        }
        Closer::Time(k, x) => put_wait(out, at, 1, 0, k.0, x),
        Closer::Event(e, x) => put_wait(out, at, 2, e, 0, x),
    }
}

// Document 01: "Statement: operation, one byte a, four bytes b."
fn put_statement(out: &mut [u8], at: usize, op: u8, a: u8, b: u32) -> usize
    ensures { Puts out.old at out.new result (statement_of op a b) }
{
    let c = put_one(out, at, op);
    let d = put_one(out, c, a);
    put_four(out, d, u64::from(b))
}

fn put_op(out: &mut [u8], at: usize, op: Op) -> usize
    ensures { Puts out.old at out.new result (op_bytes op) }
{
    match op {
        Op::Set(a, b) => put_statement(out, at, 1, a, b),
        Op::Add(a, b) => put_statement(out, at, 2, a, b),
        Op::Copy(a, b) => put_statement(out, at, 3, a, b),
        Op::AddVariable(a, b) => put_statement(out, at, 4, a, b),
        Op::SubVariable(a, b) => put_statement(out, at, 5, a, b),
        Op::Notify(e) => put_statement(out, at, 6, e, 0),
    }
}

// A segment's statements. Past its 32 places each sets variable 0 to 0.
fn put_statements(out: &mut [u8], at: usize, g: Segment) -> usize
    ensures { Puts out.old at out.new result (joined g.n 0 (λ j. op_bytes (get_or g.statements j no_statement).op)) }
{
    let none = Statement { op: Op::Set(0, 0) };
    let mut to = at.min(out.len());
    for j in 0..usize::from(g.n) {
        let x = g.statements.get(j).copied().unwrap_or(none);
        to = put_op(out, to, x.op);
    }
    to
}

// Document 01: "segment, length 17 + 6n": the frame and the closer, all but the statements.
pub fn put_front(out: &mut [u8], at: usize, n: u8, closer: Closer) -> usize
    ensures { Puts out.old at out.new result ((bytes_of 2 (17 + 6 * n) ++ bytes_of 2 segment_kind) ++ closer_bytes closer) }
{
    let a = put_frame(out, at, 17 + 6 * u64::from(n), 2);
    put_closer(out, a, closer)
}

pub fn put_segment(out: &mut [u8], at: usize, g: Segment) -> usize
    ensures { Puts out.old at out.new result (segment_bytes g) }
{
    let a = put_front(out, at, g.n, g.closer);
    put_statements(out, a, g)
}
