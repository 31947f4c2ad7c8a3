// The reader on stored model files, each a part: the number, and of an accepted one the whole model. H, V, E, N and T, the segments
// with their statements, the threads' first segments with their ports. Then the writer: a file that is not written again byte by byte is told.
ghost use Rattle.io.specs.Counts.{IsPrefixLen};
ghost use Rattle.buffers.specs.Write.{Writes};
ghost use Rattle.writer_print.specs.Again.{again};

use model::{Closer, Model, Next, Op, Segment, Start};
use std::io::{Read, Result};

fn write_number<R: Print>(rt: &R, n: u64) -> Result<()> {
    print!(rt; " {n}")
}

fn write_three<R: Print>(rt: &R, a: u64, b: u64, c: u64) -> Result<()> {
    write_number(rt, a)?;
    write_number(rt, b)?;
    write_number(rt, c)
}

// As in a file: the number of its operation, a and b.
fn write_op<R: Print>(rt: &R, op: Op) -> Result<()> {
    match op {
        Op::Set(a, b) => write_three(rt, 1, u64::from(a), u64::from(b)),
        Op::Add(a, b) => write_three(rt, 2, u64::from(a), u64::from(b)),
        Op::Copy(a, b) => write_three(rt, 3, u64::from(a), u64::from(b)),
        Op::AddVariable(a, b) => write_three(rt, 4, u64::from(a), u64::from(b)),
        Op::SubVariable(a, b) => write_three(rt, 5, u64::from(a), u64::from(b)),
        Op::Notify(w) => write_three(rt, 6, u64::from(w), 0),
    }
}

// The kind, the event and the delay; the next segments, the test variable and the limit.
fn write_closing<R: Print>(rt: &R, kind: u64, event: u64, delay: u64, x: Next) -> Result<()> {
    write_three(rt, kind, event, delay)?;
    write_three(rt, u64::from(x.a), u64::from(x.b), u64::from(x.test))?;
    write_number(rt, u64::from(x.limit))
}

fn write_closer<R: Print>(rt: &R, closer: Closer) -> Result<()> {
    match closer {
        Closer::End => write_number(rt, 0),
        Closer::Time(k, x) => write_closing(rt, 1, 0, u64::from(k.0), x),
        Closer::Event(e, x) => write_closing(rt, 2, u64::from(e), 0, x),
    }
}

// How it closes, how many statements it has, and these.
fn write_segment<R: Print>(rt: &R, g: &Segment) -> Result<()> {
    write_closer(rt, g.closer)?;
    write_number(rt, u64::from(g.n))?;
    for x in &g.statements[..usize::from(g.n).min(32)] {
        write_op(rt, x.op)?;
    }
    Ok(())
}

fn write_segments<R: Print>(rt: &R, m: &Model) -> Result<()> {
    for g in &m.segments[..usize::from(m.n).min(64)] {
        write_segment(rt, g)?;
    }
    Ok(())
}

// The first segment and the eight ports of a thread.
fn write_start<R: Print>(rt: &R, x: &Start) -> Result<()> {
    write_number(rt, u64::from(x.first))?;
    for port in &x.ports {
        write_number(rt, u64::from(*port))?;
    }
    Ok(())
}

fn write_starts<R: Print>(rt: &R, m: &Model) -> Result<()> {
    for x in &m.starts[..usize::from(m.t).min(32)] {
        write_start(rt, x)?;
    }
    Ok(())
}

fn write_model<R: Print>(rt: &R, m: &Model) -> Result<()> {
    write_number(rt, m.horizon.0)?;
    write_three(rt, u64::from(m.v), u64::from(m.e), u64::from(m.n))?;
    write_number(rt, u64::from(m.t))?;
    write_segments(rt, m)?;
    write_starts(rt, m)
}

// A file written again at the front of out; how many bytes.
fn write_again(file: &[u8], out: &mut [u8]) -> usize
    ensures writes { Writes out.old out.new result (again file.now) }
    ensures prefix_len { IsPrefixLen result out.new }
{
    writer_print::rewrite_text(file, out)
}

// Whether a file is written again byte by byte.
fn is_written_again(bytes: &[u8]) -> bool {
    let mut out = [0u8; 65536];
    let n = write_again(bytes, &mut out);
    bytes == &out[..n]
}

fn write_read<R: Print>(rt: &R, bytes: &[u8]) -> Result<()> {
    match reader_file::read_file(bytes) {
        Ok(m) => {
            rt.write_all(b"0")?;
            write_model(rt, &m)?;
            if !is_written_again(bytes) {
                rt.write_all(b" not written again")?;
            }
        }
        Err(refusal) => {
            let number = u8::from(refusal);
            print!(rt; "{number}")?;
        }
    }
    rt.write_all(b"\n")
}

// Reads the next stored file, and answers whether there was one.
fn next_file<R: Print, F: Read>(rt: &R, file: &mut F) -> Result<bool> {
    let Some(n) = parts::read_length(file)? else {
        return Ok(false);
    };
    let mut bytes = [0u8; 65536];
    let m = parts::read_part(file, &mut bytes, n)?;
    if m < n {
        return Ok(false);
    }
    write_read(rt, &bytes[..m])?;
    Ok(true)
}

pub fn all_files<R: Print, F: Read>(rt: &R, file: &mut F) -> Result<()> {
    for _ in 0..u64::MAX {
        if !next_file(rt, file)? {
            return Ok(());
        }
    }
    Ok(())
}
