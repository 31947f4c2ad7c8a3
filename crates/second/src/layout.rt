// The state of a desk as words, laid out as the library's numbers are.
ghost use Rattle.std.specs.Prelude.{◌≡◌, ◌%◌};
ghost use Rattle.second.specs.Layout.{three_in, five_in, reply_in, record_in, records_to, pair_in, pairs_to, copied_to, words_of};

use crate::issue::Reply;
use crate::number::{at, put};
use crate::{log, simulator};

// Five words for each thread: segment, state, event, time, delta.
// Then the variables, how many segments were run and whether the budget was spent.
pub const VARIABLES: u64 = 160;

pub const RAN: usize = 224;

pub const SPENT: usize = 225;

// The log's count, and three words for each place: event, time, delta.
pub const LOG: usize = 226;

pub const PAIRS: u64 = 227;

// The answer: number, segment, time, delta.
pub const ANSWER: usize = 611;

// So many words hold all; so many up to the log.
pub const ALL: usize = 615;

pub const PLAIN: usize = 226;

// Three words from a place on: of a notification event, time, delta.
pub fn put_three(out: &mut [u64; 640], i: u64, a: u64, b: u64, c: u64)
    ensures { out.new ≡ three_in out.old (i % 637) a b c }
{
    let k = (i % 637) as usize;
    out[k] = a;
    out[k + 1] = b;
    out[k + 2] = c;
}

// Segment, state, event, time, delta.
pub fn put_five(out: &mut [u64; 640], i: u64, a: u64, b: u64, c: u64, d: u64, e: u64)
    ensures { out.new ≡ five_in out.old (i % 635) a b c d e }
{
    let k = (i % 635) as usize;
    out[k] = a;
    out[k + 1] = b;
    out[k + 2] = c;
    out[k + 3] = d;
    out[k + 4] = e;
}

fn put_record(out: &mut [u64; 640], k: u64, x: u64)
    ensures { out.new ≡ record_in out.old k x }
{
    let key = simulator::key_of(x);
    put_five(
        out,
        k % 32 * 5,
        simulator::segment_of(x),
        simulator::kind_of(x),
        simulator::event_of(x),
        key / 1024,
        key % 1024,
    );
}

fn put_pair(out: &mut [u64; 640], i: u64, w: u64)
    ensures { out.new ≡ pair_in out.old i w }
{
    let key = log::key_of(w);
    put_three(
        out,
        PAIRS + 3 * (i % 128),
        log::event_of(w),
        key / 1024,
        key % 1024,
    );
}

fn copy(desk: &[u64; 640], part: u64, out: &mut [u64; 640], to: u64, size: u64)
    ensures { out.new ≡ copied_to desk.now part out.old to size }
{
    for i in 0..size {
        put(out, to, i, at(desk, part, i));
    }
}

fn put_records(desk: &[u64; 640], out: &mut [u64; 640])
    ensures { out.new ≡ records_to desk.now out.old 32 }
{
    for k in 0..32 {
        put_record(out, k, at(desk, simulator::RECORDS, k));
    }
}

// The log's first n pairs, in the order of insertion.
fn put_pairs(desk: &[u64; 640], out: &mut [u64; 640], n: u64)
    ensures { out.new ≡ pairs_to desk.now out.old n }
{
    for i in 0..n {
        put_pair(out, i, at(desk, log::ORDER as u64, i));
    }
}

// The words of a desk. Past the log's count all are 0.
pub fn words_of(desk: &[u64; 640]) -> [u64; 640]
    ensures { result ≡ words_of desk.now }
{
    let mut out = [0u64; 640];
    put_records(desk, &mut out);
    let n = at(desk, log::COUNT, 0);
    put_pairs(desk, &mut out, n);
    copy(desk, simulator::VARIABLES, &mut out, VARIABLES, 64);
    copy(desk, simulator::RAN, &mut out, 224, 3);
    out
}

pub fn put_reply(words: &mut [u64; 640], r: Reply)
    ensures { words.new ≡ reply_in words.old r.number r.segment r.time r.delta }
{
    words[611] = r.number;
    words[612] = r.segment;
    words[613] = r.time;
    words[614] = r.delta;
}
