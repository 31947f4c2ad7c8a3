// What both sides hold as words, against each other.
use crate::print;
use crate::print::Spot;
use std::io::Result;

fn word(words: &[u64], i: usize) -> u64 {
    words.get(i).copied().unwrap_or(0)
}

// The first of n places that differs.
fn differs_at(a: &[u64], b: &[u64], n: usize) -> Option<usize> {
    (0..n).find(|i| word(a, *i) != word(b, *i))
}

// The first n words of the library's side and of the second; a difference is written and counted. Whether there is none.
pub fn hold<R: Print>(
    rt: &R,
    totals: &mut [u64; 24],
    spot: Spot,
    a: &[u64],
    b: &[u64],
    n: usize,
) -> Result<bool> {
    let Some(i) = differs_at(a, b, n) else {
        return Ok(true);
    };
    crate::add(totals, crate::DIFFERENCES, 1);
    print::difference(rt, spot, i as u64, word(a, i), word(b, i))?;
    Ok(false)
}

// The first place where the library's held value is neither the second side's nor, as that, still its junk; with both.
fn differs_in(
    values: &[u32; 2048],
    junk: u64,
    kept: &[u64; 2048],
    other: u64,
) -> Option<(u64, u64, u64)> {
    for ((i, x), b) in (0..).zip(values).zip(kept) {
        let a = u64::from(*x);
        if a != *b && (a != junk || *b != other) {
            return Some((i, a, *b));
        }
    }
    None
}

// The values that are held, each side with its junk. They stand at places of their own.
pub fn hold_kept<R: Print>(
    rt: &R,
    totals: &mut [u64; 24],
    spot: Spot,
    values: &[u32; 2048],
    junk: u64,
    kept: &[u64; 2048],
    other: u64,
) -> Result<()> {
    if let Some((i, a, b)) = differs_in(values, junk, kept, other) {
        crate::add(totals, crate::DIFFERENCES, 1);
        print::difference(rt, spot, i.wrapping_add(1000), a, b)?;
    }
    Ok(())
}

// An answer's number. It stands at a place of its own.
pub fn hold_number<R: Print>(
    rt: &R,
    totals: &mut [u64; 24],
    spot: Spot,
    a: u64,
    b: u64,
) -> Result<()> {
    if a != b {
        crate::add(totals, crate::DIFFERENCES, 1);
        print::difference(rt, spot, 611, a, b)?;
    }
    Ok(())
}
