// A segment run in its row of words: the statements, the events that they notify, the threads that these reach, and the next segment.
#![tactic(auto)]

ghost use Rattle.std.specs.Prelude.{◌≡◌, ◌+◌, ◌-◌, ◌/◌, ◌%◌, ◌^◌, true, slice_index, slice_set};
ghost use Rattle.plain_words.specs.Unpack.{next_by, follow_by};
ghost use Rattle.plain_words.specs.Reach.{widened};
ghost use Rattle.plain_words.specs.Shared.{shared, execute_word, execute_by};

// A range of threads is made to hold those from first on and before past too.
pub fn widen(ranges: &mut [usize; 66], i: usize, first: usize, past: usize)
    ensures { ranges.new ≡ widened (i % 33) first past ranges.old }
{
    let j = i % 33;
    ranges[j] = first.min(ranges[j]);
    ranges[33 + j] = past.max(ranges[33 + j]);
}

// A notification: its event is marked, and the threads that wait for it are reached.
fn tell(w: u64, told: &mut [bool; 32], ranges: &mut [usize; 66])
    ensures marks { told.new ≡ slice_set told.old (w / 8 % 32) true }
    ensures reached { ranges.new ≡ widened 32 (slice_index ranges.old (w / 8 % 32)) (slice_index ranges.old (33 + w / 8 % 32)) ranges.old }
{
    let e = ((w / 8) % 32) as usize;
    told[e] = true;
    let first = ranges[e];
    let past = ranges[33 + e];
    widen(ranges, 32, first, past);
}

// One statement, by document 01: "Sums and differences are taken modulo 4,294,967,296". All eight codes have an arm, so that the jump needs no test of its range.
fn execute_word(w: u64, v: &mut [u32; 64], told: &mut [bool; 32], ranges: &mut [usize; 66])
    ensures { shared v.new told.new ranges.new ≡ execute_word w (shared v.old told.old ranges.old) }
{
    let a = ((w / 8) % 64) as usize;
    let b = ((w / 2048) % 64) as usize;
    match w % 8 {
        0 => {
            v[a] = ((w / 2048) % 4294967296) as u32;
        }
        1 => {
            v[a] = v[a].wrapping_add(((w / 2048) % 4294967296) as u32);
        }
        2 => {
            v[a] = v[b];
        }
        3 => {
            v[a] = v[a].wrapping_add(v[b]);
        }
        4 => {
            v[a] = v[a].wrapping_sub(v[b]);
        }
        5 | 6 | 7 => {
            tell(w, told, ranges);
        }
        _ => {}
    }
}

// The statements of segment s, marks for the events that they notify, and the range of the threads that these reach.
// The variables, the marks and the ranges are lent one by one, here and in the crates above: as one struct a run took up to 3 percent more instructions.
fn execute(
    code: &[u64; 4384],
    s: u8,
    v: &mut [u32; 64],
    told: &mut [bool; 32],
    ranges: &mut [usize; 66],
)
    ensures { shared v.new told.new ranges.new ≡ execute_by code.now s (shared v.old told.old ranges.old) }
{
    let base = 34 * (usize::from(s) % 128);
    let n = plain_pack::size_of(code[base]);
    for w in &code[base + 2..base + 2 + n] {
        execute_word(*w, v, told, ranges);
    }
}

// Document 01: "The next segment is A if the variable is below the limit after the statements, else B".
fn next_segment(next: u64, v: &[u32; 64]) -> u8
    ensures { result ≡ next_by next v.now }
{
    let test = (next / 65536) % 256;
    if test == 255 || u64::from(v[(test % 64) as usize]) < next / 16777216 {
        (next % 64) as u8
    } else {
        ((next / 256) % 64) as u8
    }
}

// The segment after s: "The segment is the next to run; in an ended thread, the last run".
fn follow(code: &[u64; 4384], s: u8, v: &[u32; 64]) -> u8
    ensures { result ≡ follow_by code.now s v.now }
{
    let base = 34 * (usize::from(s) % 128);
    if code[base] % 4 == 0 {
        s
    } else {
        next_segment(code[base + 1], v)
    }
}

// The segment in row s is run whole: the row of the segment after it.
pub fn run(
    code: &[u64; 4384],
    s: u8,
    v: &mut [u32; 64],
    told: &mut [bool; 32],
    ranges: &mut [usize; 66],
) -> u8
    ensures ran { shared v.new told.new ranges.new ≡ execute_by code.now s (shared v.old told.old ranges.old) }
    ensures next { result ≡ follow_by code.now s v.new }
{
    execute(code, s, v, told, ranges);
    follow(code, s, v)
}
