// The rows in which threads are while a model runs: a segment's own, or, for one that names a port, the thread's, after mapping.
#![tactic(auto)]

ghost use Rattle.std.specs.Prelude.{◌≡◌, false, ℕ, ◌≤◌, ◌<◌, get_or, length};
ghost use Rattle.model.specs.Port.{mapped};
ghost use Rattle.plain_words.specs.Ports.{ports_by, map_word, map_choice};
ghost use Rattle.plain_words.specs.Rows.{Own, OtherRows, Mapped, Kept, Rowed, InRows, segment_by, segments_by, IsPlain, Prepared};

use plain_pack::PORTS;

// The variable that a number names, for one of the threads.
fn mapped_name(code: &[u64; 4384], turn: usize, x: u64) -> u64
    requires { turn < 32 }
    ensures name { result ≡ mapped (ports_by code.now turn) x }
    ensures range { (n : ℕ) → 256 ≤ n → x < n → result < n }
{
    match x {
        128..=135 => code[2176 + 8 * turn + (x - 128) as usize] % 256,
        _ => x,
    }
}

// A statement after mapping: events have no ports, and a number that is set or added names nothing.
fn mapped_word(code: &[u64; 4384], turn: usize, w: u64) -> u64
    requires { turn < 32 }
    ensures { result ≡ map_word (ports_by code.now turn) w }
{
    let operation = w % 8;
    if 4 < operation {
        return w;
    }
    let a = mapped_name(code, turn, (w / 8) % 256);
    // The exit stays: an unused place is a set, and every place of a row comes here each time a thread's segment changes.
    if operation < 2 {
        return operation + 8 * a + 2048 * (w / 2048);
    }
    let b = mapped_name(code, turn, w / 2048);
    operation + 8 * a + 2048 * b
}

fn mapped_choice(code: &[u64; 4384], turn: usize, w: u64) -> u64
    requires { turn < 32 }
    ensures { result ≡ map_choice (ports_by code.now turn) w }
{
    let test = mapped_name(code, turn, (w / 65536) % 256);
    w % 65536 + 65536 * test + 16777216 * (w / 16777216)
}

// The statements of segment s, as a thread runs them, in the thread's own row.
fn map_statements(code: &mut [u64; 4384], turn: usize, s: usize)
    requires turn_bound { (turn < 32) × (s < 64) }
    requires code_len { length code.old ≡ 4384 }
    ensures { Mapped code.old code.new turn s 32 }
{
    let base = 34 * s + 2;
    let own = 2450 + 34 * turn;
    for j in 0..32 {
        let w = code[base + j];
        code[own + j] = mapped_word(code, turn, w);
    }
}

// A thread's own row gets the words of segment s as the thread runs it.
fn map_row(code: &mut [u64; 4384], turn: usize, s: usize)
    requires turn_bound { (turn < 32) × (s < 64) }
    requires code_len { length code.old ≡ 4384 }
    ensures places { length code.new ≡ 4384 }
    ensures own { Own code.new turn s }
    ensures kept { OtherRows turn code.old code.new }
{
    let base = 34 * s;
    let own = 2448 + 34 * turn;
    let choice = code[base + 1];
    let next = mapped_choice(code, turn, choice);
    code[own] = code[base];
    code[own + 1] = next;
    map_statements(code, turn, s);
}

// The same, unless its row has that segment.
fn hold(code: &mut [u64; 4384], held: &mut [u8; 32], turn: usize, s: u8)
    requires turn_bound { (turn < 32) × (s < 64) }
    requires rowed_2 { Rowed code.old held.old }
    ensures rowed { Rowed code.new held.new }
    ensures here { get_or held.new turn 0 ≡ s }
    ensures others { (k : ℕ) → (k ≡ turn → ⊥) → get_or held.new k 0 ≡ get_or held.old k 0 }
    ensures kept { Kept code.old code.new }
{
    if held[turn] == s {
        return;
    }
    map_row(code, turn, usize::from(s));
    held[turn] = s;
}

// A thread in the row of a segment that names a port goes to its own.
fn prepare_one(code: &mut [u64; 4384], held: &mut [u8; 32], rows: &mut [u8; 32], turn: usize)
    requires turn_bound { turn < 32 }
    requires rowed_2 { Rowed code.old held.old }
    requires in_rows { InRows held.old rows.old }
    ensures rowed { Rowed code.new held.new }
    ensures rows { InRows held.new rows.new }
    ensures same { segments_by held.new rows.new ≡ segments_by held.old rows.old }
    ensures plain { IsPlain code.new (get_or rows.new turn 0) }
    ensures others { (k : ℕ) → (k ≡ turn → ⊥) → get_or rows.new k 0 ≡ get_or rows.old k 0 }
    ensures kept { Kept code.old code.new }
{
    let s = rows[turn];
    if 64 <= s || plain_pack::end_of(code, s) < PORTS {
        return;
    }
    hold(code, held, turn, s);
    rows[turn] = 72 + (turn as u8);
}

// The threads from one on and before another.
fn prepare_all(
    code: &mut [u64; 4384],
    held: &mut [u8; 32],
    rows: &mut [u8; 32],
    from: usize,
    to: usize,
)
    requires from_le_to { (from ≤ to) × (to ≤ 32) }
    requires rowed { Rowed code.old held.old }
    requires in_rows { InRows held.old rows.old }
    ensures { Prepared code.old held.old rows.old code.new held.new rows.new from to }
{
    for turn in from..to {
        prepare_one(code, held, rows, turn);
    }
}

// Before a cycle: the threads that it looks at are in rows that can be run. Nothing is to do where no segment has the mark,
// so that `marked` is a fact about the words and no choice between two steps.
pub fn prepare(
    marked: bool,
    code: &mut [u64; 4384],
    held: &mut [u8; 32],
    rows: &mut [u8; 32],
    from: usize,
    to: usize,
)
    requires from_le_to { (from ≤ to) × (to ≤ 32) }
    requires plain { marked ≡ false → (s : ℕ) → IsPlain code.old s }
    requires rowed { Rowed code.old held.old }
    requires in_rows { InRows held.old rows.old }
    ensures { Prepared code.old held.old rows.old code.new held.new rows.new from to }
{
    if marked {
        prepare_all(code, held, rows, from, to);
    }
}

// The segment that stands in a row of a thread that holds another.
fn segment_by(held: u8, row: u8) -> u8
    ensures { result ≡ segment_by held row }
{
    if row < 64 { row } else { held }
}

// The segments in which the threads are.
pub fn segments_by(held: &[u8; 32], rows: &[u8; 32]) -> [u8; 32]
    ensures { result ≡ segments_by held.now rows.now }
{
    let mut segments = [0u8; 32];
    for (k, x) in segments.iter_mut().enumerate() {
        *x = segment_by(held[k], rows[k]);
    }
    segments
}
