// Document 01, "Plain run": a cycle, in which the ready threads run.
#![tactic(auto)]

ghost use Rattle.std.specs.Prelude.{◌≡◌, ◌&&◌, leb, ℕ, ◌≤◌, ◌<◌, ◌^◌, get_or};
ghost use Rattle.plain_state.specs.Words.{least_word};
ghost use Rattle.plain_state.specs.Turn.{locals, waited_by, turn_on, turns_to};

use plain_close::Due;

// A thread whose segment ends so is put into the range of the event for which it waits, if it waits for one.
fn wait_for(end: u64, turn: usize, ranges: &mut [usize; 66])
    requires { turn < 32 }
    ensures { ranges.new ≡ waited_by end turn ranges.old }
{
    if end % 4 == 2 {
        plain_execute::widen(ranges, ((end / 1024) % 32) as usize, turn, turn + 1);
    }
}

// One thread is looked at: if it is ready in this cycle, and the budget has room, it runs its segment whole.
// What runs is lent array by array: as one struct with the count a run took up to 3 percent more instructions.
fn look_at(
    code: &[u64; 4384],
    turn: usize,
    key: u64,
    budget: u64,
    n: u64,
    v: &mut [u32; 64],
    state: &mut [u64; 32],
    rows: &mut [u8; 32],
    told: &mut [bool; 32],
    ranges: &mut [usize; 66],
) -> u64
    requires turn_bound { turn < 32 }
    requires key_bound { key < 2 ^ 44 }
    ensures { locals v.new state.new rows.new told.new ranges.new result ≡ turn_on (λ _. code.now) key budget turn (locals v.old state.old rows.old told.old ranges.old n) }
{
    if state[turn] != key || budget <= n {
        return n;
    }
    let s = rows[turn];
    let next = plain_execute::run(code, s, v, told, ranges);
    let end = plain_pack::end_of(code, s);
    wait_for(end, turn, ranges);
    state[turn] = plain_close::close_word(end, key);
    rows[turn] = next;
    n + 1
}

// Document 01: "In each cycle the ready threads of that cycle run their segment whole, lowest number first".
pub fn run_cycle(
    code: &[u64; 4384],
    due: Due,
    budget: u64,
    ran: u64,
    v: &mut [u32; 64],
    state: &mut [u64; 32],
    rows: &mut [u8; 32],
    told: &mut [bool; 32],
    ranges: &mut [usize; 66],
) -> u64
    requires from_le_to { due.from ≤ due.to }
    requires to_bound { due.to ≤ 32 }
    requires key_bound { due.key < 2 ^ 44 }
    requires by_index { (k : ℕ) → k < due.from → get_or state.old k 0 ≡ due.key → ⊥ }
    ensures { locals v.new state.new rows.new told.new ranges.new result ≡ turns_to (λ _. code.now) due.key budget due.to (locals v.old state.old rows.old told.old ranges.old ran) }
{
    let mut n = ran;
    for turn in due.from..due.to {
        n = look_at(code, turn, due.key, budget, n, v, state, rows, told, ranges);
    }
    n
}

// Whether a thread of this cycle was left for want of budget.
pub fn is_out(state: &[u64; 32], t: usize, key: u64, budget: u64, n: u64) -> bool
    requires { t ≤ 32 }
    ensures { result ≡ leb budget n && leb (least_word t state.now) key }
{
    budget <= n && plain_close::floor_of(state, 0, t, u64::MAX) <= key
}
