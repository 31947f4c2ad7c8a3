// Document 01, "Tables": the marks of conflict.
#![tactic(auto)]

ghost use Rattle.std.specs.Prelude.{◌≡◌, ℕ, ◌≤◌, ◌<◌, length};
ghost use Rattle.std.specs.Int.Bits.{bit_or};
ghost use Rattle.refusal.specs.Number.{number_told};
ghost use Rattle.model.specs.Values.{segment_at};
ghost use Rattle.tables.specs.Outcome.{if_held, conflict_number, conflict_marks};
ghost use Rattle.masks.specs.Mask.{bit_of};
ghost use Rattle.tables_conflict.specs.Mask.{masks, op_masks, test_mask, join_masks, masks_of, clash, masks_for, row_to, rows_to};

use model::{Closer, Model, Op, Segment};
use refusal::Refusal;

// The variables that a segment writes, and those that it writes, reads or tests: variable v is bit v.
#[derive(Clone, Copy)]
struct Masks {
    writes: u64,
    uses: u64,
}

impl Masks {
    fn join(self, other: Masks) -> Masks
        ensures { result ≡ join_masks self other }
    {
        Masks {
            writes: self.writes | other.writes,
            uses: self.uses | other.uses,
        }
    }

    // Document 01: "both access a variable which at least one writes".
    fn clashes(self, other: Masks) -> bool
        ensures { result ≡ clash self other }
    {
        self.uses & other.uses & (self.writes | other.writes) != 0
    }
}

// Variable x as a bit; none for a port, which names no variable by itself, and none for 255.
fn bit(x: u32) -> u64
    ensures { result ≡ bit_of x }
{
    if x >= 64 {
        return 0;
    }
    1 << x
}

// One variable, written.
fn one_mask(a: u8) -> Masks
    ensures { result ≡ masks (bit_of a) (bit_of a) }
{
    let w = bit(u32::from(a));
    Masks { writes: w, uses: w }
}

// One variable written, another read.
fn two_masks(a: u8, b: u32) -> Masks
    ensures { result ≡ masks (bit_of a) (bit_or (bit_of a) (bit_of b)) }
{
    let w = bit(u32::from(a));
    Masks {
        writes: w,
        uses: w | bit(b),
    }
}

fn op_masks(op: Op) -> Masks
    ensures { result ≡ op_masks op }
{
    match op {
        Op::Set(a, _) | Op::Add(a, _) => one_mask(a),
        Op::Copy(a, b) | Op::AddVariable(a, b) | Op::SubVariable(a, b) => two_masks(a, b),
        Op::Notify(_) => Masks { writes: 0, uses: 0 },
    }
}

// Document 01: "The test variable counts as read."
fn test_mask(closer: Closer) -> u64
    ensures { result ≡ test_mask closer }
{
    match closer {
        Closer::End => 0,
        Closer::Time(_, x) | Closer::Event(_, x) => bit(u32::from(x.test)),
    }
}

fn masks_of(g: Segment) -> Masks
    requires { g.n ≤ 32 }
    ensures value { result ≡ masks_of g }
    ensures placed { g.n ≤ length g.statements }
{
    let mut a = Masks { writes: 0, uses: 0 };
    for x in &g.statements[..usize::from(g.n)] {
        a = a.join(op_masks(x.op));
    }
    Masks {
        writes: a.writes,
        uses: a.uses | test_mask(g.closer),
    }
}

fn masks_for(m: Model, n: usize) -> [Masks; 64]
    requires { n ≡ if_held m m.n 0 }
    ensures value { result ≡ masks_for m n }
    ensures placed { (i : ℕ) → i < n → (segment_at m i).n ≤ length (segment_at m i).statements }
{
    let mut all = [Masks { writes: 0, uses: 0 }; 64];
    for (i, g) in m.segments[..n].iter().enumerate() {
        all[i] = masks_of(*g);
    }
    all
}

fn row_marks(all: [Masks; 64], n: usize, r: usize) -> [bool; 64]
    requires { (n ≤ 64) × (r < 64) }
    ensures { result ≡ row_to all r n }
{
    let mut out = [false; 64];
    let a = all[r];
    for (s, b) in all[..n].iter().enumerate() {
        out[s] = a.clashes(*b);
    }
    out
}

fn all_marks(all: [Masks; 64], n: usize) -> [[bool; 64]; 64]
    requires { n ≤ 64 }
    ensures { result ≡ rows_to all n n }
{
    let mut out = [[false; 64]; 64];
    for r in 0..n {
        out[r] = row_marks(all, n, r);
    }
    out
}

// Whether a held model has marks: unfit if it breaks the file rules.
pub fn conflict_number(m: Model) -> Result<(), Refusal>
    ensures { number_told result ≡ conflict_number m }
{
    if model_rules::model_fault(m).is_err() {
        return Err(Refusal::Unfit);
    }
    Ok(())
}

// How many segments have marks: none of an unfit model.
fn marked_segments(m: Model) -> usize
    ensures { result ≡ if_held m m.n 0 }
{
    if conflict_number(m).is_err() {
        return 0;
    }
    usize::from(m.n)
}

// Document 01: "a table of 64 rows of 64 marks, handed on by value". All unset for an unfit model.
pub fn conflict_marks(m: Model) -> [[bool; 64]; 64]
    ensures { result ≡ conflict_marks m }
{
    let n = marked_segments(m);
    all_marks(masks_for(m, n), n)
}
