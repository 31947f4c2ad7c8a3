// Document 01, "Model file": the file rules over values, as the first fault.
#![tactic(auto)]

ghost use Rattle.std.specs.Prelude.{◌≡◌, ℕ, ◌≤◌, ◌<◌};
ghost use Rattle.refusal.specs.Number.{number_of, number_told};
ghost use Rattle.model.specs.Values.{start_at};
ghost use Rattle.model.specs.Rules.{unless, head_fault, choice_fault, is_name, test_fault, closer_fault, op_fault, statements_fault, segment_fault, segments_fault, ports_fault, starts_fault, counts_fault, leaves_model, any_segment_leaves, any_start_leaves, targets_fault, lack_fault, model_fault};
ghost use Rattle.model_rules.specs.Asked.{parts_fault, Linked};

use clock::Time;
use model::{Closer, LARGEST_TIME, Model, Next, Op, Segment, Start};
use refusal::Refusal;

// A refusal where a rule is not kept.
pub fn unless(kept: bool, r: Refusal) -> Result<(), Refusal>
    ensures { number_told result ≡ unless kept (number_of r) }
{
    if kept { Ok(()) } else { Err(r) }
}

// "2 and 7 now let kind 5 and the port numbers through": a variable of the model, or a port. "b is compared with V as the whole 32-bit number".
fn is_name(v: u8, x: u32) -> bool
    ensures { result ≡ is_name v x }
{
    x < u32::from(v) || (128 <= x && x < 136)
}

// 4 where the horizon or a count is out of range.
pub fn head_fault(h: Time, v: u8, e: u8) -> Result<(), Refusal>
    ensures { number_told result ≡ head_fault h.0 v e }
{
    unless(
        1 <= h.0 && h.0 <= LARGEST_TIME && v <= 64 && e <= 32,
        Refusal::WrongCount,
    )
}

// "With 255, B equals A and the limit is 0."
fn choice_fault(x: Next) -> Result<(), Refusal>
    ensures { number_told result ≡ choice_fault x }
{
    if x.test == 255 && (x.b != x.a || x.limit != 0) {
        return Err(Refusal::WrongCloser);
    }
    Ok(())
}

// 7 where there is a test, and of no name.
fn test_fault(v: u8, x: Next) -> Result<(), Refusal>
    ensures { number_told result ≡ test_fault v x }
{
    if x.test == 255 {
        return Ok(());
    }
    unless(is_name(v, u32::from(x.test)), Refusal::WrongName)
}

// The closer's 5, then its 7.
pub fn closer_fault(v: u8, e: u8, closer: Closer) -> Result<(), Refusal>
    ensures { number_told result ≡ closer_fault v e closer }
{
    match closer {
        Closer::End => Ok(()),
        Closer::Time(k, x) => {
            unless(u64::from(k.0) <= LARGEST_TIME, Refusal::WrongCloser)?;
            choice_fault(x)?;
            test_fault(v, x)
        }
        Closer::Event(w, x) => {
            choice_fault(x)?;
            unless(w < e, Refusal::WrongName)?;
            test_fault(v, x)
        }
    }
}

// A statement's 7.
pub fn op_fault(v: u8, e: u8, op: Op) -> Result<(), Refusal>
    ensures { number_told result ≡ op_fault v e op }
{
    match op {
        Op::Set(a, _) | Op::Add(a, _) => unless(is_name(v, u32::from(a)), Refusal::WrongName),
        Op::Copy(a, b) | Op::AddVariable(a, b) | Op::SubVariable(a, b) => {
            unless(is_name(v, u32::from(a)), Refusal::WrongName)?;
            unless(is_name(v, b), Refusal::WrongName)
        }
        Op::Notify(w) => unless(w < e, Refusal::WrongName),
    }
}

fn statements_fault(v: u8, e: u8, g: &Segment) -> Result<(), Refusal>
    requires { g.now.n ≤ 32 }
    ensures { number_told result ≡ statements_fault v e g.now }
{
    for x in &g.statements[..usize::from(g.n)] {
        op_fault(v, e, x.op)?;
    }
    Ok(())
}

// A segment's 3, its closer's 5 and 7, then 7 of each statement.
fn segment_fault(v: u8, e: u8, g: &Segment) -> Result<(), Refusal>
    ensures { number_told result ≡ segment_fault v e g.now }
{
    unless(g.n <= 32, Refusal::WrongLength)?;
    closer_fault(v, e, g.closer)?;
    statements_fault(v, e, g)
}

// Segment by segment; the 65th is 4.
fn segments_fault(m: &Model) -> Result<(), Refusal>
    ensures { number_told result ≡ segments_fault m.now }
{
    for g in &m.segments[..usize::from(m.n).min(64)] {
        segment_fault(m.v, m.e, g)?;
    }
    unless(m.n <= 64, Refusal::WrongCount)
}

// Whether a next segment is not below N.
fn leaves_model(n: u8, closer: Closer) -> bool
    ensures { result ≡ leaves_model n closer }
{
    match closer {
        Closer::End => false,
        Closer::Time(_, x) | Closer::Event(_, x) => !((x.a < n) & (x.b < n)),
    }
}

fn any_segment_leaves(segments: &[Segment; 64], n: u8) -> bool
    ensures { (m : Model) → m.segments ≡ segments.now → m.n ≡ n → result ≡ any_segment_leaves m }
{
    for g in &segments[..usize::from(n).min(64)] {
        if leaves_model(n, g.closer) {
            return true;
        }
    }
    false
}

// 17 where a port is neither unused nor a variable of the model.
pub fn ports_fault(v: u8, ports: [u8; 8]) -> Result<(), Refusal>
    ensures { number_told result ≡ ports_fault v ports }
{
    for x in ports {
        if x != 255 && v <= x {
            return Err(Refusal::WrongPort);
        }
    }
    Ok(())
}

// Thread by thread, its ports' 17; the 33rd is 4.
fn starts_fault(m: &Model) -> Result<(), Refusal>
    ensures { number_told result ≡ starts_fault m.now }
{
    for x in &m.starts[..usize::from(m.t).min(32)] {
        ports_fault(m.v, x.ports)?;
    }
    unless(m.t <= 32, Refusal::WrongCount)
}

// 2 for no segment or no thread, then the threads' faults.
fn counts_fault(m: &Model) -> Result<(), Refusal>
    ensures { number_told result ≡ counts_fault m.now }
{
    unless(1 <= m.n, Refusal::WrongKind)?;
    unless(1 <= m.t, Refusal::WrongKind)?;
    starts_fault(m)
}

fn any_start_leaves(m: &Model) -> bool
    ensures { result ≡ any_start_leaves m.now }
{
    for x in &m.starts[..usize::from(m.t).min(32)] {
        if m.n <= x.first {
            return true;
        }
    }
    false
}

// 8 where a next or a first segment is not below N.
fn targets_fault(m: &Model) -> Result<(), Refusal>
    ensures { number_told result ≡ targets_fault m.now }
{
    unless(!any_segment_leaves(&m.segments, m.n), Refusal::WrongTarget)?;
    unless(!any_start_leaves(m), Refusal::WrongTarget)
}

// 18 where a thread can reach a port that it leaves unused, by the masks of what it lacks.
pub fn lack_in(starts: [Start; 32], t: u8, lacking: [u64; 32]) -> Result<(), Refusal>
    ensures { (m : Model) → m.starts ≡ starts → m.t ≡ t → Linked m lacking → number_told result ≡ lack_fault m }
{
    for k in 0..usize::from(t).min(32) {
        if masks::has(lacking[k], usize::from(starts[k].first)) {
            return Err(Refusal::LackedPort);
        }
    }
    Ok(())
}

// 18 of a model.
pub fn lack_fault(m: Model) -> Result<(), Refusal>
    ensures { m.n ≤ 64 → m.t ≤ 32 → ((k : ℕ) → k < m.t → (start_at m k).first < m.n) → number_told result ≡ lack_fault m }
{
    lack_in(m.starts, m.t, model_reach::lacks(m))
}

// The first fault of a held model but 18, in file order.
pub fn parts_fault(m: Model) -> Result<(), Refusal>
    ensures { number_told result ≡ parts_fault m }
{
    head_fault(m.horizon, m.v, m.e)?;
    segments_fault(&m)?;
    counts_fault(&m)?;
    targets_fault(&m)
}

// The first fault of a held model, in file order; none where it keeps the file rules.
pub fn model_fault(m: Model) -> Result<(), Refusal>
    ensures { number_told result ≡ model_fault m }
{
    parts_fault(m)?;
    lack_in(m.starts, m.t, model_reach::lacks(m))
}
