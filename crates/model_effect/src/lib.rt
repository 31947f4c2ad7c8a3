// Document 01, "Model file": what a thread does in a segment; what its state says.
#![tactic(auto)]

ghost use Rattle.std.specs.Prelude.{◌≡◌, ◌+◌, ◌-◌, ◌%◌, ◌^◌, ◌<◌, length, replicate, slice_index, slice_index_or, slice_set};
ghost use Rattle.clock.specs.Wait.{wait_ends, held_step};
ghost use Rattle.model.specs.Port.{uses_ports, mapped, map_op, map_next, map_closer, map_segment};
ghost use Rattle.model.specs.Values.{no_statement, no_segment, no_start, no_model, body_of};
ghost use Rattle.model.specs.Statement.{execute_op, execute, notified_by};
ghost use Rattle.model.specs.Record.{no_thread, ready_cycle, cycle_of, state_after};
ghost use Rattle.model.specs.Effect.{next_of, closed_at, effect_in, with_op, held_thread, held_events, held_effect};

use clock::{Bound, Cycle, Delay, Delta, Step, Time, Wait};
use model::{
    Closer, Events, Model, Next, Op, Ran, Segment, Start, State, Statement, Thread, Threads,
    Variables,
};

// The value of variable a; 0 past the places.
fn value(v: Variables, a: u32) -> u32
    ensures { result ≡ slice_index v.at a }
{
    v.at.get(a as usize).copied().unwrap_or(0)
}

// The variables with x at a; unchanged where a is past the places.
fn with_value(v: Variables, a: u8, x: u32) -> Variables
    ensures { result.at ≡ slice_set v.at a x }
{
    let i = usize::from(a);
    let mut w = v;
    if i < 64 {
        w.at[i] = x;
    }
    w
}

// Document 01: "Sums and differences are taken modulo 4,294,967,296".
fn added(v: Variables, a: u8, x: u32) -> Variables
    ensures { result.at ≡ slice_set v.at a ((slice_index v.at a + x) % 2 ^ 32) }
{
    with_value(v, a, value(v, u32::from(a)).wrapping_add(x))
}

fn subtracted(v: Variables, a: u8, x: u32) -> Variables
    ensures { result.at ≡ slice_set v.at a ((slice_index v.at a + 2 ^ 32 - x) % 2 ^ 32) }
{
    with_value(v, a, value(v, u32::from(a)).wrapping_sub(x))
}

fn execute_op(op: Op, v: Variables) -> Variables
    ensures { result.at ≡ execute_op op v.at }
{
    match op {
        Op::Set(a, b) => with_value(v, a, b),
        Op::Add(a, b) => added(v, a, b),
        Op::Copy(a, b) => with_value(v, a, value(v, b)),
        Op::AddVariable(a, b) => added(v, a, value(v, b)),
        Op::SubVariable(a, b) => subtracted(v, a, value(v, b)),
        Op::Notify(_) => v,
    }
}

// The statements of a segment: as many as it counts, and no more than its places.
fn body_of(g: &Segment) -> &[Statement]
    ensures { result.now ≡ body_of g.now }
{
    let places: &[Statement] = &g.statements;
    &places[..usize::from(g.n).min(places.len())]
}

// The statements of a segment, one after the other.
fn execute_all(g: &Segment, v: Variables) -> Variables
    ensures { result.at ≡ execute (body_of g.now) v.at }
{
    let mut w = v;
    for x in body_of(g) {
        w = execute_op(x.op, w);
    }
    w
}

// One event more, where the operation notifies.
fn with_op(es: Events, op: Op) -> Events
    requires { es.n < 32 }
    ensures { result ≡ with_op es op }
{
    let Op::Notify(w) = op else {
        return es;
    };
    let mut at = es.at;
    at[usize::from(es.n)] = w;
    Events { n: es.n + 1, at }
}

// The events that a segment lists as notifying, in statement order, whatever the variables.
pub fn listed(g: Segment) -> Events
    ensures { result ≡ held_events (notified_by (body_of g)) }
{
    let mut es = Events { n: 0, at: [0; 32] };
    for x in body_of(&g) {
        es = with_op(es, x.op);
    }
    es
}

// The next segment: A if the variable is below the limit, else B.
fn next_of(x: Next, v: Variables) -> u8
    ensures { result ≡ next_of x v.at }
{
    if x.test == 255 || value(v, u32::from(x.test)) < x.limit {
        x.a
    } else {
        x.b
    }
}

// The state at the end of a time wait begun at c.
fn waited(k: Delay, c: Cycle) -> State
    ensures { result ≡ state_after (held_step (wait_ends (Wait.Time k) c)) }
{
    match clock::wait_ends(Wait::Time(k), c) {
        Step::Ready(d) => State::Ready(d),
        Step::Overrun(d) => State::Overrun(d),
    }
}

// Segment s closed at cycle c, on the variables after its statements.
fn closed_at(s: u8, closer: Closer, c: Cycle, v: Variables) -> Thread
    ensures { result ≡ held_thread (closed_at s closer c v.at) }
{
    match closer {
        Closer::End => Thread {
            segment: s,
            state: State::Ended(c),
        },
        Closer::Time(k, x) => Thread {
            segment: next_of(x, v),
            state: waited(k, c),
        },
        Closer::Event(e, x) => Thread {
            segment: next_of(x, v),
            state: State::Waiting(e, c),
        },
    }
}

// Segment g, numbered s, run whole at cycle c on variables v.
pub fn effect_in(g: Segment, s: u8, c: Cycle, v: Variables) -> Ran
    ensures { result ≡ held_effect (effect_in g s c v.at) }
{
    let variables = execute_all(&g, v);
    let notified = listed(g);
    let thread = closed_at(s, g.closer, c, variables);
    Ran {
        variables,
        notified,
        thread,
    }
}

// The cycle that a state carries.
pub fn cycle_of(s: State) -> Cycle
    ensures { result ≡ cycle_of s }
{
    match s {
        State::Ended(c)
        | State::Overrun(c)
        | State::Ready(c)
        | State::Waiting(_, c)
        | State::Running(c) => c,
    }
}

// The cycle of a ready or running thread; never for any other.
pub fn ready_cycle(s: State) -> Bound
    ensures { result ≡ ready_cycle s }
{
    match s {
        State::Ready(c) | State::Running(c) => Bound::At(c),
        State::Ended(_) | State::Overrun(_) | State::Waiting(_, _) => Bound::Never,
    }
}

// 32 thread records, all zero.
pub fn no_threads() -> Threads
    ensures { result ≡ record { at = replicate 32 no_thread } }
{
    let c = Cycle {
        time: Time(0),
        delta: Delta(0),
    };
    let x = Thread {
        segment: 0,
        state: State::Ended(c),
    };
    Threads { at: [x; 32] }
}

// What stands past a model's counts, and beside a number: all zero.
pub fn no_segment() -> Segment
    ensures { result ≡ no_segment }
{
    Segment {
        closer: Closer::End,
        n: 0,
        statements: [Statement { op: Op::Set(0, 0) }; 32],
    }
}

pub fn no_start() -> Start
    ensures { result ≡ no_start }
{
    Start {
        first: 0,
        ports: [255; 8],
    }
}

pub fn no_model() -> Model
    ensures { result ≡ no_model }
{
    Model {
        horizon: Time(0),
        v: 0,
        e: 0,
        n: 0,
        t: 0,
        segments: [no_segment(); 64],
        starts: [no_start(); 32],
    }
}

// Whether some port is used.
pub fn uses_ports(ports: [u8; 8]) -> bool
    ensures { result ≡ uses_ports ports }
{
    ports.iter().any(|p| *p != 255)
}

// Document 02: "128 to 135 .. mean ports 0 to 7": the variable that a byte names.
fn mapped_byte(ports: [u8; 8], x: u8) -> u8
    ensures { result ≡ mapped ports x }
{
    match x {
        128..=135 => ports[usize::from(x - 128)],
        _ => x,
    }
}

// The variable that four bytes name.
fn mapped_long(ports: [u8; 8], x: u32) -> u32
    ensures { result ≡ mapped ports x }
{
    match u8::try_from(x) {
        Ok(a) => u32::from(mapped_byte(ports, a)),
        Err(_) => x,
    }
}

fn mapped_op(ports: [u8; 8], op: Op) -> Op
    ensures { result ≡ map_op ports op }
{
    match op {
        Op::Set(a, b) => Op::Set(mapped_byte(ports, a), b),
        Op::Add(a, b) => Op::Add(mapped_byte(ports, a), b),
        Op::Copy(a, b) => Op::Copy(mapped_byte(ports, a), mapped_long(ports, b)),
        Op::AddVariable(a, b) => Op::AddVariable(mapped_byte(ports, a), mapped_long(ports, b)),
        Op::SubVariable(a, b) => Op::SubVariable(mapped_byte(ports, a), mapped_long(ports, b)),
        Op::Notify(w) => Op::Notify(w),
    }
}

fn mapped_next(ports: [u8; 8], x: Next) -> Next
    ensures { result ≡ map_next ports x }
{
    Next {
        test: mapped_byte(ports, x.test),
        ..x
    }
}

fn mapped_closer(ports: [u8; 8], closer: Closer) -> Closer
    ensures { result ≡ map_closer ports closer }
{
    match closer {
        Closer::End => Closer::End,
        Closer::Time(k, x) => Closer::Time(k, mapped_next(ports, x)),
        Closer::Event(e, x) => Closer::Event(e, mapped_next(ports, x)),
    }
}

// A segment as a thread with these ports runs it.
pub fn mapped_segment(ports: [u8; 8], g: Segment) -> Segment
    ensures { result ≡ map_segment ports g }
{
    let mut statements = g.statements;
    for x in statements.iter_mut() {
        x.op = mapped_op(ports, x.op);
    }
    Segment {
        closer: mapped_closer(ports, g.closer),
        n: g.n,
        statements,
    }
}
