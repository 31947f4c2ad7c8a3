// Document 01, "Clock", and the bounds of "Early issue".
#![tactic(auto)]

ghost use Rattle.std.specs.Prelude.{◌≡◌};
ghost use Rattle.clock.specs.Cycle.{is_before, is_same};
ghost use Rattle.clock.specs.Passage.{passage_of};
ghost use Rattle.clock.specs.Wait.{step_over, wait_ends, held_step};
ghost use Rattle.clock.specs.Advance.{is_bound_before, least};

// Document 01: "Times, deltas and thread numbers are counted separately".
#[derive(Clone, Copy, PartialEq, Eq, PartialOrd, Ord)]
pub struct Time(pub u64);

#[derive(Clone, Copy, PartialEq, Eq, PartialOrd, Ord)]
pub struct Delta(pub u32);

#[derive(Clone, Copy, PartialEq, Eq, PartialOrd, Ord)]
pub struct ThreadNo(pub u8);

// A number of units of time.
#[derive(Clone, Copy, PartialEq, Eq, PartialOrd, Ord)]
pub struct Delay(pub u32);

// Term: cycle. Compared in the order of the fields: time first.
#[derive(Clone, Copy, PartialEq, Eq, PartialOrd, Ord)]
pub struct Cycle {
    pub time: Time,
    pub delta: Delta,
}

// Term: stamp.
#[derive(Clone, Copy, PartialEq, Eq, PartialOrd, Ord)]
pub struct Stamp {
    pub cycle: Cycle,
    pub thread: ThreadNo,
}

// What a thread waits for: a notification, or a number of units.
#[derive(Clone, Copy)]
pub enum Wait {
    Event,
    Time(Delay),
}

// How a thread passes over a wait to a later cycle, after IEEE 1666-2011, 4.2.1: the first two in the delta notification
// phase, the third in the timed notification phase.
#[derive(Clone, Copy)]
pub enum Passage {
    DeltaNotification,
    ZeroWait,
    // its units, at least 1
    TimedWait(Delay),
}

// Where the end of a wait leaves a thread. Not a Result: an overrun is a state that the thread stays in, and no error.
#[derive(Clone, Copy)]
pub enum Step {
    Ready(Cycle),
    Overrun(Cycle),
}

// A cycle whose delta is not cut, or never. A distance is one too.
// Not an Option: Never comes after every cycle, and None would come before them.
#[derive(Clone, Copy)]
pub enum Bound {
    Never,
    At(Cycle),
}

// Whether a is before b: time first.
pub fn is_before(a: Cycle, b: Cycle) -> bool
    ensures { result ≡ is_before a b }
{
    a < b
}

pub fn is_same(a: Cycle, b: Cycle) -> bool
    ensures { result ≡ is_same a b }
{
    a == b
}

// Where a wait that is over at c leads: begun at c for a time, notified at c for an event.
pub fn wait_ends(w: Wait, c: Cycle) -> Step
    ensures { result ≡ held_step (wait_ends w c) }
{
    step_over(passage_of(w), c)
}

// The passage over a wait.
fn passage_of(w: Wait) -> Passage
    ensures { result ≡ passage_of w }
{
    match w {
        Wait::Event => Passage::DeltaNotification,
        Wait::Time(k) => {
            if k.0 == 0 {
                Passage::ZeroWait
            } else {
                Passage::TimedWait(k)
            }
        }
    }
}

// Document 02: "the step of a cycle over a wait or a wake [..] as cases".
fn step_over(p: Passage, c: Cycle) -> Step
    ensures { result ≡ held_step (step_over p c) }
{
    match p {
        Passage::DeltaNotification | Passage::ZeroWait => next_delta(c),
        Passage::TimedWait(k) => after_units(k, c),
    }
}

// Where a wait for an event that is notified at c leads, and a zero wait begun at c: it adds nothing to a time.
pub fn next_delta(c: Cycle) -> Step
    ensures { result ≡ wait_ends Wait.Event c }
{
    if c.delta.0 < 1023 {
        Step::Ready(Cycle {
            time: c.time,
            delta: Delta(c.delta.0 + 1),
        })
    } else {
        Step::Overrun(c)
    }
}

// A timed wait begun at c.
fn after_units(k: Delay, c: Cycle) -> Step
    ensures { result ≡ held_step (step_over (Passage.TimedWait k) c) }
{
    Step::Ready(Cycle {
        time: Time(c.time.0.wrapping_add(u64::from(k.0))),
        delta: Delta(0),
    })
}

pub fn is_bound_before(a: Bound, b: Bound) -> bool
    ensures { result ≡ is_bound_before a b }
{
    let Bound::At(x) = a else {
        return false;
    };
    let Bound::At(y) = b else {
        return true;
    };
    is_before(x, y)
}

// The smaller of two bounds; a where neither is.
pub fn least_of(a: Bound, b: Bound) -> Bound
    ensures { result ≡ least a b }
{
    if is_bound_before(b, a) { b } else { a }
}
