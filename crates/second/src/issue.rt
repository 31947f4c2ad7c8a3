// A second scheduler, written anew from documents 01 and 02. Records and variables are those of the second simulator; the log is sorted by
// event; deliveries are looked for from the highest thread down.
ghost use Rattle.std.specs.Prelude.{◌≡◌, ◌<◌};
ghost use Rattle.second.specs.Desk.{sooner_of, floor_to};

use crate::graph::Graph;
use crate::number::{at, put};
use crate::simulator::{NEVER, Runner, State, is_due, key_of, record_at, segment_of, state_of};
use crate::view::{Asked, View};
use crate::{held, log, places, simulator};

// What a call does: "a grant and its finish at once", a grant, or a finish.
#[derive(Clone, Copy, PartialEq, Eq)]
pub enum How {
    Both,
    Grant,
    Finish,
}

// Why a call is refused, by the refusal's number.
#[derive(Clone, Copy, PartialEq, Eq)]
pub enum Refusal {
    NoThread = 10,
    Unfit = 11,
    NotReady = 12,
    Late = 13,
    Hazard = 14,
    Full = 15,
    OutOfTurn = 19,
}

// What a call is answered with: the number, 0 where it is not refused; then segment, time and delta. They are numbers, since they are laid
// out as words. Beside them, how many others have overrun on hearing.
#[derive(Clone, Copy)]
pub struct Reply {
    pub number: u64,
    pub segment: u64,
    pub time: u64,
    pub delta: u64,
    pub overruns: u64,
}

// The number of a refusal; 0 for none.
fn number_of(judged: Result<(), Refusal>) -> u64
    ensures { result < 20 }
{
    match judged {
        Ok(()) => 0,
        Err(refusal) => refusal as u64,
    }
}

// The key of a record that is ready or running, if it is less; else the other.
fn sooner(x: u64, least: u64) -> u64
    ensures { result ≡ sooner_of x least }
{
    if is_due(x) {
        key_of(x).min(least)
    } else {
        least
    }
}

// The least key of a ready or running thread, or NEVER.
pub fn floor(desk: &[u64; 640]) -> u64
    ensures { result ≡ floor_to desk.now 32 }
{
    let mut least = NEVER;
    for k in 0..32 {
        least = sooner(record_at(desk, k), least);
    }
    least
}

// "cycle later than the floor and log plus new pairs above 96; or above 128 for any thread", with what is counted for running threads.
fn is_full(view: &View, x: u64) -> bool {
    let most = if floor(view.desk) < key_of(x) {
        96
    } else {
        128
    };
    most < places::all_with(view, x)
}

// The notifications of a segment's statements, in their order.
fn note(file: &[u8], s: u64, key: u64, desk: &mut [u64; 640]) {
    let closer = at(desk, simulator::CLOSERS, s);
    for j in 0..simulator::statements(file, closer) {
        let i = simulator::statement_at(closer, j);
        if simulator::byte(file, i, 0) == 6 {
            log::add(desk, simulator::byte(file, i, 1), key);
        }
    }
}

// "every thread is looked at, again and again until none hears anything": from the highest down, and from there again once one has heard.
// Each hears once at most. How many have overrun so, beside the thread that was asked for.
fn settle(graph: Graph, desk: &mut [u64; 640], asked: u64) -> u64 {
    let mut overruns: u64 = 0;
    for _ in 0..32 {
        let Some(heard) = (View { graph, desk }).first_heard() else {
            break;
        };
        if state_of(heard.record) == State::Overrun && heard.thread != asked {
            overruns = overruns.wrapping_add(1);
        }
        put(desk, simulator::RECORDS, heard.thread, heard.record);
    }
    overruns
}

// "a running record later than H"
fn runs_late(desk: &[u64; 640]) -> bool {
    let end = at(desk, simulator::END, 0);
    (0..32).any(|k| {
        let x = record_at(desk, k);
        state_of(x) == State::Running && end < key_of(x)
    })
}

// Whether a thread that is not running may run.
fn judge(view: &View, asked: Asked) -> Result<(), Refusal> {
    let x = asked.record;
    if state_of(x) != State::Ready {
        return Err(Refusal::NotReady);
    }
    if at(view.desk, simulator::END, 0) < key_of(x) {
        return Err(Refusal::Late);
    }
    if view.is_hazard(asked) {
        return Err(Refusal::Hazard);
    }
    if is_full(view, x) {
        return Err(Refusal::Full);
    }
    Ok(())
}

// Whether a call is not refused. Of what is unfit, that by which running threads are judged; the rest is fit.
fn judge_call(view: &View, how: How, asked: Asked) -> Result<(), Refusal> {
    if runs_late(view.desk) || 128 < places::all(view) {
        return Err(Refusal::Unfit);
    }
    if at(view.desk, simulator::THREADS, 0) <= asked.thread {
        return Err(Refusal::NoThread);
    }
    let runs = state_of(asked.record) == State::Running;
    if runs != (how == How::Finish) {
        return Err(Refusal::OutOfTurn);
    }
    if runs { Ok(()) } else { judge(view, asked) }
}

// A model and its state, as calls change it.
#[derive(Drop)]
struct Site<'a> {
    file: &'a [u8],
    graph: Graph<'a>,
    desk: &'a mut [u64; 640],
    held: &'a mut [u64; 2048],
}

impl<'a> Site<'a> {
    // Notifications are logged and the closer's record r stands, of a thread that was asked for; deliveries. "Then notifications before the
    // floor .. are dropped, all of them if none is ready." How many others have overrun.
    fn close(&mut self, asked: Asked, r: u64) -> u64 {
        let x = asked.record;
        note(self.file, segment_of(x), key_of(x), self.desk);
        put(self.desk, simulator::RECORDS, asked.thread, r);
        let overruns = settle(self.graph, self.desk, asked.thread);
        let f = floor(self.desk);
        log::drop_before(self.desk, f);
        overruns
    }

    // The thread that was asked for, at its key.
    fn runner(&self, asked: Asked) -> Runner<'a> {
        Runner {
            file: self.file,
            ports: at(self.desk, simulator::PORTS, asked.thread),
            now: key_of(asked.record),
        }
    }

    // "the segment runs whole, its notifications are logged, and its closer is applied at its cycle"
    fn run_whole(&mut self, asked: Asked) -> u64 {
        let r = self.runner(asked).run(segment_of(asked.record), self.desk);
        self.close(asked, r)
    }

    // "a grant fixes the values that the segment reads"
    fn grant(&mut self, asked: Asked) -> u64 {
        let x = asked.record;
        held::keep(self.held, asked.thread, self.desk);
        let r = simulator::record(State::Running, segment_of(x), 0, key_of(x));
        put(self.desk, simulator::RECORDS, asked.thread, r);
        0
    }

    // "a finish stores the variables it writes, logs its notifications and closes it": the segment runs on the values that are held.
    fn finish(&mut self, asked: Asked) -> u64 {
        let mut apart = *self.desk;
        held::lay_out(self.held, asked.thread, &mut apart);
        held::row_mut(self.held, asked.thread).fill(0);
        let s = segment_of(asked.record);
        let r = self.runner(asked).run_apart(s, &mut apart, self.desk);
        self.close(asked, r)
    }

    // A call that is not refused.
    fn act(&mut self, how: How, asked: Asked) -> u64 {
        match how {
            How::Both => self.run_whole(asked),
            How::Grant => self.grant(asked),
            How::Finish => self.finish(asked),
        }
    }
}

// What a number asks for: 1 a grant, 2 a finish, any other both at once.
fn asked_for(n: u64) -> How {
    match n {
        1 => How::Grant,
        2 => How::Finish,
        _ => How::Both,
    }
}

// A call of thread k, of the kind that a number asks for.
pub fn call(
    file: &[u8],
    words: &[u64; 24576],
    desk: &mut [u64; 640],
    held: &mut [u64; 2048],
    how: u64,
    k: u64,
) -> Reply
    ensures { (result.number < 20) × (result.segment < 256) × (result.delta < 1024) }
{
    let graph = Graph::new(words);
    let how = asked_for(how);
    let x = record_at(desk, k);
    let asked = Asked {
        thread: k,
        record: x,
    };
    let number = number_of(judge_call(&View { graph, desk }, how, asked));
    if number != 0 {
        return Reply {
            number,
            segment: 0,
            time: 0,
            delta: 0,
            overruns: 0,
        };
    }
    let mut site = Site {
        file,
        graph,
        desk,
        held,
    };
    let overruns = site.act(how, asked);
    Reply {
        number,
        segment: segment_of(x),
        time: key_of(x) / 1024,
        delta: key_of(x) % 1024,
        overruns,
    }
}

// The records without those that are running.
fn stop_all(desk: &mut [u64; 640]) {
    for k in 0..32 {
        if state_of(record_at(desk, k)) == State::Running {
            put(desk, simulator::RECORDS, k, 0);
        }
    }
}

// Whether a thread that is ready would get another number if none were running.
pub fn is_by_running(words: &[u64; 24576], desk: &[u64; 640], k: u64, number: u64) -> bool {
    let mut other = *desk;
    stop_all(&mut other);
    let asked = Asked {
        thread: k,
        record: record_at(desk, k),
    };
    let view = View {
        graph: Graph::new(words),
        desk: &other,
    };
    number_of(judge(&view, asked)) != number
}
