// What a call is judged by: the tables and a desk. Earliest is found by a search that takes the soonest thread first.
ghost use Rattle.std.specs.Prelude.{◌<◌, IfSome};

use crate::graph::{Graph, Mapped, instant, plus};
use crate::number::at;
use crate::simulator::{NEVER, State, event_of, is_due, key_of, record_at, segment_of, state_of};
use crate::{log, simulator};

#[derive(Clone, Copy)]
pub(crate) struct View<'a> {
    pub(crate) graph: Graph<'a>,
    pub(crate) desk: &'a [u64; 640],
}

// A thread that a call names, and its record.
#[derive(Clone, Copy)]
pub(crate) struct Asked {
    pub(crate) thread: u64,
    pub(crate) record: u64,
}

// The soonest known instants of threads: those that are final, and those of the others, NEVER once they are final.
#[derive(Clone, Copy)]
struct Bounds {
    finals: [u64; 32],
    others: [u64; 32],
}

impl Bounds {
    // The thread of the soonest instant that is not final.
    fn soonest(&self) -> Option<usize>
        ensures { IfSome result (λ k. k < 32) }
    {
        let mut soonest = None;
        let mut least = NEVER;
        for (k, x) in self.others.iter().enumerate() {
            if *x < least {
                least = *x;
                soonest = Some(k);
            }
        }
        soonest
    }
}

impl View<'_> {
    // Where a chain begins at a thread, or NEVER. Of a waiting one "the delta after a logged notification of its event not before its wait
    // began".
    fn source(&self, k: u64) -> u64 {
        let x = record_at(self.desk, k);
        if is_due(x) {
            return instant(key_of(x));
        }
        if state_of(x) != State::Waiting {
            return NEVER;
        }
        match log::first_from(self.desk, event_of(x), key_of(x)) {
            Some(key) => plus(instant(key), 1),
            None => NEVER,
        }
    }

    fn sources(&self) -> Bounds {
        let mut others = [NEVER; 32];
        for (k, x) in others.iter_mut().enumerate() {
            *x = self.source(k as u64);
        }
        Bounds {
            finals: [NEVER; 32],
            others,
        }
    }

    // Thread k, if it waits, may be woken one delta after the instant at which segment s can notify its event, and "cannot wake before the
    // delta after its wait began".
    fn woken(&self, k: u64, s: u64, now: u64) -> u64 {
        let x = record_at(self.desk, k);
        if state_of(x) != State::Waiting {
            return NEVER;
        }
        let told = plus(plus(now, self.graph.ahead(s, event_of(x))), 1);
        told.max(plus(instant(key_of(x)), 1))
    }

    // Thread k is final, and wakes others that are not.
    fn make_final(&self, bounds: &mut Bounds, k: usize)
        requires { k < 32 }
    {
        let s = segment_of(record_at(self.desk, k as u64));
        let now = bounds.others[k];
        bounds.finals[k] = now;
        bounds.others[k] = NEVER;
        for j in 0..32 {
            let x = self.woken(j as u64, s, now);
            if bounds.finals[j] == NEVER && x < bounds.others[j] {
                bounds.others[j] = x;
            }
        }
    }

    // The earliest of each thread, or NEVER.
    fn earliest(&self) -> [u64; 32] {
        let mut bounds = self.sources();
        for _ in 0..32 {
            let Some(k) = bounds.soonest() else {
                break;
            };
            self.make_final(&mut bounds, k);
        }
        bounds.finals
    }

    // "the least, over live threads and segments notifying it, of earliest plus distance"
    fn forecast(&self, earliest: &[u64; 32], event: u64) -> u64 {
        let mut least = NEVER;
        for (k, x) in earliest.iter().enumerate() {
            let s = segment_of(record_at(self.desk, k as u64));
            least = least.min(plus(*x, self.graph.ahead(s, event)));
        }
        least
    }

    // Whether from an instant on, in a segment of its own, another thread may run one that conflicts with a segment before `end`.
    fn may_clash(&self, other: Mapped, now: u64, mapped: Mapped, end: u64) -> bool {
        (0..64).any(|i| {
            let ahead = Mapped {
                segment: i,
                ports: other.ports,
            };
            plus(now, self.graph.distance(other.segment, i)) < end
                && self.graph.clashes(mapped, ahead)
        })
    }

    // The segment of record x, as thread k runs it.
    fn mapped(&self, k: u64, x: u64) -> Mapped {
        Mapped {
            segment: segment_of(x),
            ports: at(self.desk, simulator::PORTS, k),
        }
    }

    // Whether thread j, at its earliest, may be in the way of another: a lower thread also in the cycle itself.
    fn threatens(&self, j: u64, earliest: u64, asked: Asked) -> bool {
        let k = asked.thread;
        if j == k || earliest == NEVER {
            return false;
        }
        let own = instant(key_of(asked.record));
        let end = if j < k { own.wrapping_add(1) } else { own };
        let other = self.mapped(j, record_at(self.desk, j));
        self.may_clash(other, earliest, self.mapped(k, asked.record), end)
    }

    // "another live thread could run, at a smaller stamp by earliest plus distance, a segment that conflicts"
    pub(crate) fn is_hazard(&self, asked: Asked) -> bool {
        (0..32)
            .zip(self.earliest())
            .any(|(j, x)| self.threatens(j, x, asked))
    }

    // One look at thread k: its record once it has heard.
    fn hear(&self, earliest: &[u64; 32], k: u64) -> Option<u64> {
        let x = record_at(self.desk, k);
        if state_of(x) != State::Waiting {
            return None;
        }
        let key = log::first_from(self.desk, event_of(x), key_of(x))?;
        if self.forecast(earliest, event_of(x)) < instant(key) {
            return None;
        }
        Some(simulator::resumed(segment_of(x), key, 0))
    }

    // The highest thread that hears, and its record then.
    pub(crate) fn first_heard(&self) -> Option<Asked> {
        let earliest = self.earliest();
        (0..32).rev().find_map(|thread| {
            let record = self.hear(&earliest, thread)?;
            Some(Asked { thread, record })
        })
    }
}
