// The second scheduler's tables, from the bytes of an accepted model file: what each segment uses and notifies, the ports that a way
// from it names, the steps of the segment graph, and distances by a search from each segment. All stand in one array, as rows of 64 words.
// An instant is time × 1,048,576 + delta, its delta never cut. A distance is one too.
ghost use Rattle.std.specs.Prelude.{◌≡◌, ◌≤◌, ◌<◌};
ghost use Rattle.second.specs.Desk.{word_at};

use crate::number::at;
use crate::simulator;
use crate::simulator::NEVER;

const UNIT: u64 = 1048576;

// 1,000,000,001 units.
const FAR: u64 = 1048576001048576;

// What a row of 64 words tells.
#[derive(Clone, Copy)]
enum Row {
    // The distance from a segment to each.
    Distances(u64),
    // 1 where a segment conflicts by variables named directly.
    Conflicts(u64),
    // What a segment does with each variable that it names directly.
    Uses(u64),
    // 1 where a segment notifies the event.
    Notified(u64),
    // From a segment, for each event the least distance to one that notifies it.
    Ahead(u64),
    // The first next segment of each.
    FirstNext,
    // The other next segment of each.
    OtherNext,
    // The step from each to its next segments.
    Steps,
    // What each segment does with a port.
    ByPort(u64),
    // 1 where a segment or one that it leads to names a port.
    Needs(u64),
}

impl Row {
    // Where its first word stands.
    fn start(self) -> usize
        ensures { result ≤ 24512 }
    {
        let row = match self {
            Row::Distances(s) => s % 64,
            Row::Conflicts(s) => 64 + s % 64,
            Row::Uses(s) => 128 + s % 64,
            Row::Notified(s) => 192 + s % 64,
            Row::Ahead(s) => 256 + s % 64,
            Row::FirstNext => 320,
            Row::OtherNext => 321,
            Row::Steps => 322,
            Row::ByPort(p) => 323 + p % 8,
            Row::Needs(p) => 331 + p % 8,
        };
        (row * 64) as usize
    }
}

// What a segment does with a variable or port that it names, as a word; one that it writes stays so. Reading counts 1, writing 2: two
// accesses of a variable are more than 2 where at least one writes.
#[derive(Clone, Copy)]
enum Access {
    Read = 1,
    Write = 2,
}

// The tables as they are read.
#[derive(Clone, Copy)]
pub(crate) struct Graph<'a> {
    words: &'a [u64; 24576],
}

// A segment as a thread with these ports runs it.
#[derive(Clone, Copy)]
pub(crate) struct Mapped {
    pub(crate) segment: u64,
    pub(crate) ports: u64,
}

fn place(x: u64) -> usize
    ensures { result < 64 }
{
    (x % 64) as usize
}

fn set(words: &mut [u64; 24576], row: Row, s: u64, x: u64) {
    words[row.start() + place(s)] = x;
}

// A greater number in a row.
fn raise(words: &mut [u64; 24576], row: Row, s: u64, x: u64) {
    let i = row.start() + place(s);
    words[i] = words[i].max(x);
}

// A row of 64 words.
fn set_row(words: &mut [u64; 24576], row: Row, from: &[u64; 64]) {
    let i = row.start();
    words[i..i + 64].copy_from_slice(from);
}

// The instant of a key.
pub(crate) fn instant(key: u64) -> u64 {
    key / 1024 % 4294967296 * UNIT + key % 1024
}

// "a distance is added as the clock says, but the delta of a sum is not cut at 1,023"
pub(crate) fn plus(a: u64, d: u64) -> u64 {
    if a == NEVER || d == NEVER {
        return NEVER;
    }
    if d < UNIT {
        return a.wrapping_add(d);
    }
    (a / UNIT * UNIT).wrapping_add(d)
}

// A smaller distance to segment s; whether it is one.
fn lower(distances: &mut [u64; 64], s: u64, x: u64) -> bool {
    let is_shorter = x < distances[place(s)];
    if is_shorter {
        distances[place(s)] = x;
    }
    is_shorter
}

// "A step over a time wait counts as the clock says; over an event wait it is one delta." None from a segment that ends.
fn step_over(file: &[u8], closer: u64) -> u64 {
    if simulator::byte(file, closer, 0) == 0 {
        return NEVER;
    }
    let units = simulator::field(file, closer, 2, 4);
    if units == 0 {
        return 1;
    }
    units % 4294967296 * UNIT
}

// A variable or port that segment s names.
fn see(words: &mut [u64; 24576], s: u64, name: u64, access: Access) {
    if simulator::is_port(name) {
        raise(words, Row::ByPort(name), s, access as u64);
        raise(words, Row::Needs(name), s, 1);
    } else {
        raise(words, Row::Uses(s), name, access as u64);
    }
}

// What the statement at a place of the file uses or notifies.
fn scan_statement(file: &[u8], words: &mut [u64; 24576], s: u64, i: u64) {
    let op = simulator::byte(file, i, 0);
    let a = simulator::byte(file, i, 1);
    if op == 6 {
        set(words, Row::Notified(s), a, 1);
        return;
    }
    see(words, s, a, Access::Write);
    if 2 < op {
        see(words, s, simulator::byte(file, i, 2), Access::Read);
    }
}

// What the closer of a segment tests, and its steps. "The test variable counts as read."
fn scan_closer(file: &[u8], words: &mut [u64; 24576], s: u64, closer: u64) {
    let step = step_over(file, closer);
    set(words, Row::Steps, s, step);
    set(words, Row::FirstNext, s, simulator::byte(file, closer, 6));
    set(words, Row::OtherNext, s, simulator::byte(file, closer, 7));
    let test = simulator::byte(file, closer, 8);
    if step != NEVER && test < 255 {
        see(words, s, test, Access::Read);
    }
}

fn scan(file: &[u8], words: &mut [u64; 24576], s: u64, closer: u64) {
    scan_closer(file, words, s, closer);
    for j in 0..simulator::statements(file, closer) {
        scan_statement(file, words, s, simulator::statement_at(closer, j));
    }
}

impl<'a> Graph<'a> {
    pub(crate) fn new(words: &'a [u64; 24576]) -> Graph<'a> {
        Graph { words }
    }

    fn entry(&self, row: Row, s: u64) -> u64 {
        self.words[row.start() + place(s)]
    }

    pub(crate) fn notifies(&self, s: u64, event: u64) -> bool {
        self.entry(Row::Notified(s), event) != 0
    }

    pub(crate) fn distance(&self, r: u64, s: u64) -> u64 {
        self.entry(Row::Distances(r), s)
    }

    // The least distance from s to a segment that notifies the event.
    pub(crate) fn ahead(&self, s: u64, event: u64) -> u64 {
        self.entry(Row::Ahead(s), event)
    }

    // The steps from s, on a way with these distances; whether one is shorter. "'Never' begins above 1,000,000,000 units".
    fn relax(&self, distances: &mut [u64; 64], s: u64) -> bool {
        let x = plus(distances[place(s)], self.entry(Row::Steps, s));
        if FAR <= x {
            return false;
        }
        let first = lower(distances, self.entry(Row::FirstNext, s), x);
        lower(distances, self.entry(Row::OtherNext, s), x) || first
    }

    fn relax_all(&self, distances: &mut [u64; 64], n: u64) -> bool {
        let mut shorter = false;
        for s in 0..n {
            shorter = self.relax(distances, s) || shorter;
        }
        shorter
    }

    // The distances from r, by the steps of n segments.
    fn search(&self, r: u64, n: u64) -> [u64; 64] {
        let mut distances = [NEVER; 64];
        distances[place(r)] = 0;
        for _ in 0..64 {
            if !self.relax_all(&mut distances, n) {
                break;
            }
        }
        distances
    }

    // "two segments that both access a variable which at least one writes"; of any word the last two bits count.
    fn is_conflict(&self, r: u64, s: u64) -> bool {
        (0..64).any(|v| 2 < self.entry(Row::Uses(r), v) % 4 + self.entry(Row::Uses(s), v) % 4)
    }

    // The events that s notifies, at a distance.
    fn see_events(&self, s: u64, distance: u64, ahead: &mut [u64; 64]) {
        for (event, known) in ahead[..32].iter_mut().enumerate() {
            if self.notifies(s, event as u64) {
                *known = distance.min(*known);
            }
        }
    }

    // The least distance to each event, by those to n segments.
    fn look_ahead(&self, distances: &[u64; 64], n: u64) -> [u64; 64] {
        let mut ahead = [NEVER; 64];
        for s in 0..n {
            self.see_events(s, distances[place(s)], &mut ahead);
        }
        ahead
    }

    // Whether a way from segment s names port p.
    pub(crate) fn is_needed(&self, s: u64, p: u64) -> bool {
        self.entry(Row::Needs(p), s) != 0
    }

    // Whether a way from a segment names a port that its thread leaves unused.
    pub(crate) fn lacks(&self, mapped: Mapped) -> bool {
        (0..8).any(|p| {
            self.is_needed(mapped.segment, p)
                && simulator::port(mapped.ports, p) == simulator::UNUSED
        })
    }

    // What a segment does with variable v, after mapping.
    fn access(&self, mapped: Mapped, v: u64) -> u64 {
        let mut most = self.entry(Row::Uses(mapped.segment), v);
        for p in 0..8 {
            if simulator::port(mapped.ports, p) == v {
                most = most.max(self.entry(Row::ByPort(p), mapped.segment));
            }
        }
        most
    }

    // Whether a segment names through port p a variable that it and another, each with its thread's ports, both access and one writes.
    fn meets_by(&self, mapped: Mapped, p: u64, other: Mapped) -> bool {
        let v = simulator::port(mapped.ports, p);
        v != simulator::UNUSED
            && self.entry(Row::ByPort(p), mapped.segment) != 0
            && 2 < self.access(mapped, v).wrapping_add(self.access(other, v))
    }

    // "a conflict through a port", one that the first segment names.
    fn meets(&self, mapped: Mapped, other: Mapped) -> bool {
        mapped.ports != simulator::NO_PORTS && (0..8).any(|p| self.meets_by(mapped, p, other))
    }

    // "a hazard goes by them or by a conflict through a port": segments of two threads.
    pub(crate) fn clashes(&self, mapped: Mapped, other: Mapped) -> bool {
        self.entry(Row::Conflicts(mapped.segment), other.segment) != 0
            || self.meets(mapped, other)
            || self.meets(other, mapped)
    }
}

// What is seen of each segment from r.
fn look_around(words: &mut [u64; 24576], r: u64, n: u64) {
    let distances = Graph::new(words).search(r, n);
    set_row(words, Row::Distances(r), &distances);
    let ahead = Graph::new(words).look_ahead(&distances, n);
    set_row(words, Row::Ahead(r), &ahead);
    for s in 0..n {
        let is_conflict = Graph::new(words).is_conflict(r, s);
        set(words, Row::Conflicts(r), s, u64::from(is_conflict));
    }
}

// The ports that a next segment of s leads to; whether one is new.
fn pass_on(words: &mut [u64; 24576], s: u64, next: u64) -> bool {
    let mut found = false;
    for p in 0..8 {
        let graph = Graph::new(words);
        if graph.entry(Row::Needs(p), s) < graph.entry(Row::Needs(p), next) {
            set(words, Row::Needs(p), s, 1);
            found = true;
        }
    }
    found
}

fn pass_all_on(words: &mut [u64; 24576], n: u64) -> bool {
    let mut found = false;
    for s in 0..n {
        let graph = Graph::new(words);
        let first = graph.entry(Row::FirstNext, s);
        let other = graph.entry(Row::OtherNext, s);
        if graph.entry(Row::Steps, s) != NEVER {
            found = pass_on(words, s, first) || found;
            found = pass_on(words, s, other) || found;
        }
    }
    found
}

// What each segment uses and notifies, the steps, and the ports that a way from it names, whatever the distances.
pub(crate) fn fill_uses(file: &[u8], desk: &[u64; 640], words: &mut [u64; 24576], n: u64) {
    for s in 0..n {
        scan(file, words, s, at(desk, simulator::CLOSERS, s));
    }
    for _ in 0..64 {
        if !pass_all_on(words, n) {
            break;
        }
    }
}

// The tables of an accepted file, with its places on the desk; how many segments it has.
pub fn fill(file: &[u8], desk: &[u64; 640], words: &mut [u64; 24576]) -> u64
    ensures { result ≡ word_at desk.now 98 0 }
{
    let n = at(desk, simulator::SEGMENTS, 0);
    fill_uses(file, desk, words, n);
    for r in 0..n {
        look_around(words, r, n);
    }
    n
}
