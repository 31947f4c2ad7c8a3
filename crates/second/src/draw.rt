// Model files from a seed. Each choice is drawn from the seed and a number of its own, so that a file is a function of its seed alone.
ghost use Rattle.std.specs.Prelude.{◌≡◌, ◌-◌, ◌%◌, ◌<◌, ◌≤◌, ◌==◌};

use crate::graph::{Graph, Mapped};
use crate::simulator::NO_PORTS;
use crate::{graph, simulator};

// Rows of eight, one of which is drawn. Ten rows for each family: horizon, V, E, N, T, the most statements of a segment,
// and, of a hundred, how many statements notify, how many closers end, how many more wait on an event; last the row of delays.
// Then three rows of delays, and two of numbers and limits. Then, for a model with ports: of a hundred names of variables, how many are
// ports, and how many ports there are.
const TABLE: [u64; 296] = [
    // general
    1, 2, 3, 5, 8, 13, 40, 1000, 0, 1, 2, 2, 3, 4, 5, 64, 0, 1, 1, 1, 2, 2, 3, 32, 1, 2, 3, 4, 5,
    6, 8, 64, 1, 2, 2, 3, 4, 5, 8, 32, 0, 1, 2, 2, 3, 4, 9, 32, 20, 30, 40, 50, 50, 60, 70, 90, 0,
    2, 4, 5, 8, 10, 15, 30, 10, 20, 30, 40, 50, 60, 70, 80, 30, 30, 30, 30, 30, 30, 31, 31,
    // times up to 2,000,000,000
    1, 2, 500000000, 500000001, 999999998, 999999999, 1000000000, 1000000000, 0, 1, 1, 2, 2, 3, 3,
    4, 0, 0, 1, 1, 1, 2, 2, 3, 1, 2, 3, 4, 4, 5, 5, 6, 1, 1, 2, 2, 3, 3, 4, 5, 1, 1, 2, 2, 2, 3, 3,
    4, 20, 30, 40, 50, 50, 60, 70, 90, 0, 0, 2, 2, 5, 5, 8, 8, 10, 10, 20, 20, 30, 30, 40, 50, 32,
    32, 32, 32, 32, 32, 32, 32,
    // to delta 1,023
    1, 1, 1, 2, 2, 3, 4, 1000000000, 2, 2, 2, 3, 3, 4, 4, 5, 2, 2, 2, 2, 2, 3, 3, 3, 3, 3, 4, 4, 5,
    5, 6, 6, 1, 2, 2, 2, 2, 2, 3, 3, 0, 1, 1, 2, 2, 2, 3, 4, 40, 50, 60, 70, 70, 80, 80, 90, 0, 0,
    5, 5, 10, 10, 20, 30, 20, 30, 40, 50, 50, 60, 60, 70, 31, 31, 31, 31, 31, 31, 31, 30,
    // delays
    0, 0, 0, 1, 1, 2, 3, 5, 0, 0, 0, 0, 0, 0, 0, 1, 0, 1, 250000000, 499999999, 500000000,
    999999998, 999999999, 1000000000,
    // numbers and limits
    0, 1, 1, 2, 3, 7, 2147483648, 4294967295, 1, 2, 3, 4, 5, 8, 20, 4294967295,
    // ports
    3, 8, 15, 30, 50, 50, 80, 100, 1, 1, 2, 2, 3, 4, 6, 8,
];

// What the parts of a model are drawn by. Statements write the first w variables. Of a hundred names of variables so many are ports, of
// so many ports from one of the eight on.
#[derive(Drop)]
struct Shape {
    v: u64,
    w: u64,
    e: u64,
    n: u64,
    t: u64,
    most: u64,
    notify: u64,
    ends: u64,
    events: u64,
    delays: u64,
    named: u64,
    ports: u64,
    port: u64,
}

// Operation, a and b.
#[derive(Drop)]
struct Statement {
    op: u64,
    a: u64,
    b: u64,
}

// A segment ends, waits so many units, or waits on an event.
#[derive(Clone, Copy)]
enum Wait {
    End,
    Units(u64),
    Event(u64),
}

// The closer's next segments, test variable and limit.
#[derive(Drop)]
struct Next {
    a: u64,
    b: u64,
    test: u64,
    limit: u64,
}

// A file that is being written, and the place behind what stands in it.
#[derive(Drop)]
struct Writer<'a> {
    file: &'a mut [u8; 16384],
    at: u64,
}

// A number from 0 to 2,147,483,646, one for each seed and place.
pub fn mixed(seed: u64, place: u64) -> u64
    ensures { result < 2147483647 }
{
    let x = (seed % 2147483647) * 48271 + (place % 65536) * 69621 + 12345;
    let y = (x % 2147483647) * 16807 + 1;
    ((y % 2147483647) * 48271) % 2147483647
}

// One of the numbers below n, by seed and place; 0 where n is 0.
pub fn pick(seed: u64, place: u64, n: u64) -> u64
    ensures { result ≤ n - 1 }
{
    if n == 0 {
        0
    } else {
        mixed(seed, place) / 16 % n
    }
}

// One number of a row.
fn choice(seed: u64, row: u64) -> u64 {
    TABLE[((row % 37) * 8 + mixed(seed, row) / 16 % 8) as usize]
}

// A number as statements have it.
pub(crate) fn drawn_number(seed: u64) -> u64 {
    choice(seed, 33)
}

// So many bytes of a number, lowest first, at a place of the file, as far as there is room; the place behind them.
pub fn put(file: &mut [u8; 16384], i: u64, size: u64, x: u64) -> u64
    ensures { result ≤ 16384 }
{
    let from = i % 16385;
    let end = from + size.min(16384 - from);
    let mut rest = x;
    for byte in &mut file[from as usize..end as usize] {
        *byte = (rest % 256) as u8;
        rest /= 256;
    }
    end
}

// A statement that notifies an event.
fn notify(event: u64) -> Statement {
    Statement {
        op: 6,
        a: event,
        b: 0,
    }
}

// One next segment, whatever the variables.
fn always(a: u64) -> Next {
    Next {
        a,
        b: a,
        test: 255,
        limit: 0,
    }
}

impl Writer<'_> {
    // So many bytes of a number.
    fn put(&mut self, size: u64, x: u64)
        ensures { self.new.at ≤ 16384 }
    {
        self.at = put(self.file, self.at, size, x);
    }

    // The length and kind of a record.
    fn put_head(&mut self, size: u64, kind: u64)
        ensures { self.new.at ≤ 16384 }
    {
        self.put(2, size);
        self.put(2, kind);
    }

    fn put_statement(&mut self, x: Statement) {
        self.put(1, x.op);
        self.put(1, x.a);
        self.put(4, x.b);
    }

    // The closer's kind, event and delay.
    fn put_wait(&mut self, wait: Wait) {
        let (kind, event, units) = match wait {
            Wait::End => (0, 0, 0),
            Wait::Units(units) => (1, 0, units),
            Wait::Event(event) => (2, event, 0),
        };
        self.put(1, kind);
        self.put(1, event);
        self.put(4, units);
    }

    fn put_next(&mut self, next: Next) {
        self.put(1, next.a);
        self.put(1, next.b);
        self.put(1, next.test);
        self.put(4, next.limit);
    }

    // A segment's length, kind and closer; nothing is next where it ends.
    fn put_closer(&mut self, statements: u64, wait: Wait, next: Next) {
        self.put_head(17 + 6 * (statements % 256), 2);
        self.put_wait(wait);
        match wait {
            Wait::End => self.put(7, 0),
            Wait::Units(_) | Wait::Event(_) => self.put_next(next),
        }
    }

    fn put_segment(&mut self, seed: u64, shape: &Shape) {
        let n = pick(seed, 52, shape.most.wrapping_add(1));
        self.put_closer(n, shape.drawn_wait(seed), shape.drawn_next(seed));
        for j in 0..n {
            self.put_statement(shape.drawn_statement(mixed(seed, j)));
        }
    }

    // Segments 0 and 1 of a run to delta 1,023: in each delta one counts in variable w and notifies event 0, by zero waits or woken
    // by event 1, and goes on to segment 2 at a count near 1,023; the other is woken by event 0 and notifies event 1.
    fn put_counters(&mut self, seed: u64, w: u64) {
        let wait = if pick(seed, 53, 2) == 0 {
            Wait::Units(0)
        } else {
            Wait::Event(1)
        };
        let limit = pick(seed, 54, 10).wrapping_add(1017);
        self.put_closer(
            2,
            wait,
            Next {
                a: 0,
                b: 2,
                test: w,
                limit,
            },
        );
        self.put_statement(Statement { op: 2, a: w, b: 1 });
        self.put_statement(notify(0));
        self.put_closer(1, Wait::Event(0), always(1));
        self.put_statement(notify(1));
    }

    // The segments from one on.
    fn put_segments(&mut self, first: u64, seed: u64, shape: &Shape) {
        for j in first..shape.n {
            self.put_segment(mixed(seed, j.wrapping_add(100)), shape);
        }
    }

    // A thread that starts at a segment, and its ports.
    fn put_thread(&mut self, first: u64, ports: u64) {
        self.put_head(5, 3);
        self.put(1, first);
        if ports != NO_PORTS {
            self.put_head(12, 5);
            self.put(8, ports);
        }
    }

    // Threads with their ports, and the end.
    fn put_threads(&mut self, seed: u64, shape: &Shape)
        ensures { self.new.at ≤ 16384 }
    {
        let mut words = [0u64; 24576];
        self.fill_names(shape.n, &mut words);
        let graph = Graph::new(&words);
        for k in 0..shape.t {
            let first = shape.first_of(seed, k);
            let ports = shape.drawn_ports(&graph, mixed(seed, k.wrapping_add(500)), first);
            self.put_thread(first, ports);
        }
        self.put_head(4, 4);
    }

    // What each of n segments names, by those that stand in the file, with an end behind them.
    fn fill_names(&mut self, n: u64, words: &mut [u64; 24576]) {
        put(self.file, self.at, 4, 262148);
        let mut desk = [0u64; 640];
        simulator::survey(self.file, &mut desk);
        graph::fill_uses(self.file, &desk, words, n);
    }

    // All segments.
    fn put_body(&mut self, seed: u64, shape: &Shape) {
        if is_long(seed) {
            self.put_counters(seed, shape.w);
            self.put_segments(2, seed, shape);
        } else {
            self.put_segments(0, seed, shape);
        }
    }
}

// A third of the models have ports, of each family.
fn has_ports(seed: u64) -> bool {
    seed.wrapping_add(seed / 24) % 3 == 0
}

impl Shape {
    fn of(seed: u64, row: u64) -> Shape {
        let v = choice(seed, row.wrapping_add(1));
        // A model with ports has one variable or more.
        let v = if has_ports(seed) { v.max(1) } else { v };
        Shape {
            v,
            w: v,
            e: choice(seed, row.wrapping_add(2)),
            n: choice(seed, row.wrapping_add(3)),
            t: choice(seed, row.wrapping_add(4)),
            most: choice(seed, row.wrapping_add(5)),
            notify: choice(seed, row.wrapping_add(6)),
            ends: choice(seed, row.wrapping_add(7)),
            events: choice(seed, row.wrapping_add(8)),
            delays: choice(seed, row.wrapping_add(9)),
            named: if has_ports(seed) { choice(seed, 35) } else { 0 },
            ports: choice(seed, 36),
            port: pick(seed, 56, 8),
        }
    }

    // Without events none is notified or waited on; without variables all statements notify, or there are none. In a run to delta 1,023
    // the last variable is its counter's.
    fn fit(&mut self, seed: u64) {
        if is_long(seed) {
            self.w = self.v.saturating_sub(1);
        }
        if self.v == 0 {
            self.notify = 100;
        }
        if self.e == 0 {
            self.notify = 0;
            self.events = 0;
            if self.v == 0 {
                self.most = 0;
            }
        }
    }

    // One of the first n variables, or a port.
    fn drawn_name(&self, seed: u64, place: u64, n: u64) -> u64 {
        if pick(seed, place.wrapping_add(30), 100) < self.named {
            let p = pick(seed, place.wrapping_add(40), self.ports);
            return 128 + self.port.wrapping_add(p) % 8;
        }
        pick(seed, place, n)
    }

    fn drawn_statement(&self, seed: u64) -> Statement {
        if pick(seed, 41, 100) < self.notify {
            return notify(pick(seed, 42, self.e));
        }
        let op = pick(seed, 43, 5).wrapping_add(1);
        Statement {
            op,
            a: self.drawn_name(seed, 44, self.w),
            b: if op < 3 {
                choice(seed, 33)
            } else {
                self.drawn_name(seed, 45, self.v)
            },
        }
    }

    fn drawn_wait(&self, seed: u64) -> Wait {
        let way = pick(seed, 46, 100);
        if way < self.ends {
            Wait::End
        } else if way < self.ends.wrapping_add(self.events) {
            Wait::Event(pick(seed, 47, self.e))
        } else {
            Wait::Units(choice(seed, self.delays))
        }
    }

    fn drawn_next(&self, seed: u64) -> Next {
        let a = pick(seed, 48, self.n);
        if self.v == 0 || pick(seed, 49, 2) == 0 {
            return always(a);
        }
        Next {
            a,
            b: pick(seed, 50, self.n),
            test: self.drawn_name(seed, 51, self.v),
            limit: choice(seed, 34),
        }
    }

    // The first segment of thread k: any, or, in a run to delta 1,023, one of its own.
    fn first_of(&self, seed: u64, k: u64) -> u64 {
        if 0 < self.t && is_long(seed) {
            return k.wrapping_add(pick(seed, 55, 2)) % self.t;
        }
        pick(seed, k.wrapping_add(200), self.n)
    }

    // The variable of port p in a thread that starts at segment s: one of the first w if a way from there names it, and for some others too.
    fn drawn_port(&self, graph: &Graph, seed: u64, s: u64, p: u64) -> u8 {
        if graph.is_needed(s, p) || pick(seed, p.wrapping_add(20), 6) == 0 {
            (pick(seed, p.wrapping_add(30), self.w) % 256) as u8
        } else {
            simulator::UNUSED as u8
        }
    }

    // The ports of a thread that starts at segment s in one word. Without a need for any, every second thread has none.
    fn drawn_ports(&self, graph: &Graph, seed: u64, s: u64) -> u64 {
        let unused = Mapped {
            segment: s,
            ports: NO_PORTS,
        };
        if self.named == 0 || !graph.lacks(unused) && pick(seed, 40, 2) == 0 {
            return NO_PORTS;
        }
        let mut ports = [0u8; 8];
        for (p, port) in ports.iter_mut().enumerate() {
            *port = self.drawn_port(graph, seed, s, p as u64);
        }
        u64::from_le_bytes(ports)
    }
}

// Whether a seed's runs go on to delta 1,023.
pub fn is_long(seed: u64) -> bool
    ensures { result ≡ (seed % 24 == 23) }
{
    seed % 24 == 23
}

// Of 24 seeds 21 are general, two have large times, one is long: the first row of each.
fn family(seed: u64) -> u64 {
    match seed % 24 {
        23 => 20,
        21 | 22 => 10,
        _ => 0,
    }
}

// The model of a seed in the file's first bytes; how many.
pub fn model_of(seed: u64, file: &mut [u8; 16384]) -> u64
    ensures { result ≤ 16384 }
{
    let row = family(seed);
    let mut shape = Shape::of(seed, row);
    shape.fit(seed);
    let mut writer = Writer { file, at: 0 };
    writer.put_head(10, 1);
    writer.put(4, choice(seed, row));
    writer.put(1, shape.v);
    writer.put(1, shape.e);
    writer.put_body(seed, &shape);
    writer.put_threads(seed, &shape);
    writer.at
}
