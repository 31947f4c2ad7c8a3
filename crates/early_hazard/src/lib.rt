// Document 01, "Early issue": hazard on limits. Document 02, slip 6: distances are read by rows, of N × N words or worked out when needed.
#![tactic(auto)]

ghost use Rattle.std.specs.Prelude.{◌≡◌, List, ℕ, ◌*◌, ◌<◌, length, get_or};
ghost use Rattle.base.specs.Index.{any_below};
ghost use Rattle.tables_row.specs.Row.{Knows};
ghost use Rattle.early_row.specs.Lent.{is_by_steps, lent_of};
ghost use Rattle.early_limits.specs.Limit.{at_most};
ghost use Rattle.early_limits.specs.Ahead.{threatens_limit, hazard_at};
ghost use Rattle.early_ports.specs.Cross.{conflicts_on};
ghost use Rattle.early_hazard.specs.Store.{conflicts_by, threat_at};

use clock::Stamp;
use early_limits::Limits;
use early_ports::Footprint;
use early_row::Distances;
use model::Start;

// Thread i that asks, at limit c: the marks of its segment, its footprint in it, and the names that segments use.
#[derive(Drop)]
struct Asker<'a> {
    marked: [bool; 64],
    own: Footprint,
    names: &'a [u64],
    i: usize,
    c: u64,
}

// Whether the asker conflicts in segment s with a thread of these ports: by its marks, or through a port.
fn conflicts_at(asker: &Asker<'_>, ports: [u8; 8], s: usize) -> bool
    requires { s < 64 }
    ensures { result ≡ conflicts_by asker.now.marked asker.now.own asker.now.names.now ports s }
{
    asker.marked[s]
        || asker.own.uses != 0
            && {
                let other = early_ports::footprint_of(asker.names, ports, s);
                early_ports::crosses(asker.own, other)
            }
}

// Whether thread j, no sooner than b, could run a segment that conflicts before the asker, by its row of distances.
fn row_threatens(
    asker: &Asker<'_>,
    ports: [u8; 8],
    row: &[u64],
    count: u8,
    b: u64,
    j: usize,
) -> bool
    ensures { result ≡ threatens_limit (conflicts_by asker.now.marked asker.now.own asker.now.names.now ports) row.now count 0 b j asker.now.c asker.now.i }
{
    for s in 0..usize::from(count).min(64) {
        if conflicts_at(asker, ports, s) {
            let way = early_ahead::limit_of_word(buffers::word_at(row, s));
            if early_ahead::is_sooner_limit(early_ahead::sum_of(b, way), j, asker.c, asker.i) {
                return true;
            }
        }
    }
    false
}

// The same of a thread in segment q, by the distances that are lent. A sum is no sooner than b: where b is not sooner, no row is asked for.
fn threatens(
    asker: &Asker<'_>,
    ports: [u8; 8],
    from: Distances<'_>,
    room: &mut [u64],
    count: u8,
    q: usize,
    b: u64,
    j: usize,
) -> bool
    requires { q < 256 }
    ensures kept { length room.new ≡ length room.old }
    ensures threatens { (ws : List ℕ) → Knows count ws (is_by_steps from.entry) (lent_of from.entry) (length room.old) → q < count → result ≡ threatens_limit (conflicts_by asker.now.marked asker.now.own asker.now.names.now ports) ws count (q * count) b j asker.now.c asker.now.i }
{
    if !early_ahead::is_sooner_limit(b, j, asker.c, asker.i) {
        return false;
    }
    from.work_out(count, q, room);
    let row = from.part(count, q, room);
    row_threatens(asker, ports, row, count, b, j)
}

// The segment of thread k; 0 past the threads.
fn segment_of(segments: [u8; 32], k: usize) -> usize
    ensures { (result ≡ get_or segments k 0) × (result < 256) }
{
    if k < 32 { usize::from(segments[k]) } else { 0 }
}

// Document 01: "another live thread could run, at a smaller stamp by earliest plus distance, a segment that conflicts".
fn any_threatens(
    asker: &Asker<'_>,
    starts: [Start; 32],
    from: Distances<'_>,
    room: &mut [u64],
    n: u8,
    t: u8,
    segments: [u8; 32],
    xs: Limits,
) -> bool
    ensures kept { length room.new ≡ length room.old }
    ensures threatens { (ws : List ℕ) → Knows n ws (is_by_steps from.entry) (lent_of from.entry) (length room.old) → ((j : ℕ) → j < t → get_or segments j 0 < n) → result ≡ any_below (at_most 32 t) (threat_at asker.now.marked asker.now.own asker.now.names.now starts ws n segments xs.at asker.now.i asker.now.c) }
{
    for j in 0..usize::from(t).min(32) {
        if j != asker.i {
            let q = segment_of(segments, j);
            let ports = early_ports::ports_of(starts, j);
            if threatens(asker, ports, from, room, n, q, xs.at[j], j) {
                return true;
            }
        }
    }
    false
}

// Term: hazard; the marks are handed on by value. Document 02: it "goes by them or by a conflict through a port".
pub fn hazard(
    marks: [[bool; 64]; 64],
    names: &[u64],
    starts: [Start; 32],
    from: Distances<'_>,
    room: &mut [u64],
    n: u8,
    t: u8,
    segments: [u8; 32],
    xs: Limits,
    at: Stamp,
) -> bool
    ensures kept { length room.new ≡ length room.old }
    ensures hazard { (ws : List ℕ) → Knows n ws (is_by_steps from.entry) (lent_of from.entry) (length room.old) → ((j : ℕ) → j < t → get_or segments j 0 < n) → result ≡ hazard_at (conflicts_on marks names.now starts) ws n t segments xs.at at }
{
    let i = usize::from(at.thread.0);
    let r = segment_of(segments, i);
    if r >= 64 {
        return false;
    }
    let asker = Asker {
        marked: marks[r],
        own: early_ports::footprint_of(names, early_ports::ports_of(starts, i), r),
        names,
        i,
        c: early_ahead::limit_of(at.cycle),
    };
    any_threatens(&asker, starts, from, room, n, t, segments, xs)
}
