// Document 01, "Early issue": the ways to the events that forecasts read. Document 02, slip 6: distances are read by rows, of N × N words
// or worked out when needed.
#![tactic(auto)]

ghost use Rattle.std.specs.Prelude.{◌≡◌, List, ℕ, ◌+◌, ◌*◌, ◌≤◌, ◌<◌, length};
ghost use Rattle.model.specs.Values.{body_of};
ghost use Rattle.model.specs.Statement.{notified_by};
ghost use Rattle.tables_row.specs.Row.{Knows};
ghost use Rattle.early_row.specs.Lent.{is_by_steps, lent_of};
ghost use Rattle.early_limits.specs.Limit.{at_most};
ghost use Rattle.early_limits.specs.Ahead.{reach_in};
ghost use Rattle.early_reach.specs.Store.{Places, cleared, NotesOf, NotesBelow, row_lowered, rows_lowered};

use early_row::Distances;
use model::{Model, Op, Segment};

// Document 01: "'never' as all ones".
const NEVER: u64 = u64::MAX;

// All places never.
fn clear(reach: &mut [u64])
    requires { 2048 ≤ length reach.old }
    ensures { Places (cleared 2048) reach.old reach.new }
{
    reach[..2048].fill(NEVER);
}

// A note, segment × 32 + event, for each event that segment s lists as notifying, from a place on. How many notes there are then.
fn note_segment(g: Segment, notes: &mut [u16], s: usize, from: usize) -> usize
    requires { (s < 64) × (from + 32 ≤ length notes.old) }
    ensures { NotesOf s (notified_by (body_of g)) from notes.old 32 result notes.new }
{
    let n = usize::from(g.n).min(32);
    let mut k = from;
    for x in &g.statements[..n] {
        if let Op::Notify(e) = x.op {
            if e < 32 {
                notes[k] = s as u16 * 32 + u16::from(e);
                k += 1;
            }
        }
    }
    k
}

// Row r of the ways to the events: for each note, its event's place made the lesser of itself and the way to its segment, by the row of
// distances. A way that is never lowers nothing.
fn lower_row(notes: &[u16], row: &[u64], r: usize, reach: &mut [u64])
    requires { (r < 64) × (2048 ≤ length reach.old) }
    ensures { Places (row_lowered notes.now (length notes.now) row.now 0 r) reach.old reach.new }
{
    for note in notes {
        let x = usize::from(*note);
        let way = early_ahead::limit_of_word(buffers::word_at(row, x / 32));
        let leads = way < NEVER;
        if leads {
            let i = r * 32 + x % 32;
            reach[i] = reach[i].min(way);
        }
    }
}

// All rows of the ways to the events, one after the other, each by its own row of distances.
fn lower_all(notes: &[u16], from: Distances<'_>, room: &mut [u64], count: u8, reach: &mut [u64])
    requires { NotesBelow count notes.now (length notes.now) × (2048 ≤ length reach.old) }
    ensures kept { (length room.new ≡ length room.old) × (length reach.new ≡ length reach.old) }
    ensures lowered { (ws : List ℕ) → Knows count ws (is_by_steps from.entry) (lent_of from.entry) (length room.old) → Places (rows_lowered notes.now (length notes.now) ws count (at_most 64 count)) reach.old reach.new }
{
    for r in 0..usize::from(count).min(64) {
        from.work_out(count, r, room);
        let row = from.part(count, r, room);
        lower_row(notes, row, r, reach);
    }
}

// The way from every segment to the nearest that notifies an event: 64 rows of 32 places. A buffer that is too short stays.
pub fn fill_reach(m: Model, from: Distances<'_>, room: &mut [u64], reach: &mut [u64])
    ensures kept { length room.new ≡ length room.old }
    ensures reach { (ws : List ℕ) → Knows m.n ws (is_by_steps from.entry) (lent_of from.entry) (length room.old) → reach.new ≡ reach_in m ws reach.old }
{
    if reach.len() < 2048 {
        return;
    }
    clear(reach);
    let n = usize::from(m.n).min(64);
    let mut notes = [0u16; 2048];
    let mut k = 0;
    for (s, g) in m.segments[..n].iter().enumerate() {
        k = note_segment(*g, &mut notes, s, k);
    }
    lower_all(&notes[..k], from, room, m.n, reach);
}
