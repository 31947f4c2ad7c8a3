// Document 02, slip 6: distances are read by rows, of N × N words or worked out when needed.
#![tactic(auto)]

ghost use Rattle.std.specs.Prelude.{◌≡◌, List, ℕ, ◌+◌, ◌*◌, ◌<◌, false, length, get_or};
ghost use Rattle.tables_row.specs.Row.{Knows};
ghost use Rattle.early_row.specs.Lent.{is_by_steps, lent_of, row_of};

// Where distances come from: N × N words, or the steps of the segments.
#[derive(Clone, Copy)]
pub enum Distances<'a> {
    Table(&'a [u64]),
    Steps(&'a [u64]),
}

impl<'a> Distances<'a> {
    // "works out one segment's row when it is needed": of steps, that of segment r in the room that is lent; of a table nothing.
    pub fn work_out(self, n: u8, r: usize, room: &mut [u64])
        ensures kept { length room.new ≡ length room.old }
        ensures table { is_by_steps self.entry ≡ false → room.new ≡ room.old }
        ensures row { (ws : List ℕ) → Knows n ws (is_by_steps self.entry) (lent_of self.entry) (length room.old) → r < n → (s : ℕ) → s < n → get_or (row_of self.entry n r room.new) s 0 ≡ get_or ws (r * n + s) 0 }
    {
        if let Distances::Steps(steps) = self {
            tables_row::fill_row(steps, n, r, room);
        }
    }

    // Where the distances from segment r to all n stand: a part of the words of a table, or the room in which they were worked out.
    pub fn part(self, n: u8, r: usize, room: &'a [u64]) -> &'a [u64]
        ensures { result.now ≡ row_of self.entry n r room.now }
    {
        match self {
            Distances::Table(words) => &words[r.saturating_mul(usize::from(n)).min(words.len())..],
            Distances::Steps(_) => room,
        }
    }

    // Both: the distances from segment r to all n.
    pub fn row(self, n: u8, r: usize, room: &'a mut [u64]) -> &'a [u64]
        ensures { (ws : List ℕ) → Knows n ws (is_by_steps self.entry) (lent_of self.entry) (length room.old) → r < n → (s : ℕ) → s < n → get_or result.now s 0 ≡ get_or ws (r * n + s) 0 }
    {
        self.work_out(n, r, room);
        self.part(n, r, room)
    }
}
