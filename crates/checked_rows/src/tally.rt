//! How many rows of a table came out.

/// Rows that were compared, and how many of them came out as they should.
#[derive(Drop)]
pub struct Tally {
    pub rows: u32,
    pub right: u32,
}

impl Tally {
    /// No row was compared yet.
    pub fn new() -> Tally {
        Tally { rows: 0, right: 0 }
    }

    /// One row more.
    pub fn row(&mut self, came_out: bool) {
        self.rows = self.rows.saturating_add(1);
        if came_out {
            self.right = self.right.saturating_add(1);
        }
    }
}
