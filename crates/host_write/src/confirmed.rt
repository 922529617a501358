//! The rows that a write has confirmed.
ghost use Rattle.std.specs.Prelude.{◌≡◌, [], ◌∷◌, ◌++◌, ◌<◌, ◌≤◌, length};
ghost use Rattle.attempts.specs.Taking.{with_parity};

use attempts::rows::Row;
use raid_base::Grant;
use std::marker::Model;

/// The rows confirmed so far, in room that is made once: rows are large, so each is copied to where it stays.
#[derive(Debug, Drop)]
pub struct Confirmed {
    rows: [Row; 8],
    len: usize,
}

impl Model for Confirmed {
    ghost use Rattle.std.specs.Prelude.{◌≤◌, List, take};
    ghost use Rattle.attempts.specs.Taking.{Row as RowView};

    ghost Value = { List RowView };

    ghost view = { λ c. take c.len c.rows };

    ghost invariant = { λ c. c.len ≤ 8 };
}

/// Makes this the same row, with this parity.
fn copy_row(room: &mut Row, row: &Row, parity: Option<Grant>)
    requires wanted { length row.now.wanted ≤ 16 }
    requires others { length row.now.others ≤ 16 }
    ensures { room.new ≡ with_parity parity row.now }
{
    room.renew(row.part());
    room.keep_parity(parity);
    for grant in row.wanted() {
        room.keep_wanted(*grant);
    }
    for grant in row.others() {
        room.keep_other(*grant);
    }
}

impl Confirmed {
    /// None is confirmed yet.
    pub fn new() -> Confirmed
        ensures { result ≡ [] }
    {
        let rows = [
            Row::default(),
            Row::default(),
            Row::default(),
            Row::default(),
            Row::default(),
            Row::default(),
            Row::default(),
            Row::default(),
        ];
        Confirmed { rows, len: 0 }
    }

    /// Begins anew with none, in the room of these.
    pub fn clear(&mut self)
        ensures { self.new ≡ [] }
    {
        self.len = 0;
    }

    pub fn len(&self) -> usize
        ensures { result ≡ length self.now }
    {
        self.as_slice().len()
    }

    pub fn as_slice(&self) -> &[Row]
        ensures { result.now ≡ self.now }
    {
        &self.rows[..self.len]
    }

    /// Adds a row, with this parity.
    pub fn push(&mut self, row: &Row, parity: Option<Grant>)
        requires room { length self.old < 8 }
        requires wanted { length row.now.wanted ≤ 16 }
        requires others { length row.now.others ≤ 16 }
        ensures { self.new ≡ self.old ++ with_parity parity row.now ∷ [] }
    {
        copy_row(&mut self.rows[self.len], row, parity);
        self.len += 1;
    }
}
