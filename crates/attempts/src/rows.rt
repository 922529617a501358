//! What an attempt has taken of its rows.
ghost use Rattle.std.specs.Prelude.{◌≡◌, ◌<◌, ◌≤◌, ◌+◌, [], ◌∷◌, ◌++◌, length};
ghost use Rattle.attempts.specs.Taking.{lacks};

use arrayvec::ArrayVec;
use raid_base::{BayNo, Grant, RowPart};
use std::marker::Model;

/// Slots of a row in order: None where one answered that it is missing.
pub type Grants = ArrayVec<Option<Grant>, 16>;

/// What was taken of a row.
///
/// Of the wanted and of the other units those are here that were asked for so far, ascending.
#[derive(Debug, Drop)]
pub struct Row {
    part: RowPart,
    parity: Option<Grant>,
    wanted: Grants,
    others: Grants,
}

impl Model for Row {
    ghost use Rattle.attempts.specs.Taking.{Row as RowView};

    ghost Value = { RowView };

    ghost view = { λ r. record { part = r.part; parity = r.parity; wanted = r.wanted.items; others = r.others.items } };
}

impl Default for Row {
    fn default() -> Self {
        Row::new(RowPart::default())
    }
}

impl Row {
    ghost use Rattle.attempts.specs.Taking.{fresh_row, with_parity, with_wanted, with_other};

    /// A row of which nothing was asked yet.
    pub fn new(part: RowPart) -> Row
        ensures { result ≡ fresh_row part }
    {
        Row {
            part,
            parity: None,
            wanted: ArrayVec::new(),
            others: ArrayVec::new(),
        }
    }

    /// Begins a row of which nothing was asked yet, in the room of this one.
    pub fn renew(&mut self, part: RowPart)
        ensures { self.new ≡ fresh_row part }
    {
        self.part = part;
        self.parity = None;
        self.wanted.clear();
        self.others.clear();
    }

    pub fn part(&self) -> RowPart
        ensures { result ≡ self.now.part }
    {
        self.part
    }

    /// The parity's slot, where it was granted.
    pub fn parity(&self) -> Option<Grant>
        ensures { result ≡ self.now.parity }
    {
        self.parity
    }

    pub fn wanted(&self) -> &[Option<Grant>]
        ensures { result.now ≡ self.now.wanted }
    {
        self.wanted.as_slice()
    }

    pub fn others(&self) -> &[Option<Grant>]
        ensures { result.now ≡ self.now.others }
    {
        self.others.as_slice()
    }

    /// The same row.
    pub fn copied(&self) -> Row
        requires wanted { length self.now.wanted ≤ 16 }
        requires others { length self.now.others ≤ 16 }
        ensures { result ≡ self.now }
    {
        self.with_parity(self.parity)
    }

    /// The same row with this parity.
    pub fn with_parity(&self, parity: Option<Grant>) -> Row
        requires wanted { length self.now.wanted ≤ 16 }
        requires others { length self.now.others ≤ 16 }
        ensures { result ≡ with_parity parity self.now }
    {
        Row {
            part: self.part,
            parity,
            wanted: copied_grants(self.wanted()),
            others: copied_grants(self.others()),
        }
    }

    pub fn keep_parity(&mut self, grant: Option<Grant>)
        ensures { self.new ≡ with_parity grant self.old }
    {
        self.parity = grant;
    }

    pub fn keep_wanted(&mut self, grant: Option<Grant>)
        requires { length self.old.wanted < 16 }
        ensures { self.new ≡ with_wanted grant self.old }
    {
        self.wanted.push(grant);
    }

    pub fn keep_other(&mut self, grant: Option<Grant>)
        requires { length self.old.others < 16 }
        ensures { self.new ≡ with_other grant self.old }
    {
        self.others.push(grant);
    }
}

/// What was taken of the rows so far, with a row in hand, and the bay that was missing.
///
/// The rows before stand in front of the row in hand in one array, so that none is moved or made anew on the way.
#[derive(Debug, Drop)]
pub struct Taken {
    rows: [Row; 9],
    at: usize,
    missing: Option<BayNo>,
}

impl Model for Taken {
    ghost use Rattle.std.specs.Prelude.{◌≤◌, take};
    ghost use Rattle.attempts.specs.Taking.{Taken as TakenView};
    ghost use Rattle.attempts.specs.Rows.{row_at};

    ghost Value = { TakenView };

    ghost view = { λ t. record { before = take t.at t.rows; row = row_at t.rows t.at; missing = t.missing } };

    ghost invariant = { λ t. t.at ≤ 8 };
}

impl Taken {
    ghost use Rattle.attempts.specs.Taking.{no_rows, begun, row_ended, with_grant, with_parity, with_wanted, with_other};

    /// The first row in hand.
    pub fn begin(part: RowPart) -> Taken
        ensures { result ≡ begun part no_rows }
    {
        let rows = [
            Row::new(part),
            Row::default(),
            Row::default(),
            Row::default(),
            Row::default(),
            Row::default(),
            Row::default(),
            Row::default(),
            Row::default(),
        ];
        Taken {
            rows,
            at: 0,
            missing: None,
        }
    }

    /// Begins with the first row of another attempt, in the room of this one.
    pub fn renew(&mut self, part: RowPart)
        ensures { self.new ≡ begun part no_rows }
    {
        self.at = 0;
        self.missing = None;
        self.rows[0].renew(part);
    }

    /// Puts the row in hand to those before, and takes the next in hand.
    pub fn next_row(&mut self, part: RowPart)
        requires { length self.old.before < 8 }
        ensures { self.new ≡ begun part (row_ended self.old) }
    {
        self.at += 1;
        self.rows[self.at].renew(part);
    }

    pub fn missing(&self) -> Option<BayNo>
        ensures { result ≡ self.now.missing }
    {
        self.missing
    }

    pub fn row(&self) -> &Row
        ensures { result.now ≡ self.now.row }
    {
        &self.rows[self.at]
    }

    pub fn before(&self) -> &[Row]
        ensures { result.now ≡ self.now.before }
    {
        &self.rows[..self.at]
    }

    /// Keeps what a reply gave of the parity.
    pub fn keep_parity(&mut self, bay: BayNo, grant: Option<Grant>)
        ensures value { self.new ≡ with_grant with_parity self.old bay grant }
        ensures before { self.new.before ≡ self.old.before }
        ensures part { self.new.row.part ≡ self.old.row.part }
        ensures wanted { self.new.row.wanted ≡ self.old.row.wanted }
        ensures others { self.new.row.others ≡ self.old.row.others }
    {
        self.rows[self.at].keep_parity(grant);
        match grant {
            Some(_) => {}
            None => self.missing = Some(bay),
        }
    }

    /// Keeps what a reply gave of the next wanted unit.
    pub fn keep_wanted(&mut self, bay: BayNo, grant: Option<Grant>)
        requires { length self.old.row.wanted < 16 }
        ensures value { self.new ≡ with_grant with_wanted self.old bay grant }
        ensures before { self.new.before ≡ self.old.before }
        ensures part { self.new.row.part ≡ self.old.row.part }
        ensures wanted { self.new.row.wanted ≡ self.old.row.wanted ++ grant ∷ [] }
        ensures others { self.new.row.others ≡ self.old.row.others }
        ensures len { length self.new.row.wanted ≡ length self.old.row.wanted + 1 }
    {
        self.rows[self.at].keep_wanted(grant);
        match grant {
            Some(_) => {}
            None => self.missing = Some(bay),
        }
    }

    /// Keeps what a reply gave of the next of the other units.
    pub fn keep_other(&mut self, bay: BayNo, grant: Option<Grant>)
        requires { length self.old.row.others < 16 }
        ensures value { self.new ≡ with_grant with_other self.old bay grant }
        ensures before { self.new.before ≡ self.old.before }
        ensures part { self.new.row.part ≡ self.old.row.part }
        ensures wanted { self.new.row.wanted ≡ self.old.row.wanted }
        ensures others { self.new.row.others ≡ self.old.row.others ++ grant ∷ [] }
        ensures len { length self.new.row.others ≡ length self.old.row.others + 1 }
    {
        self.rows[self.at].keep_other(grant);
        match grant {
            Some(_) => {}
            None => self.missing = Some(bay),
        }
    }
}

fn copied_grants(grants: &[Option<Grant>]) -> Grants
    requires { length grants.now ≤ 16 }
    ensures { result.items ≡ grants.now }
{
    let mut copy = ArrayVec::new();
    for grant in grants {
        copy.push(*grant);
    }
    copy
}

/// Whether a slot of these was missing.
pub fn lacks(grants: &[Option<Grant>]) -> bool
    ensures { result ≡ lacks grants.now }
{
    grants.iter().any(|grant| grant.is_none())
}
