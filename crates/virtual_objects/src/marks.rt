//! Marks on the rows that are held by objects.
ghost use Rattle.std.specs.Prelude.{◌≡◌, ℕ, ◌<◌, All, Bool, false, List, length, replicate, IfOk};
ghost use Rattle.raid_base.specs.declared.numbers.RowNo.{RowNo};
ghost use Rattle.virtual_objects.specs.Table.{numbers};
ghost use Rattle.virtual_objects.specs.Marks.{IsMarked, Marks, Cleared};

use raid_base::{NoMemory, RowNo};
use std::alloc::Global;
use std::marker::Model;

/// A mark for each row of an array. Contracts see it as the list of these.
#[derive(Drop)]
pub struct RowMarks {
    marks: Vec<bool>,
}

impl Model for RowMarks {
    ghost use Rattle.std.specs.Prelude.{Bool, List};

    ghost Value = { List Bool };

    ghost view = { λ a. a.marks.items };
}

impl RowMarks {
    /// No row is marked yet.
    pub fn make(alloc: Global, rows: u16) -> Result<RowMarks, NoMemory>
        ensures { IfOk result (λ marks. marks ≡ replicate rows false) }
    {
        match vec![in alloc; false; rows as usize] {
            Ok(marks) => Ok(RowMarks { marks }),
            Err(_) => Err(NoMemory),
        }
    }

    /// Marks some rows, up to the first that has its mark already. Then it takes its own marks back, and tells that row.
    pub fn mark(&mut self, rows: &[RowNo]) -> Option<RowNo>
        requires { All (λ row. row.0 < length self.old) rows.now }
        ensures marks { (held : List ℕ) → IsMarked self.old held → Marks held rows.now result self.new }
        ensures len { length self.new ≡ length self.old }
    {
        mark_rows(self.marks.as_mut_slice(), rows)
    }

    /// Takes the marks off some rows.
    pub fn clear(&mut self, rows: &[RowNo])
        requires { All (λ row. row.0 < length self.old) rows.now }
        ensures cleared { Cleared self.old (numbers rows.now) self.new }
        ensures len { length self.new ≡ length self.old }
    {
        clear_rows(self.marks.as_mut_slice(), rows);
    }
}

fn clear_rows(marks: &mut [bool], rows: &[RowNo])
    requires { All (λ row. row.0 < length marks.old) rows.now }
    ensures cleared { Cleared marks.old (numbers rows.now) marks.new }
    ensures len { length marks.new ≡ length marks.old }
{
    for row in rows {
        marks[row.0 as usize] = false;
    }
}

fn mark_rows(marks: &mut [bool], rows: &[RowNo]) -> Option<RowNo>
    requires { All (λ row. row.0 < length marks.old) rows.now }
    ensures marks { (held : List ℕ) → IsMarked marks.old held → Marks held rows.now result marks.new }
    ensures len { length marks.new ≡ length marks.old }
{
    for (i, row) in rows.iter().enumerate() {
        if marks[row.0 as usize] {
            clear_rows(marks, &rows[..i]);
            return Some(*row);
        }
        marks[row.0 as usize] = true;
    }
    None
}
