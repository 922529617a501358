//! The objects of an array.
ghost use Rattle.std.specs.Prelude.{◌≡◌, ◌↔◌, ℕ, [], ◌∷◌, ◌++◌, ◌<◌, ◌≤◌, Ok, Err, Some, None, IfOk, OnErr, IsSome, IsNone, IfSome, All, length, option_map};
ghost use Rattle.raid_base.specs.declared.numbers.RowNo.{RowNo};
ghost use Rattle.virtual_objects.specs.declared.table.ObjectFault.TheVariants.{TooMany, NameUsed, RowUsed};
ghost use Rattle.virtual_objects.specs.Objects.{rows_of};
ghost use Rattle.virtual_objects.specs.Table.{AreObjects, first_used, held, with_object, no_objects};

use crate::marks::RowMarks;
use raid_base::{Name, NoMemory, RowNo};
use std::alloc::Global;
use std::marker::Model;
use thiserror::Error;

/// The greatest number of objects.
pub const MAX_OBJECTS: usize = 64;

/// An object: its name, and the rows that hold its blocks, in order.
#[derive(Drop)]
pub struct Object {
    pub name: Name,
    pub rows: Vec<RowNo>,
}

impl Model for Object {
    ghost use Rattle.virtual_objects.specs.Objects.{Object};

    ghost Value = { Object };

    ghost view = { λ a. record { name = a.name; rows = a.rows.items } };
}

/// Why an object was not added.
#[derive(Clone, Copy, Debug, PartialEq, Eq, Error)]
pub enum ObjectFault {
    #[error("there are {MAX_OBJECTS} objects already")]
    TooMany,
    #[error("the name is used already")]
    NameUsed,
    #[error("row {} is used already", row.0)]
    RowUsed { row: RowNo },
    #[error("memory")]
    NoMemory,
}

/// The objects of an array of `n` devices, in order of adding.
///
/// Names are distinct, and each row belongs to one object at most.
#[derive(Drop)]
pub struct Objects {
    n: u8,
    rows: u16,
    objects: Vec<Object>,
    used: RowMarks,
    alloc: Global,
}

impl Model for Objects {
    ghost use Rattle.std.specs.Prelude.{◌≡◌, length};
    ghost use Rattle.virtual_objects.specs.Table.{ObjectTable, AreObjects, held};
    ghost use Rattle.virtual_objects.specs.Marks.{IsMarked};

    ghost Value = { ObjectTable };

    ghost view = { λ a. record { n = a.n; rows = a.rows; objects = a.objects.items } };

    ghost invariant = { λ a. AreObjects (record { n = a.n; rows = a.rows; objects = a.objects.items }) × IsMarked a.used (held a.objects.items) × (length a.used ≡ a.rows) };
}

/// Appends an object with these rows.
fn push_object(
    alloc: Global,
    objects: &mut Vec<Object>,
    name: Name,
    rows: &[RowNo],
) -> Result<(), NoMemory>
    ensures added { IfOk result (λ _. objects.new.items ≡ objects.old.items ++ record { name = name; rows = rows.now } ∷ []) }
    ensures same { OnErr result (objects.new.items ≡ objects.old.items) }
{
    let rows = match Vec::from_slice(alloc, rows) {
        Ok(rows) => rows,
        Err(_) => return Err(NoMemory),
    };
    match objects.push(Object { name, rows }) {
        Ok(()) => Ok(()),
        Err(_) => Err(NoMemory),
    }
}

impl Objects {
    /// No objects yet, for `n` devices of `rows` rows.
    pub fn make(alloc: Global, n: u8, rows: u16) -> Result<Objects, NoMemory>
        requires devices_least { 3 ≤ n }
        requires devices_most { n ≤ 16 }
        requires rows_least { 1 ≤ rows }
        requires rows_most { rows ≤ 4096 }
        ensures { IfOk result (λ objects. objects ≡ no_objects n rows) }
    {
        let used = RowMarks::make(alloc, rows)?;
        Ok(Objects {
            n,
            rows,
            objects: Vec::new(alloc),
            used,
            alloc,
        })
    }

    /// The number of devices.
    pub fn devices(&self) -> u8
        ensures value { result ≡ self.now.n }
        ensures objects { AreObjects self.now }
    {
        self.n
    }

    /// The number of rows.
    pub fn rows(&self) -> u16
        ensures value { result ≡ self.now.rows }
        ensures objects { AreObjects self.now }
    {
        self.rows
    }

    /// The objects in order of adding.
    pub fn as_slice(&self) -> &[Object]
        ensures value { result.now ≡ self.now.objects }
        ensures objects { AreObjects self.now }
        ensures few { All (λ object. length object.rows ≤ self.now.rows) self.now.objects }
    {
        self.objects.as_slice()
    }

    /// The rows of an object.
    pub fn rows_of(&self, name: &Name) -> Option<&[RowNo]>
        ensures value { option_map (λ rows. rows.now) result ≡ rows_of self.now.objects name.now }
        ensures few { IfSome result (λ rows. length rows.now ≤ self.now.rows) }
    {
        for object in &self.objects {
            if object.name == *name {
                return Some(object.rows.as_slice());
            }
        }
        None
    }

    /// Adds an object with these rows.
    ///
    /// Refused, with nothing changed: where there are 64 already, else where the name is used, else where a row is held
    /// or stands earlier among the rows, the first such row being told.
    pub fn add(&mut self, name: Name, rows: &[RowNo]) -> Result<(), ObjectFault>
        requires rows_some { 0 < length rows.now }
        requires rows_below { All (λ row. row.0 < self.old.rows) rows.now }
        ensures too_many { (result ≡ Err TooMany) ↔ (length self.old.objects ≡ 64) }
        ensures name_used { (result ≡ Err NameUsed) ↔ ((length self.old.objects < 64) × IsSome (rows_of self.old.objects name)) }
        ensures row_used { (row : RowNo) → (result ≡ Err (RowUsed row)) ↔ ((length self.old.objects < 64) × IsNone (rows_of self.old.objects name) × (first_used (held self.old.objects) rows.now ≡ Some row)) }
        ensures added { IfOk result (λ _. self.new ≡ with_object self.old name rows.now) }
        ensures same { OnErr result (self.new ≡ self.old) }
    {
        if self.objects.len() == MAX_OBJECTS {
            return Err(ObjectFault::TooMany);
        }
        if self.rows_of(&name).is_some() {
            return Err(ObjectFault::NameUsed);
        }
        if let Some(row) = self.used.mark(rows) {
            return Err(ObjectFault::RowUsed { row });
        }
        match push_object(self.alloc, &mut self.objects, name, rows) {
            Ok(()) => Ok(()),
            Err(NoMemory) => {
                self.used.clear(rows);
                Err(ObjectFault::NoMemory)
            }
        }
    }
}
