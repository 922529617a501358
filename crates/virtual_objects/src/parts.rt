//! Where blocks stand, and the parts of a job.
ghost use Rattle.std.specs.Prelude.{◌≡◌, ℕ, ◌+◌, ◌-◌, ◌*◌, ◌/◌, ◌^◌, ◌<◌, ◌≤◌, IfOk, All, length};
ghost use Rattle.std.specs.Result.{result_map_both};
ghost use Rattle.virtual_objects.specs.Objects.{parts, place, part_at, parts_in, parts_from, rows_touched};
ghost use Rattle.virtual_objects.specs.RowParts.{ArePartsOf};
ghost use Rattle.virtual_objects.specs.Places.{ArePlaces};
ghost use Rattle.virtual_objects.specs.Table.{AreObjects, ObjectTable};

use crate::table::Objects;
use arrayvec::ArrayVec;
use raid_base::{Name, PartsFault, RowNo, RowPart};

/// The parts of a job, one for each row that it touches.
pub type RowParts = ArrayVec<RowPart, 8>;

/// The greatest number of rows that a job may touch.
const MAX_PARTS: u32 = 8;

/// The units from `low` on and before `high`, as a mask.
fn units_mask(low: u32, high: u32) -> u16
    requires order { low ≤ high }
    requires most { high ≤ 15 }
    ensures { result ≡ 2 ^ high - 2 ^ low }
{
    ((1u32 << high) - (1u32 << low)) as u16
}

/// The part of a job in the row at an index of the object, `units` blocks a row. The job's blocks are those from `first`
/// and before `last`, and some of them are in this row.
fn part_at(units: u32, first: u32, last: u32, index: u32, row: RowNo) -> RowPart
    requires units { units ≤ 15 }
    requires last { last < 2 ^ 21 }
    requires index { index < 2 ^ 21 }
    requires long { last ≤ first + 120 }
    requires starts { first < index * units + units }
    requires ends { index * units < last }
    requires some { first < last }
    ensures { result ≡ part_at units first last index row }
{
    let start = index * units;
    let low = first.max(start);
    let high = last.min(start + units);
    RowPart {
        row,
        mask: units_mask(low - start, high - start),
        at: (low - first) as u8,
        count: (high - low) as u8,
    }
}

/// The parts of a job in some rows of the object, the first of them at this index.
fn parts_from(units: u32, first: u32, last: u32, index: u32, rows: &[RowNo]) -> RowParts
    requires units { units ≤ 15 }
    requires last { last < 2 ^ 21 }
    requires index { index ≤ first }
    requires long { last ≤ first + 120 }
    requires few { length rows.now ≤ 8 }
    requires starts { first < index * units + units }
    requires ends { (index + length rows.now) * units < last + units }
    requires some { first < last }
    ensures { result.items ≡ parts_from units first last index rows.now }
{
    let mut parts = RowParts::new();
    for (i, row) in rows.iter().enumerate() {
        parts.push(part_at(units, first, last, index + i as u32, *row));
    }
    parts
}

/// The parts of a job on `count` blocks from `first` on, of an object with these rows.
fn parts_in(units: u32, first: u32, count: u8, rows: &[RowNo]) -> Result<RowParts, PartsFault>
    requires units_least { 1 ≤ units }
    requires units_most { units ≤ 15 }
    requires count_least { 1 ≤ count }
    requires count_most { count ≤ 120 }
    requires first_below { first < 2 ^ 20 }
    requires rows_most { length rows.now ≤ 4096 }
    ensures { result_map_both (λ parts. parts.items) (λ fault. fault) result ≡ parts_in units first count rows.now }
{
    let blocks = rows.len() as u32 * units;
    let last = first + u32::from(count);
    if blocks < last {
        return Err(PartsFault::PastEnd { blocks });
    }
    let index = first / units;
    let touched = (last - 1) / units + 1 - index;
    if touched > MAX_PARTS {
        return Err(PartsFault::TooManyRows { rows: touched });
    }
    let start = index as usize;
    Ok(parts_from(
        units,
        first,
        last,
        index,
        &rows[start..start + touched as usize],
    ))
}

impl Objects {
    /// The parts of the job on `count` blocks from `first` on.
    pub fn parts(&self, name: &Name, first: u32, count: u8) -> Result<RowParts, PartsFault>
        requires count_least { 1 ≤ count }
        requires count_most { count ≤ 120 }
        requires first_below { first < 2 ^ 20 }
        ensures value { result_map_both (λ parts. parts.items) (λ fault. fault) result ≡ parts self.now.n self.now.objects name.now first count }
        ensures parts { IfOk result (λ parts. ArePartsOf self.now.n self.now.objects name.now first count parts.items) }
        ensures below { IfOk result (λ parts. All (λ part. part.row.0 < self.now.rows) parts.items) }
    {
        let units = u32::from(self.devices() - 1);
        match self.rows_of(name) {
            Some(rows) => parts_in(units, first, count, rows),
            None => Err(PartsFault::NoObject),
        }
    }

    /// The row and the unit where a block stands, and none where the object has no such block.
    pub fn place(&self, name: &Name, block: u32) -> Option<(RowNo, u8)>
        ensures { result ≡ place self.now.n self.now.objects (record { object = name.now; block = block }) }
    {
        let units = u32::from(self.devices() - 1);
        let rows = self.rows_of(name)?;
        let row = rows.get((block / units) as usize)?;
        Some((*row, (block % units) as u8))
    }
}

/// Each data unit of the rows that objects hold is the place of just one block.
pub fn units_are_placed()
    ensures { (table : ObjectTable) → AreObjects table → ArePlaces table }
{}

#[cfg(test)]
mod tests {
    use super::*;
    use crate::table::ObjectFault;
    use std::alloc::Global;
    use std::process::Abort;

    fn name(rt: &impl Abort, text: &[u8]) -> Name {
        Name::new(text).expect(rt, "a name")
    }

    fn rows(rt: &impl Abort, alloc: Global, numbers: &[u16]) -> Vec<RowNo> {
        let mut rows = Vec::new(alloc);
        for number in numbers {
            assert!(rt; rows.push(RowNo(*number)).is_ok());
        }
        rows
    }

    fn add(
        rt: &impl Abort,
        alloc: Global,
        objects: &mut Objects,
        text: &[u8],
        numbers: &[u16],
    ) -> Result<(), ObjectFault> {
        let rows = rows(rt, alloc, numbers);
        assert!(rt; !rows.is_empty());
        let bound = objects.rows();
        assert!(rt; rows.iter().all(|row| row.0 < bound));
        objects.add(name(rt, text), &rows)
    }

    #[test]
    fn adds_and_parts_of_five_devices(rt: HostRuntime) {
        let mut objects = Objects::make(rt.alloc(), 5, 6).expect(&rt, "memory");
        for (text, numbers, want) in [
            (b"a", [3, 0, 2], Ok(())),
            (b"a", [1, 4, 5], Err(ObjectFault::NameUsed)),
            (b"b", [1, 4, 0], Err(ObjectFault::RowUsed { row: RowNo(0) })),
            (b"b", [1, 5, 1], Err(ObjectFault::RowUsed { row: RowNo(1) })),
            (b"b", [5, 1, 4], Ok(())),
        ] {
            assert_eq!(rt; add(&rt, rt.alloc(), &mut objects, text, &numbers), want);
        }
        assert_eq!(rt; objects.place(&name(&rt, b"a"), 6), Some((RowNo(0), 2)));
        assert_eq!(rt; objects.place(&name(&rt, b"a"), 12), None);
        assert_eq!(rt; objects.place(&name(&rt, b"c"), 0), None);
        let parts = objects.parts(&name(&rt, b"a"), 3, 6).expect(&rt, "parts");
        let want = [(3, 0b1000, 0, 1), (0, 0b1111, 1, 4), (2, 0b0001, 5, 1)];
        assert_eq!(rt; parts.len(), 3);
        for (part, (row, mask, at, count)) in parts.iter().zip(want) {
            assert_eq!(rt;
                *part,
                RowPart {
                    row: RowNo(row),
                    mask,
                    at,
                    count
                }
            );
        }
    }
}
