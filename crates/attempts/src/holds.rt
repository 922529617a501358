//! What an attempt holds of its rows, and how it gives that back.
ghost use Rattle.std.specs.Prelude.{◌≡◌, ◌-◌, ◌<◌, All, ◌++◌, ◌+◌, ◌*◌, ◌≤◌, None, Some, length, flat_map};
ghost use Rattle.arrayvec.specs.ArrayVec.{array_vec_len};
ghost use Rattle.stripe_layout.specs.Placement.{bays_of};
ghost use Rattle.attempts.specs.Taking.{Row as RowView};
ghost use Rattle.attempts.specs.Releases.{releases, wanted_granted, others_granted, parity_granted, all_granted, claims_granted, read_holds, write_holds};
ghost use Rattle.attempts.specs.Reading.{row_readers};
ghost use Rattle.attempts.specs.Batches.{with_releases};

use crate::errands::push_releases;
use crate::queue::Releases;
use crate::rows::Row;
use crate::units::{Bays, Units, ascending, granted_of, units_in, units_out};
use arrayvec::ArrayVec;
use raid_base::{Grant, Mode, Number, RowNo};
use stripe_layout::{bay_of, parity_bay};

/// Adds the bays of these units.
fn push_bays(bays: &mut Bays, n: u8, row: RowNo, units: &[u8])
    requires few { 3 ≤ n × (n ≤ 16) }
    requires room { array_vec_len bays.old + length units.now ≤ 32 }
    requires within { All (λ unit. unit < n - 1) units.now }
    ensures items { bays.new.items ≡ bays.old.items ++ bays_of n row units.now }
    ensures len { array_vec_len bays.new ≡ array_vec_len bays.old + length units.now }
{
    for unit in units {
        bays.push(bay_of(n, row, *unit));
    }
}

/// The bays of these units.
pub fn bays_of(n: u8, row: RowNo, units: &[u8]) -> Bays
    requires few { 3 ≤ n × (n ≤ 16) }
    requires room { length units.now ≤ 16 }
    requires within { All (λ unit. unit < n - 1) units.now }
    ensures value { result.items ≡ bays_of n row units.now }
    ensures len { array_vec_len result ≡ length units.now }
{
    let mut bays = ArrayVec::new();
    push_bays(&mut bays, n, row, units);
    bays
}

/// Adds the bay of the parity, where it was granted.
fn push_parity(bays: &mut Bays, n: u8, row: RowNo, parity: Option<Grant>)
    requires few { 3 ≤ n × (n ≤ 16) }
    requires room { array_vec_len bays.old + 1 ≤ 32 }
    ensures items { bays.new.items ≡ bays.old.items ++ parity_granted n row parity }
    ensures len { array_vec_len bays.new ≤ array_vec_len bays.old + 1 }
{
    match parity {
        Some(_) => bays.push(parity_bay(n, row)),
        None => {}
    }
}

/// The wanted units of a row that were granted.
pub fn wanted_granted(n: u8, row: &Row) -> Units
    requires { 3 ≤ n × (n ≤ 16) }
    ensures value { result.items ≡ wanted_granted n row.now }
    ensures within { All (λ unit. unit < n - 1) result.items }
    ensures few { array_vec_len result ≤ 15 }
{
    let units = units_in(n, row.part().mask);
    granted_of(units.as_slice(), row.wanted())
}

/// The other units of a row that were granted.
fn others_granted(n: u8, row: &Row) -> Units
    requires { 3 ≤ n × (n ≤ 16) }
    ensures value { result.items ≡ others_granted n row.now }
    ensures within { All (λ unit. unit < n - 1) result.items }
    ensures few { array_vec_len result ≤ 15 }
{
    let units = units_out(n, row.part().mask);
    granted_of(units.as_slice(), row.others())
}

/// A row's slots that were granted, the data ascending and then the parity.
pub fn all_granted(n: u8, row: &Row) -> Bays
    requires { 3 ≤ n × (n ≤ 16) }
    ensures value { result.items ≡ all_granted n row.now }
    ensures few { array_vec_len result ≤ 16 }
{
    let wanted = wanted_granted(n, row);
    let others = others_granted(n, row);
    let units = ascending(n, wanted.as_slice(), others.as_slice());
    let mut bays = bays_of(n, row.part().row, units.as_slice());
    push_parity(&mut bays, n, row.part().row, row.parity());
    bays
}

/// A row's claims that were granted, the data ascending and then the parity.
pub fn claims_granted(n: u8, row: &Row) -> Bays
    requires { 3 ≤ n × (n ≤ 16) }
    ensures value { result.items ≡ claims_granted n row.now }
    ensures few { array_vec_len result ≤ 16 }
{
    let wanted = wanted_granted(n, row);
    let mut bays = bays_of(n, row.part().row, wanted.as_slice());
    push_parity(&mut bays, n, row.part().row, row.parity());
    bays
}

/// The readers of a row in the order granted.
pub fn row_readers(n: u8, row: &Row) -> Bays
    requires { 3 ≤ n × (n ≤ 16) }
    ensures value { result.items ≡ row_readers n row.now }
    ensures few { array_vec_len result ≤ 31 }
{
    let wanted = wanted_granted(n, row);
    let others = others_granted(n, row);
    let mut bays = bays_of(n, row.part().row, wanted.as_slice());
    push_parity(&mut bays, n, row.part().row, row.parity());
    push_bays(&mut bays, n, row.part().row, others.as_slice());
    bays
}

/// What a read holds of a row: under stamps nothing.
pub fn read_holds(mode: Mode, n: u8, row: &Row) -> Bays
    requires { 3 ≤ n × (n ≤ 16) }
    ensures value { result.items ≡ read_holds mode n row.now }
    ensures few { array_vec_len result ≤ 16 }
{
    match mode {
        Mode::Lock => all_granted(n, row),
        Mode::Order => ArrayVec::new(),
    }
}

/// What a write holds of a row: its claims, and under locks its readers.
pub fn write_holds(mode: Mode, n: u8, row: &Row) -> Bays
    requires { 3 ≤ n × (n ≤ 16) }
    ensures value { result.items ≡ write_holds mode n row.now }
    ensures few { array_vec_len result ≤ 16 }
{
    match mode {
        Mode::Lock => all_granted(n, row),
        Mode::Order => claims_granted(n, row),
    }
}

/// Adds the releases of what a read holds of a row.
pub fn push_read_row(releases: &mut Releases, mode: Mode, n: u8, row: &Row)
    requires few { 3 ≤ n × (n ≤ 16) }
    requires room { length releases.old.errands ≤ 240 }
    ensures value { releases.new ≡ with_releases releases.old row.now.part.row (read_holds mode n row.now) }
    ensures len { length releases.new.errands ≤ length releases.old.errands + 16 }
{
    let bays = read_holds(mode, n, row);
    push_releases(releases, row.part().row, bays.as_slice());
}

/// The releases of what a read holds of some rows.
pub fn read_releases(mode: Mode, n: u8, id: Number, rows: &[Row]) -> Releases
    requires few { 3 ≤ n × (n ≤ 16) }
    requires rows { length rows.now ≤ 8 }
    ensures value { result ≡ record { id = id; number = None; errands = flat_map (λ (row : RowView). releases id row.part.row None (read_holds mode n row)) rows.now } }
    ensures few { length result.errands ≤ 16 * length rows.now }
{
    let mut releases = Releases::new(id, None);
    for row in rows {
        push_read_row(&mut releases, mode, n, row);
    }
    releases
}

/// Adds the releases of a row's readers.
fn push_readers(releases: &mut Releases, n: u8, row: &Row)
    requires few { 3 ≤ n × (n ≤ 16) }
    requires room { length releases.old.errands ≤ 225 }
    ensures value { releases.new ≡ with_releases releases.old row.now.part.row (row_readers n row.now) }
    ensures len { length releases.new.errands ≤ length releases.old.errands + 31 }
{
    let bays = row_readers(n, row);
    push_releases(releases, row.part().row, bays.as_slice());
}

/// The releases of the readers of some rows, with the number of the read.
pub fn numbered_releases(n: u8, id: Number, number: Number, rows: &[Row]) -> Releases
    requires few { 3 ≤ n × (n ≤ 16) }
    requires rows { length rows.now ≤ 8 }
    ensures value { result ≡ record { id = id; number = Some number; errands = flat_map (λ (row : RowView). releases id row.part.row (Some number) (row_readers n row)) rows.now } }
    ensures few { length result.errands ≤ 31 * length rows.now }
{
    let mut releases = Releases::new(id, Some(number));
    for row in rows {
        push_readers(&mut releases, n, row);
    }
    releases
}

/// Adds the releases of what a write holds of a row.
pub fn push_write_row(releases: &mut Releases, mode: Mode, n: u8, row: &Row)
    requires few { 3 ≤ n × (n ≤ 16) }
    requires room { length releases.old.errands ≤ 240 }
    ensures value { releases.new ≡ with_releases releases.old row.now.part.row (write_holds mode n row.now) }
    ensures len { length releases.new.errands ≤ length releases.old.errands + 16 }
{
    let bays = write_holds(mode, n, row);
    push_releases(releases, row.part().row, bays.as_slice());
}

/// The releases of what a write holds of some rows.
pub fn write_releases(mode: Mode, n: u8, id: Number, rows: &[Row]) -> Releases
    requires few { 3 ≤ n × (n ≤ 16) }
    requires rows { length rows.now ≤ 8 }
    ensures value { result ≡ record { id = id; number = None; errands = flat_map (λ (row : RowView). releases id row.part.row None (write_holds mode n row)) rows.now } }
    ensures few { length result.errands ≤ 16 * length rows.now }
{
    let mut releases = Releases::new(id, None);
    for row in rows {
        push_write_row(&mut releases, mode, n, row);
    }
    releases
}

/// Adds the releases of a row's readers of other units than it wants.
fn push_other_readers(releases: &mut Releases, n: u8, row: &Row)
    requires few { 3 ≤ n × (n ≤ 16) }
    requires room { length releases.old.errands ≤ 240 }
    ensures value { releases.new ≡ with_releases releases.old row.now.part.row (bays_of n row.now.part.row (others_granted n row.now)) }
    ensures len { length releases.new.errands ≤ length releases.old.errands + 16 }
{
    let others = others_granted(n, row);
    let bays = bays_of(n, row.part().row, others.as_slice());
    push_releases(releases, row.part().row, bays.as_slice());
}

/// The releases of the readers of some rows, without a number: a write has readers of other units than it wants.
pub fn reader_releases(n: u8, id: Number, rows: &[Row]) -> Releases
    requires few { 3 ≤ n × (n ≤ 16) }
    requires rows { length rows.now ≤ 8 }
    ensures value { result ≡ record { id = id; number = None; errands = flat_map (λ (row : RowView). releases id row.part.row None (bays_of n row.part.row (others_granted n row))) rows.now } }
    ensures few { length result.errands ≤ 16 * length rows.now }
{
    let mut releases = Releases::new(id, None);
    for row in rows {
        push_other_readers(&mut releases, n, row);
    }
    releases
}
