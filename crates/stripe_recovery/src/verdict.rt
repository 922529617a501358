//! What a recovery does to its row.
ghost use Rattle.std.specs.Prelude.{◌≡◌, ℕ, ◌-◌, ◌<◌, ◌≤◌, [], ◌∷◌, All, IfSome, true, length, zip};
ghost use Rattle.arrayvec.specs.ArrayVec.{array_vec_len};
ghost use Rattle.raid_base.specs.declared.messages.Note.{Note as NoteView};
ghost use Rattle.stripe_layout.specs.Placement.{parity_bay, units};
ghost use Rattle.attempts.specs.Puts.{put};
ghost use Rattle.attempts.specs.Recovery.{missing_in, is_put, is_torn_by, is_torn, seized_note, verdict, mark_lost, recovered_parity};
ghost use Rattle.stripe_recovery.specs.Verdicts.{verdict_in, is_within};

use crate::stages::Verdict;
use arrayvec::ArrayVec;
use attempts::Rescue;
use attempts::contents::push_cells;
use attempts::errands::put;
use attempts::queue::Queue;
use attempts::rows::Row;
use attempts::whole_rows::{all_units, parity_of};
use raid_base::{Cell, Grant, Note, Number};
use raid_xor::{has_unit, with_unit};
use stripe_layout::parity_bay;

/// The first of these units that is missing.
#[tactic(auto, using(crate::proofs::VerdictLemmas::missing))]
fn missing_in(units: &[u8], grants: &[Option<Grant>]) -> Option<u8>
    requires { All (λ unit. unit < 15) units.now }
    ensures value { result ≡ missing_in (zip units.now grants.now) }
    ensures within { IfSome result (λ unit. unit < 15) }
{
    for i in 0..units.len().min(grants.len()) {
        if grants[i].is_none() {
            return Some(units[i]);
        }
    }
    None
}

/// Whether a unit of the note's mask was put by the note's origin.
fn is_put_at(note: Note, unit: u8, grant: Option<Grant>) -> bool
    requires { unit < 15 }
    ensures { result ≡ is_put note ((unit, grant) ∷ []) }
{
    match grant {
        Some(grant) => has_unit(note.mask, unit) && grant.last.0 == note.origin.0,
        None => false,
    }
}

/// Whether one of these units was.
#[tactic(auto, using(crate::proofs::VerdictLemmas::puts))]
fn is_put(note: Note, units: &[u8], grants: &[Option<Grant>]) -> bool
    requires { All (λ unit. unit < 15) units.now }
    ensures { result ≡ is_put note (zip units.now grants.now) }
{
    for i in 0..units.len().min(grants.len()) {
        if is_put_at(note, units[i], grants[i]) {
            return true;
        }
    }
    false
}

/// Whether the writer whose note was seized may have put some of its units, but not the parity.
fn is_torn_by(note: Option<Note>, units: &[u8], grants: &[Option<Grant>], unit: u8) -> bool
    requires units { All (λ unit. unit < 15) units.now }
    requires unit { unit < 15 }
    ensures { result ≡ is_torn_by note (zip units.now grants.now) unit }
{
    match note {
        Some(note) => {
            note.mask != 0 && (has_unit(note.mask, unit) || is_put(note, units, grants))
        }
        None => false,
    }
}

/// The note that was seized with a slot.
fn seized_note(grant: Option<Grant>) -> Option<Note>
    ensures { result ≡ seized_note grant }
{
    match grant {
        Some(grant) => grant.seized,
        None => None,
    }
}

/// What a recovery does to its row: a row that is torn loses the unit that is missing.
pub fn verdict(job: Rescue, row: &Row) -> Verdict
    requires { 3 ≤ job.n × (job.n ≤ 16) }
    ensures value { verdict_in result ≡ verdict job row.now }
    ensures within { is_within result ≡ true }
{
    let Some(_) = row.parity() else {
        return Verdict::Leaves;
    };
    let all = all_units(job.n);
    let units = all.as_slice();
    let Some(unit) = missing_in(units, row.wanted()) else {
        return Verdict::Sums { lost: None };
    };
    if is_torn_by(seized_note(row.parity()), units, row.wanted(), unit) {
        Verdict::Sums { lost: Some(unit) }
    } else {
        Verdict::Leaves
    }
}

/// The parity with the mark of the lost unit.
fn mark_lost(cell: Cell, lost: Option<u8>) -> Cell
    requires { IfSome lost (λ unit. unit < 15) }
    ensures { result ≡ mark_lost cell lost }
{
    match lost {
        Some(unit) => {
            let bytes = cell.bytes;
            Cell {
                bytes,
                lost: with_unit(cell.lost, unit),
            }
        }
        None => cell,
    }
}

/// The parity that is put: the sum of the present cells, with the lost unit.
fn recovered_parity(row: &Row, lost: Option<u8>) -> Cell
    requires few { length row.now.wanted ≤ 16 }
    requires lost { IfSome lost (λ unit. unit < 15) }
    ensures { result ≡ recovered_parity row.now lost }
{
    let mut cells = ArrayVec::new();
    push_cells(&mut cells, row.wanted());
    mark_lost(parity_of(cells.as_slice()), lost)
}

/// The put of the parity.
pub fn put_queue(job: Rescue, row: &Row, number: Number, lost: Option<u8>) -> Queue
    requires bays { 3 ≤ job.n × (job.n ≤ 16) }
    requires few { length row.now.wanted ≤ 16 }
    requires lost { IfSome lost (λ unit. unit < 15) }
    ensures { result ≡ put job.id job.row number (recovered_parity row.now lost) (parity_bay job.n job.row) ∷ [] }
{
    let cell = recovered_parity(row, lost);
    let bay = parity_bay(job.n, job.row);
    Queue::one(put(job.id, job.row, number, cell, bay))
}
