//! What the puts of a write have made, and how the write ends by them.
ghost use Rattle.std.specs.Prelude.{◌≡◌, ℕ, List, [], ◌∷◌, ◌++◌, ◌+◌, ◌-◌, ◌^◌, ◌<◌, ◌≤◌, Option, length, map, zip, All, fold, bit_or};
ghost use Rattle.arrayvec.specs.ArrayVec.{array_vec_len};
ghost use Rattle.stripe_layout.specs.Placement.{units_in};
ghost use Rattle.attempts.specs.Releases.{is_among};
ghost use Rattle.attempts.specs.Puts.{missing_units, flags, trouble_cause, first_cause};
ghost use Rattle.host_write.specs.Blocks.{IsOfJob, are_made, places_of};

use crate::blocks::block_no;
use crate::troubles::Trouble;
use arrayvec::ArrayVec;
use attempts::assignment::Assignment;
use attempts::units::{Units, units_in};
use raid_base::{BayNo, Cause, Ended, Grant, Number, RowPart};
use std::marker::Model;

/// Places of blocks of the job, in the order made.
pub type Made = ArrayVec<u8, 400>;

/// What the puts have made so far: the blocks, whether one was answered, the units of the row in hand that are left to
/// the parity, and the puts that did not go well.
#[derive(Debug, Drop)]
pub struct Puts {
    made: Made,
    answered: bool,
    left: Units,
    troubles: ArrayVec<Trouble, 128>,
}

impl Model for Puts {
    ghost use Rattle.std.specs.Prelude.{◌<◌, All};
    ghost use Rattle.attempts.specs.Puts.{Puts as PutsView};

    ghost Value = { PutsView };

    ghost view = { λ p. record {
      made = p.made.items;
      answered = p.answered;
      left = p.left.items;
      troubles = p.troubles.items;
    } };

    ghost invariant = { λ p. All (λ block. block < 128) p.made.items };
}

/// Adds the places of the blocks of these units.
fn push_blocks(made: &mut Made, n: u8, part: RowPart, units: &[u8])
    requires few { 3 ≤ n × (n ≤ 16) }
    requires at { part.at + length (units_in n part.mask) < 128 }
    requires room { array_vec_len made.old + length units.now ≤ 400 }
    requires below { All (λ block. block < 128) made.old.items }
    ensures items { made.new.items ≡ made.old.items ++ places_of n part units.now }
    ensures below { All (λ block. block < 128) made.new.items }
{
    for unit in units {
        made.push(block_no(n, part, *unit) as u8);
    }
}

impl Puts {
    ghost use Rattle.attempts.specs.Puts.{no_puts, at_row, with_made, with_trouble, with_left, Robbed, part_by_quit, written};
    ghost use Rattle.host_write.specs.Troubles.{trouble_in};

    /// Nothing was put yet.
    pub fn new() -> Puts
        ensures { result ≡ no_puts }
    {
        Puts {
            made: ArrayVec::new(),
            answered: false,
            left: ArrayVec::new(),
            troubles: ArrayVec::new(),
        }
    }

    /// Begins anew with nothing put, in the room of these.
    pub fn clear(&mut self)
        ensures { self.new ≡ no_puts }
    {
        self.made.clear();
        self.answered = false;
        self.left.clear();
        self.troubles.clear();
    }

    /// Begins with the next row.
    pub fn at_row(&mut self)
        ensures { self.new ≡ at_row self.old }
    {
        self.left.clear();
    }

    /// The units that are left to the parity.
    pub fn left(&self) -> &[u8]
        ensures { result.now ≡ self.now.left }
    {
        self.left.as_slice()
    }

    /// The blocks of these units are made.
    pub fn make(&mut self, n: u8, part: RowPart, units: &[u8])
        requires few { 3 ≤ n × (n ≤ 16) }
        requires at { part.at + length (units_in n part.mask) < 128 }
        requires room { length self.old.made + length units.now ≤ 400 }
        ensures { self.new ≡ with_made self.old (places_of n part units.now) }
    {
        self.answered = true;
        push_blocks(&mut self.made, n, part, units);
    }

    /// A put did not go well.
    pub fn trouble(&mut self, fault: Option<BayNo>, part: RowPart)
        requires { length self.old.troubles < 128 }
        ensures { self.new ≡ with_trouble self.old (trouble_in fault part) }
    {
        self.answered = true;
        self.troubles.push(Trouble::new(fault, part));
    }

    /// The note of a unit was gone with its device: the unit is left to the parity.
    pub fn leave(&mut self, part: RowPart, unit: u8)
        requires left { length self.old.left < 16 }
        requires troubles { length self.old.troubles < 128 }
        ensures { self.new ≡ with_left self.old part unit }
    {
        self.answered = true;
        self.left.push(unit);
        self.troubles.push(Trouble::new(None, part));
    }

    /// How the write ends once all is put.
    pub fn written(&self, job: &Assignment, number: Number) -> Ended
        ensures { IsOfJob job.now result (λ a. written a number self.now) }
    {
        match first_cause(job, self.made.as_slice(), self.troubles.as_slice()) {
            Some(cause) => Ended::Part {
                number,
                made: flags(self.made.as_slice()),
                cause,
            },
            None => Ended::Wrote { number },
        }
    }

    /// How the write ends where the host stops now: once a put was answered it is a part.
    pub fn part_by_quit(&self, number: Number) -> Ended
        ensures { result ≡ part_by_quit number self.now }
    {
        if self.answered {
            Ended::Part {
                number,
                made: flags(self.made.as_slice()),
                cause: Cause::Quit,
            }
        } else {
            Ended::Refused(Cause::Quit)
        }
    }
}

fn is_among(made: &[u8], block: usize) -> bool
    ensures { result ≡ is_among made.now block }
{
    made.iter().any(|place| *place as usize == block)
}

/// Whether all blocks of a part are made.
#[tactic(auto, using(crate::proofs::PutLemmas::made))]
fn is_row_made(n: u8, made: &[u8], part: RowPart) -> bool
    requires { 3 ≤ n × (n ≤ 16) }
    ensures { result ≡ are_made n made.now part }
{
    let units = units_in(n, part.mask);
    for i in 0..units.len() {
        if !is_among(made, block_no(n, part, units[i])) {
            return false;
        }
    }
    true
}

/// The cause of a write that was done in part, by one trouble: a failed store always, and a note that was gone where its
/// row is not made.
fn trouble_cause(job: &Assignment, made: &[u8], trouble: &Trouble) -> Option<Cause>
    ensures { IsOfJob job.now result (λ a. trouble_cause a made.now trouble.now) }
{
    let (fault, part) = trouble.told();
    match fault {
        Some(bay) => Some(Cause::Fault { bay }),
        None => {
            if is_row_made(job.n, made, part) {
                None
            } else {
                Some(Cause::Seized { row: part.row })
            }
        }
    }
}

/// The cause by the first trouble that counts.
fn first_cause(job: &Assignment, made: &[u8], troubles: &[Trouble]) -> Option<Cause>
    ensures { IsOfJob job.now result (λ a. first_cause a made.now troubles.now) }
{
    for trouble in troubles {
        if let Some(cause) = trouble_cause(job, made, trouble) {
            return Some(cause);
        }
    }
    None
}

/// Bit i for block i.
pub fn flags(made: &[u8]) -> u128
    requires { All (λ block. block < 128) made.now }
    ensures { result ≡ flags made.now }
{
    let mut flags = 0;
    for block in made {
        flags |= 1u128 << *block;
    }
    flags
}
