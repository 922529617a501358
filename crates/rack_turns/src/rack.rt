//! The bays that threads share: made, asked through passes, and closed.
//!
//! `make` brings the bays in and gives the first pass. `split` gives each host a pass of its own, with its quota. With it
//! the host asks: `try_ask` once, `ask` until the bay is free. A turn takes the bay out, lets it answer, and gives it back;
//! other bays go on meanwhile. `join` takes a pass back, and `close` gives the bays once all are back.
//!
//! The journal of each bay then has for each host just what that host's pass asked there. The workers of `host_workers`
//! are who calls this. What may happen between any two steps is the rule in `rule.rt`.
ghost use Rattle.std.specs.Prelude.{◌≡◌, ◌<◌, ◌≤◌, ◌*◌, ◌^◌, ◌-◌, [], IfOk, IfErr, IsTrue, false, length, vec_len};
ghost use Rattle.std.specs.Vec.{vec_capacity};
ghost use Rattle.std.specs.Mem.Slots.{slots_items, slots_len, IsFull};
ghost use Rattle.rack_turns.specs.Shadows.{shadows};
ghost use Rattle.rack_turns.specs.Views.{total, cap_of, least_cap};

use crate::pass::Pass;
use crate::rule::Turns;
use crate::seats::{cut_for, glue};
use crate::turn::{Gate, turn};
use crate::view::View;
use atomic_table::{Badge, Closed, Refused, Table};
use bay_device::Bay;
use block_store::Store;
use raid_base::{Answer, Ask, BayNo, HostNo};
use std::alloc::Global;
use std::mem::replace;
use std::snapshot::Snapshot;
use std::sync::{Mutex, Wait};
use std::thread;

/// How many bays a rack has at most.
const MOST: usize = 16;

/// Why a rack wasn't made. The bays come back.
#[derive(Drop)]
pub enum RackFault<D: Store> {
    NoMemory(Vec<Bay<D>>),
}

/// What a try came to: the bay's answer, or the host whose turn it was.
#[derive(Clone, Copy, Debug, PartialEq, Eq)]
pub enum Try {
    Answer(Answer),
    Engaged { holder: HostNo },
}

/// An empty list with room for each bay.
#[derive(Drop)]
struct Spare<D: Store> {
    list: Vec<Bay<D>>,
    ghost blank: { list.items ≡ [] },
    ghost roomy: { 16 ≤ vec_capacity list },
}

/// Up to 16 bays. Threads share it by reference.
#[derive(Drop)]
pub struct Rack<D: Store> {
    table: Table<Bay<D>, View, Snapshot<Vec<Bay<D>>>, Turns, Global>,
    /// For `close`. It lies in a lock, so that the rack may be shared where a store may only be sent.
    spare: Mutex<Spare<D>>,
    pub ghost words: { table.shared.table_id.words ≡ vec_len table.shared.key.value },
    pub ghost slots: { table.shared.table_id.slots ≡ vec_len table.shared.key.value },
    pub ghost some: { 1 ≤ vec_len table.shared.key.value },
    pub ghost few: { vec_len table.shared.key.value ≤ 16 },
    pub ghost caps: { total cap_of (shadows table.shared.key.value.items) < 2 ^ 62 },
}

/// The least cap of the bays.
fn least_cap<D: Store>(bays: &[Bay<D>]) -> u32
    ensures least { result ≡ least_cap (shadows bays.now) }
    ensures bound { total cap_of (shadows bays.now) ≤ length bays.now * (2 ^ 32 - 1) }
{
    let mut least = u32::MAX;
    let mut k = bays.len();
    while k > 0 {
        k -= 1;
        let cap = bays[k].cap;
        least = least.min(cap);
    }
    least
}

/// The bays of a table, in order.
fn take_all<D: Store>(mut closed: Closed<Bay<D>, Global>, mut list: Vec<Bay<D>>) -> Vec<Bay<D>>
    requires full { IsFull closed.slots }
    requires list { (list.items ≡ []) × (slots_len closed.slots ≤ vec_capacity list) }
    ensures { result.items ≡ slots_items closed.slots }
{
    let mut i = 0;
    while i < closed.slot_count() {
        list.push_reserved(closed.take(i));
        i += 1;
    }
    closed.free();
    list
}

impl<D: Store> Rack<D> {
    ghost use Rattle.rack_turns.specs.Passes.{is_first, host_of, left_at, room_of, out_count, was_given, top_clock};
    ghost use Rattle.rack_turns.specs.Passes.{seen, openings_of, caps_of, bays_back, IsPassOf, IsNewFirst, AreNew};
    ghost use Rattle.rack_turns.specs.Passes.{HasGiven, IsNewGuest, HasJoined, IsAskAt, IsTried, HasAskedAt, IsAnswerTo};
    ghost use Rattle.rack_turns.specs.Closing.{AreClosed, WereThere};

    /// Brings in up to 16 bays that were asked nothing yet, and gives the first pass.
    pub fn make(alloc: Global, bays: Vec<Bay<D>>) -> Result<(Rack<D>, Pass), RackFault<D>>
        requires some { 1 ≤ vec_len bays }
        requires few { vec_len bays ≤ 16 }
        requires new { AreNew (shadows bays.items) }
        ensures bays { IfOk result (λ made. openings_of made.0 ≡ shadows bays.items) }
        ensures pass { IfOk result (λ made. IsPassOf made.0 made.1) }
        ensures first { IfOk result (λ made. IsNewFirst (shadows bays.items) made.1) }
        ensures refused { IfErr result (λ fault. bays_back fault ≡ bays.items) }
    {
        let room = least_cap(bays.as_slice());
        let count = bays.len();
        let list = match Vec::with_capacity(alloc, MOST) {
            Ok(list) => list,
            Err(_) => return Err(RackFault::NoMemory(bays)),
        };
        let about = Snapshot::of(&bays);
        let words = [0u64; MOST];
        match Table::new(alloc, &words[..count], bays, &about) {
            Ok((table, seat)) => {
                let spare = Mutex::new(Spare { list });
                Ok((
                    Rack { table, spare },
                    Pass::first_of(room, seat.into_badge()),
                ))
            }
            Err(Refused { slots }) => Err(RackFault::NoMemory(slots)),
        }
    }

    /// Gives a pass to a host that was given none yet. It may ask so often at each bay.
    pub fn split(&self, pass: &mut Pass, host: HostNo, quota: u32) -> Pass
        requires pass { IsPassOf self.now pass.old }
        requires first { IsTrue (is_first pass.old) }
        requires host { host.0 < 16 }
        requires quota { quota ≤ room_of pass.old }
        requires new { was_given pass.old host ≡ false }
        ensures pass { IsPassOf self.now pass.new × HasGiven host.0 quota pass.old pass.new }
        ensures guest { IsPassOf self.now result × IsNewGuest host.0 quota pass.old result }
    {
        let mut sitter = replace(&mut pass.badge, Badge::blank()).into_seat();
        let guest = cut_for(&self.table.shared, &mut sitter, host, quota);
        pass.badge = sitter.into_badge();
        pass.give(host, quota);
        Pass::guest(host, quota, guest.into_badge())
    }

    /// Asks a bay, where no other host has its turn.
    ///
    /// The bay handles the ask in one turn, and its entry is added to what was asked with the pass. Or else the host that
    /// was found to have the turn is added to the pass's meetings, and nothing else changes.
    pub fn try_ask<G: Gate>(&self, pass: &mut Pass, bay: BayNo, ask: &Ask, gate: &G) -> Try
        requires pass { IsPassOf self.now pass.old }
        requires bay { bay.0 < length (openings_of self.now) }
        requires host { ask.now.host ≡ host_of pass.old }
        requires left { 1 ≤ left_at pass.old bay }
        requires clock { ask.now.clock ≤ top_clock pass.old }
        requires ask { IsAskAt (openings_of self.now) bay.0 ask.now }
        ensures pass { IsPassOf self.now pass.new }
        ensures tried { IsTried (caps_of self.now) bay.0 ask.now pass.old pass.new result }
    {
        let mut sitter = replace(&mut pass.badge, Badge::blank()).into_seat();
        let tried = turn(&self.table.shared, &mut sitter, bay, ask, gate);
        pass.badge = sitter.into_badge();
        if let Try::Answer(answer) = tried {
            pass.note(bay, answer.clock);
        }
        tried
    }

    /// Asks a bay until it answers. The pass's meetings grow by the hosts alone that were found to have the turn.
    pub fn ask<G: Gate, R: Wait>(
        &self,
        rt: &R,
        pass: &mut Pass,
        bay: BayNo,
        ask: &Ask,
        gate: &G,
    ) -> Answer
        requires pass { IsPassOf self.now pass.old }
        requires bay { bay.0 < length (openings_of self.now) }
        requires host { ask.now.host ≡ host_of pass.old }
        requires left { 1 ≤ left_at pass.old bay }
        requires clock { ask.now.clock ≤ top_clock pass.old }
        requires ask { IsAskAt (openings_of self.now) bay.0 ask.now }
        ensures pass { IsPassOf self.now pass.new }
        ensures asked { HasAskedAt bay.0 ask.now result pass.old pass.new }
        ensures answer { IsAnswerTo (caps_of self.now) ask.now result }
    {
        for _ in rt.forever() {
            match self.try_ask(pass, bay, ask, gate) {
                Try::Answer(answer) => return answer,
                Try::Engaged { .. } => thread::yield_now(),
            }
        }
        unreachable!()
    }

    /// Takes a pass back. What was asked with it is kept, and whom it met.
    pub fn join(&self, pass: &mut Pass, other: Pass)
        requires pass { IsPassOf self.now pass.old }
        requires first { IsTrue (is_first pass.old) }
        requires other { IsPassOf self.now other }
        requires guest { is_first other ≡ false }
        ensures pass { IsPassOf self.now pass.new }
        ensures joined { HasJoined other pass.old pass.new }
    {
        let badge = other.into_badge();
        let mut sitter = replace(&mut pass.badge, Badge::blank()).into_seat();
        glue(&self.table.shared, &mut sitter, badge.into_seat());
        pass.badge = sitter.into_badge();
        pass.take_back();
    }

    /// The bays in order, once all passes were joined. The journal of each has for each host what was asked there with
    /// that host's pass, in order. A host that was met at a bay has an entry there.
    pub fn close(self, pass: Pass) -> Vec<Bay<D>>
        requires pass { IsPassOf self pass }
        requires first { IsTrue (is_first pass) }
        requires out { out_count pass ≡ 0 }
        ensures bays { AreClosed (openings_of self) (seen pass).ended (shadows result.items) }
        ensures met { WereThere (seen pass).meetings (shadows result.items) }
    {
        let Rack { table, spare } = self;
        let Spare { list } = spare.into_inner();
        let badge = pass.into_badge();
        let closed = table.close_with(badge.into_seat());
        take_all(closed, list)
    }
}
