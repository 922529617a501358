//! A pass, with which a host asks the bays of a rack.
ghost use Rattle.std.specs.Prelude.{◌≡◌, ◌<◌, ◌≤◌, max, true, false, slice_index};
ghost use Rattle.rack_turns.specs.Views.{first_standing, new_standing, after_call, after_gift, after_join};
ghost use Rattle.rack_turns.specs.Passes.{is_first, host_of, left_at, room_of, out_count, was_given, top_clock};

use crate::view::{Standing, View};
use atomic_table::Badge;
use raid_base::{BayNo, HostNo};

/// The first pass, or one that was given to a host. Between calls it has no bay's turn.
#[derive(Drop)]
pub struct Pass {
    pub(crate) is_first: bool,
    pub(crate) standing: Standing,
    /// The greatest clock that was answered, or 0.
    pub(crate) clock: u64,
    pub(crate) badge: Badge<View>,
}

impl Pass {
    /// Whether it is the pass that `Rack::make` gave.
    pub fn first(&self) -> bool
        ensures { result ≡ is_first self.now }
    {
        self.is_first
    }

    /// Its host.
    pub fn host(&self) -> HostNo
        ensures { result ≡ host_of self.now }
    {
        self.standing.host
    }

    /// How often the passes that it may still give may ask at each bay.
    pub fn room(&self) -> u32
        ensures { result ≡ room_of self.now }
    {
        self.standing.room
    }

    /// Whether a pass for the host was split off it.
    pub fn gave(&self, host: HostNo) -> bool
        requires { host.0 < 16 }
        ensures { result ≡ was_given self.now host }
    {
        self.standing.given[host.0 as usize]
    }

    /// How often it may still ask at the bay.
    pub fn left(&self, bay: BayNo) -> u32
        requires { bay.0 < 16 }
        ensures { result ≡ left_at self.now bay }
    {
        self.standing.left[bay.0 as usize]
    }

    /// The greatest clock that it was answered, or 0.
    pub fn clock(&self) -> u64
        ensures { result ≡ top_clock self.now }
    {
        self.clock
    }

    /// How many passes were split off it and not joined yet.
    pub fn out(&self) -> u32
        ensures { result ≡ out_count self.now }
    {
        self.standing.out
    }

    /// It was answered by this bay.
    pub(crate) fn note(&mut self, bay: BayNo, clock: u64)
        requires bay { bay.0 < 16 }
        requires left { 0 < slice_index self.old.standing.left bay.0 }
        ensures standing { self.new.standing ≡ after_call bay.0 self.old.standing }
        ensures clock { self.new.clock ≡ max self.old.clock clock }
        ensures kept { (self.new.is_first ≡ self.old.is_first) × (self.new.badge ≡ self.old.badge) }
    {
        self.standing.left[bay.0 as usize] -= 1;
        self.clock = self.clock.max(clock);
    }

    /// A pass was given to the host.
    pub(crate) fn give(&mut self, host: HostNo, quota: u32)
        requires host { host.0 < 16 }
        requires quota { quota ≤ self.old.standing.room }
        requires out { self.old.standing.out < 16 }
        ensures standing { self.new.standing ≡ after_gift host.0 quota self.old.standing }
        ensures clock { self.new.clock ≡ self.old.clock }
        ensures kept { (self.new.is_first ≡ self.old.is_first) × (self.new.badge ≡ self.old.badge) }
    {
        self.standing.room -= quota;
        self.standing.out += 1;
        self.standing.given[host.0 as usize] = true;
    }

    /// A pass was joined.
    pub(crate) fn take_back(&mut self)
        ensures standing { self.new.standing ≡ after_join self.old.standing }
        ensures clock { self.new.clock ≡ self.old.clock }
        ensures kept { (self.new.is_first ≡ self.old.is_first) × (self.new.badge ≡ self.old.badge) }
    {
        self.standing.out = self.standing.out.saturating_sub(1);
    }

    /// The first pass. It may give passes that ask so often at each bay, all together.
    pub(crate) fn first_of(room: u32, badge: Badge<View>) -> Pass
        ensures standing { result.standing ≡ first_standing room }
        ensures first { result.is_first ≡ true }
        ensures rest { (result.clock ≡ 0) × (result.badge ≡ badge) }
    {
        let left = [0u32; 16];
        let given = [false; 16];
        let standing = Standing {
            host: HostNo(0),
            left,
            room,
            out: 0,
            given,
        };
        Pass {
            is_first: true,
            standing,
            clock: 0,
            badge,
        }
    }

    /// A pass of this host that has asked nothing.
    pub(crate) fn guest(host: HostNo, quota: u32, badge: Badge<View>) -> Pass
        ensures standing { result.standing ≡ new_standing host.0 quota }
        ensures first { result.is_first ≡ false }
        ensures rest { (result.clock ≡ 0) × (result.badge ≡ badge) }
    {
        let left = [quota; 16];
        let given = [false; 16];
        let standing = Standing {
            host,
            left,
            room: 0,
            out: 0,
            given,
        };
        Pass {
            is_first: false,
            standing,
            clock: 0,
            badge,
        }
    }

    /// What it knows.
    pub(crate) fn into_badge(self) -> Badge<View>
        ensures { result ≡ self.badge }
    {
        let Pass {
            is_first: _,
            standing: _,
            clock: _,
            badge,
        } = self;
        badge
    }
}
