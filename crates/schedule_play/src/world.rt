//! Bays and hosts, stepped one request at a time.
//!
//! A turn takes the request in hand of one host, has its bay handle it, and hands the answer back to the host.
//! Nothing else happens in between, so each turn adds one call to the history. The world shows that history: each
//! bay is what the rule makes of its calls, and each host stands where its calls have led.
//!
//! The opening is in `making`, turns and rounds are in `playing`, and what is gathered at the end in `closing`. The
//! top call makes a world, plays it, reads it, prints what it shows, and closes it.
ghost use Rattle.std.specs.Prelude.{◌≡◌, ◌<◌, ◌^◌, List, slice_index_or, length, is_some, true, false};
ghost use Rattle.raid_base.specs.declared.messages.Call.{Call};
ghost use Rattle.script_text.specs.Script.{Script};

use crate::gathering::Gathered;
use bay_device::Bay;
use block_store::Store;
use host_engine::Host;
use raid_base::Turn;

/// All bays and hosts of a script, and the turns so far.
///
/// The stores that were given beyond those of the bays stay as they were. What is gathered at the end has its room from
/// the beginning.
#[derive(Drop)]
pub struct World<'s, D: Store> {
    pub script: &'s script_text::Script,
    pub hosts: Vec<Host<'s>>,
    pub bays: Vec<Bay<D>>,
    pub turns: Vec<Turn>,
    pub others: Vec<D>,
    pub gathered: Gathered,
}

impl<'s, D: Store> World<'s, D> {
    ghost use Rattle.schedule_play.specs.World.{Shows, Turned, IsReady, AllTell, Keeps, turn_of};
    ghost use Rattle.histories.specs.Progress.{asks};
    ghost use Rattle.histories.specs.History.{progress_at};
    ghost use Rattle.host_engine.specs.declared.host.Host.{Host as HostView};

    /// One request of the host at this place is handled and taken. False where the host has ended, and then nothing changes.
    pub fn turn_at(&mut self, place: usize, moment: u64) -> bool
        requires place { place < length self.old.hosts.items }
        requires moment { moment < 2 ^ 40 }
        requires ready { IsReady self.old }
        ensures turned { (host : HostView) → host ≡ slice_index_or self.old.hosts.items place host → (script : Script) (history : List Call) → Shows script history self.old → Turned script (turn_of host moment) history self.new }
        ensures asked { (host : HostView) → host ≡ slice_index_or self.old.hosts.items place host → (script : Script) (history : List Call) → Shows script history self.old → result ≡ is_some (asks host.no (progress_at script host.no history) moment) }
        ensures tells { AllTell self.new.bays.items → AllTell self.old.bays.items }
        ensures telling { AllTell self.old.bays.items → AllTell self.new.bays.items }
        ensures keeps { Keeps self.old self.new }
        ensures same { result ≡ false → self.new ≡ self.old }
    {
        let host = &self.hosts[place];
        let (bay, ask) = match host.next(moment) {
            Some(sent) => sent,
            None => return false,
        };
        let device = &mut self.bays[bay.0 as usize];
        let answer = device.handle(&ask);
        let host = &mut self.hosts[place];
        host.heard(moment, bay, &ask, &answer);
        self.turns.push_reserved(Turn {
            host: ask.host,
            moment,
        });
        true
    }
}
