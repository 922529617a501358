//! Whole plays: the turns of the script, and then rounds until every host has ended.
ghost use Rattle.std.specs.Prelude.{◌≡◌, ◌<◌, ◌^◌, List, length, is_some, false};
ghost use Rattle.std.specs.List.{Contains};
ghost use Rattle.raid_base.specs.declared.messages.Call.{Call};
ghost use Rattle.script_text.specs.Script.{Script, host_numbers};
ghost use Rattle.histories.specs.Asked.{AreAsked};
ghost use Rattle.histories.specs.Bounds.{IsPlayable};
ghost use Rattle.histories.specs.History.{has_ended, progress_at};
ghost use Rattle.histories.specs.Turns.{next_host, next_moment, last_moment};
ghost use Rattle.schedule_play.specs.Plays.{unless_ended};
ghost use Rattle.schedule_play.specs.World.{HostShows};

use crate::world::World;
use block_store::Store;
use host_engine::Host;
use raid_base::{HostNo, Turn};
use script_text::Script;

/// The number of a host that has not ended.
fn waiting(host: &Host) -> Option<HostNo>
    ensures { (script : Script) (history : List Call) → IsPlayable script → AreAsked script history → HostShows script history host.now → result ≡ unless_ended (has_ended script history host.now.no) host.now.no }
{
    host.waiting()
}

/// The moment of the last turn, or 0.
fn last_moment(turns: &[Turn]) -> u64
    ensures { result ≡ last_moment turns.now }
{
    match turns {
        [] => 0,
        [.., turn] => turn.moment,
    }
}

/// The first turns of a script.
fn turns(script: &Script) -> &[Turn]
    ensures { result.now ≡ script.now.turns }
{
    script.turns.as_slice()
}

/// The moment after this one. None is beyond `2^40 - 1`.
fn next_moment(moment: u64) -> u64
    requires { moment < 2 ^ 40 }
    ensures { result ≡ next_moment moment }
{
    (moment + 1).min((1 << 40) - 1)
}

impl<'s, D: Store> World<'s, D> {
    ghost use Rattle.std.specs.Prelude.{find};
    ghost use Rattle.schedule_play.specs.World.{Shows, Turned, IsReady, AllTell, Keeps, turn_by};
    ghost use Rattle.histories.specs.Progress.{asks};
    ghost use Rattle.schedule_play.specs.Plays.{IsFound, waits, HasPlayed, Played};

    /// The first host from this number on that has not ended: its place and number.
    fn first_waiting(&self, from: u16) -> Option<(usize, HostNo)>
        requires { IsReady self.now }
        ensures { (script : Script) (history : List Call) → Shows script history self.now → IsFound self.now.hosts.items (find (waits script history from) (host_numbers script)) result }
    {
        for (place, host) in self.hosts.iter().enumerate() {
            if let Some(no) = waiting(host) {
                if from <= no.0 as u16 {
                    return Some((place, no));
                }
            }
        }
        None
    }

    /// The next host from this number on, round and round, that has not ended: its place and number.
    fn next_waiting(&self, from: u16) -> Option<(usize, HostNo)>
        requires { IsReady self.now }
        ensures { (script : Script) (history : List Call) → Shows script history self.now → IsFound self.now.hosts.items (next_host script history from) result }
    {
        match self.first_waiting(from) {
            Some(found) => Some(found),
            None => self.first_waiting(0),
        }
    }

    /// One request of this host is handled and taken. False where the host has ended, and then nothing changes.
    pub fn turn(&mut self, host: HostNo, moment: u64) -> bool
        requires ready { IsReady self.old }
        requires host { Contains (host_numbers self.old.script.now) host }
        requires moment { moment < 2 ^ 40 }
        ensures turned { (script : Script) (history : List Call) → Shows script history self.old → Turned script (turn_by host moment) history self.new }
        ensures asked { (script : Script) (history : List Call) → Shows script history self.old → result ≡ is_some (asks host (progress_at script host history) moment) }
        ensures same { result ≡ false → self.new ≡ self.old }
        ensures ready { IsReady self.new }
        ensures telling { AllTell self.old.bays.items → AllTell self.new.bays.items }
        ensures keeps { Keeps self.old self.new }
    {
        match self.first_waiting(host.0 as u16) {
            Some((place, found)) => {
                if found == host {
                    self.turn_at(place, moment)
                } else {
                    false
                }
            }
            None => false,
        }
    }

    /// A turn of the script. Where its host has ended nothing changes.
    fn take_turn(&mut self, turn: &Turn)
        requires ready { IsReady self.old }
        requires host { Contains (host_numbers self.old.script.now) turn.now.host }
        requires moment { turn.now.moment < 2 ^ 40 }
        ensures turned { (script : Script) (history : List Call) → Shows script history self.old → Turned script turn.now history self.new }
        ensures telling { AllTell self.old.bays.items → AllTell self.new.bays.items }
        ensures keeps { Keeps self.old self.new }
    {
        self.turn(turn.host, turn.moment);
    }

    /// The turns of the script, in order.
    fn play_turns(&mut self)
        requires ready { IsReady self.old }
        ensures ready { IsReady self.new }
        ensures played { (script : Script) (earlier : List Call) → Shows script earlier self.old → HasPlayed script earlier script.turns self.new }
        ensures telling { AllTell self.old.bays.items → AllTell self.new.bays.items }
        ensures keeps { Keeps self.old self.new }
    {
        for turn in turns(self.script) {
            self.take_turn(turn);
        }
    }

    /// From this moment on a turn of each host that has not ended, by rising number and round and round, until all have ended.
    fn play_rounds(&mut self, last: u64)
        requires ready { IsReady self.old }
        requires moment { last < 2 ^ 40 }
        ensures ready { IsReady self.new }
        ensures played { (script : Script) (earlier : List Call) → HasPlayed script earlier script.turns self.old → last ≡ last_moment script.turns → Played script earlier self.new }
        ensures telling { AllTell self.old.bays.items → AllTell self.new.bays.items }
        ensures keeps { Keeps self.old self.new }
    {
        let mut from = 0;
        let mut moment = last;
        while let Some((place, host)) = self.next_waiting(from) {
            moment = next_moment(moment);
            self.turn_at(place, moment);
            from = host.0 as u16 + 1;
        }
    }

    /// From any history on: the script's turns in order, then one turn after another of each host that has not ended, by rising number and round and round, until all have ended.
    pub fn play(&mut self)
        requires ready { IsReady self.old }
        ensures ready { IsReady self.new }
        ensures played { (script : Script) (earlier : List Call) → Shows script earlier self.old → Played script earlier self.new }
        ensures telling { AllTell self.old.bays.items → AllTell self.new.bays.items }
        ensures keeps { Keeps self.old self.new }
    {
        let last = last_moment(turns(self.script));
        self.play_turns();
        self.play_rounds(last);
    }
}
