//! A world taken apart, so that its hosts and bays can be played elsewhere, and put together again.
ghost use Rattle.std.specs.Prelude.{◌≡◌, List};
ghost use Rattle.raid_base.specs.declared.messages.Call.{Call};
ghost use Rattle.script_text.specs.Script.{Script};

use crate::gathering::Gathered;
use crate::world::World;
use bay_device::Bay;
use block_store::Store;
use host_engine::Host;
use raid_base::Turn;

/// What a world is made of. All memory that its turns and its end need was taken when it was made.
#[derive(Drop)]
pub struct Parts<'s, D: Store> {
    /// The script that is played.
    pub script: &'s script_text::Script,
    /// Its hosts, by rising number.
    pub hosts: Vec<Host<'s>>,
    /// Its bays, in order.
    pub bays: Vec<Bay<D>>,
    /// The turns so far, with room for those of all requests that the hosts may make.
    pub turns: Vec<Turn>,
    /// The stores beyond those of the bays.
    pub others: Vec<D>,
    /// Room for what is gathered at the end.
    pub gathered: Gathered,
}

impl<'s, D: Store> World<'s, D> {
    ghost use Rattle.schedule_play.specs.World.{Shows};
    ghost use Rattle.schedule_play.specs.Parts.{PartsShow, world_of};

    /// Takes the world apart. Put together again, the parts are this world.
    pub fn into_parts(self) -> Parts<'s, D>
        ensures parts { world_of result ≡ self.entry }
        ensures shows { (script : Script) (history : List Call) → Shows script history self.entry → PartsShow script history result }
    {
        let World {
            script,
            hosts,
            bays,
            turns,
            others,
            gathered,
        } = self;
        Parts {
            script,
            hosts,
            bays,
            turns,
            others,
            gathered,
        }
    }

    /// Puts a world together. It has come to the history to which its hosts, its bays and its turns have come, whoever
    /// has played them.
    pub fn from_parts(parts: Parts<'s, D>) -> World<'s, D>
        ensures world { result ≡ world_of parts.entry }
        ensures shows { (script : Script) (history : List Call) → PartsShow script history parts.entry → Shows script history result }
    {
        let Parts {
            script,
            hosts,
            bays,
            turns,
            others,
            gathered,
        } = parts;
        World {
            script,
            hosts,
            bays,
            turns,
            others,
            gathered,
        }
    }
}
