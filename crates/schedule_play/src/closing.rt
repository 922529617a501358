//! The end of a world: what it has come to is gathered, shown, and handed out.
ghost use Rattle.std.specs.Prelude.{◌≡◌, ◌++◌, ◌<◌, List, IfOk, IfErr, map};
ghost use Rattle.raid_base.specs.declared.messages.Call.{Call};
ghost use Rattle.script_text.specs.Script.{Script};

use crate::gathering::{Gathered, row_count};
use crate::results::{collect_contents, collect_results};
use crate::rows::read_rows;
use crate::world::World;
use block_store::Store;
use raid_base::{BayNo, Entry, JobResult, Turn};
use report_text::Final;

/// What a closed world hands out: all stores in order, the journals of the bays, the results and the turns.
#[derive(Drop)]
pub struct Closed<D> {
    pub stores: Vec<D>,
    pub journals: Vec<Vec<Entry>>,
    pub results: Vec<JobResult>,
    pub turns: Vec<Turn>,
}

impl<'s, D: Store> World<'s, D> {
    ghost use Rattle.schedule_play.specs.World.{AllTell, AreOver, IsReady, Shows};
    ghost use Rattle.schedule_play.specs.Making.{stores_of};
    ghost use Rattle.schedule_play.specs.Rows.{HasFailed};
    ghost use Rattle.schedule_play.specs.Gathering.{IsBlank, IsClosable, IsGathered};
    ghost use Rattle.histories.specs.Results.{results};

    /// Gathers the results, the contents, the cells and the open rows. A store that fails ends the reading, and its bay
    /// is named.
    pub fn finish(&mut self) -> Result<(), BayNo>
        requires ready { IsReady self.old }
        requires blank { IsBlank self.old.script.now self.old.gathered }
        ensures gathered { AllTell self.old.bays.items → (script : Script) (history : List Call) → Shows script history self.old → IfOk result (λ _. IsGathered script history self.new.gathered) }
        ensures results { (script : Script) (history : List Call) → Shows script history self.old → self.new.gathered.results.items ≡ results script history }
        ensures shows { (script : Script) (history : List Call) → Shows script history self.old → Shows script history self.new }
        ensures tells { AllTell self.old.bays.items → AllTell self.new.bays.items }
        ensures over { (stores : List D) → AreOver stores self.old.bays.items → AreOver stores self.new.bays.items }
        ensures failed { IfErr result (λ bay. HasFailed bay.0 self.old.bays.items self.new.bays.items) }
        ensures others { self.new.others ≡ self.old.others }
        ensures journals { self.new.gathered.journals ≡ self.old.gathered.journals }
    {
        let rows = row_count(self.script);
        collect_results(self.hosts.as_slice(), &mut self.gathered.results);
        collect_contents(self.hosts.as_slice(), &mut self.gathered.contents);
        let bays = self.bays.as_mut_slice();
        read_rows(
            bays,
            rows,
            &mut self.gathered.cells,
            &mut self.gathered.opened,
        )
    }

    /// What a report is written of. It is the world's end where `finish` was called last, and has read all.
    pub fn view(&self) -> Final<'_>
        ensures script { result.script.now ≡ self.now.script.now }
        ensures results { result.results.now ≡ self.now.gathered.results.items }
        ensures contents { result.contents.now ≡ self.now.gathered.contents.items }
        ensures turns { result.turns.now ≡ self.now.turns.items }
        ensures cells { result.cells.now ≡ self.now.gathered.cells.items }
        ensures opened { result.opened.now ≡ self.now.gathered.opened.items }
    {
        Final {
            script: self.script,
            results: self.gathered.results.as_slice(),
            contents: self.gathered.contents.as_slice(),
            turns: self.turns.as_slice(),
            cells: self.gathered.cells.as_slice(),
            opened: self.gathered.opened.as_slice(),
        }
    }

    /// Closes the bays. The stores come back in order, those beyond the devices behind those of the bays.
    pub fn close(self) -> Closed<D>
        requires { IsClosable self }
        ensures stores { result.stores.items ≡ stores_of self.entry.bays.items ++ self.entry.others.items }
        ensures journals { map (λ journal. journal.items) result.journals.items ≡ map (λ bay. bay.journal.items) self.entry.bays.items }
        ensures results { result.results ≡ self.entry.gathered.results }
        ensures turns { result.turns ≡ self.entry.turns }
    {
        let World {
            script: _,
            hosts: _,
            mut bays,
            turns,
            others: mut stores,
            gathered,
        } = self;
        let Gathered {
            results,
            contents: _,
            cells: _,
            opened: _,
            mut journals,
        } = gathered;
        stores.reverse();
        while let Some(bay) = bays.pop() {
            let (store, journal) = bay.close();
            stores.push_reserved(store);
            journals.push_reserved(journal);
        }
        stores.reverse();
        journals.reverse();
        Closed {
            stores,
            journals,
            results,
            turns,
        }
    }
}
