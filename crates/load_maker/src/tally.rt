//! What is shown of the blocks of all objects, counted and summed up.
ghost use Rattle.std.specs.Prelude.{◌≡◌, ◌+◌, ◌*◌, ◌^◌, ◌<◌, ◌≤◌, length, map};
ghost use Rattle.std.specs.List.{flat_map};
ghost use Rattle.report_text.specs.Views.{first_blocks, object_blocks, shown_block};
ghost use Rattle.load_maker.specs.Tallies.{no_blocks, with_block, with_blocks};

use raid_base::{Content, Name, Shown};
use raid_xor::xor_into;
use report_text::{Final, shown};
use virtual_objects::Object;

/// How many blocks are lost, how many are hidden, and the sum of those that are shown as bytes.
#[derive(Clone, Copy)]
pub(crate) struct Tally {
    pub lost: u64,
    pub hidden: u64,
    pub sum: [u8; 64],
}

impl Tally {
    /// Adds what is shown of one block.
    fn add(&mut self, shown: &Shown)
        requires lost { self.old.lost < 2 ^ 63 }
        requires hidden { self.old.hidden < 2 ^ 63 }
        ensures value { self.new ≡ with_block self.old shown.now }
        ensures lost { self.new.lost ≤ self.old.lost + 1 }
        ensures hidden { self.new.hidden ≤ self.old.hidden + 1 }
    {
        match shown {
            Shown::Seen(Content::Bytes(bytes)) => xor_into(&mut self.sum, bytes),
            Shown::Seen(Content::Lost) => self.lost += 1,
            Shown::Hidden => self.hidden += 1,
        }
    }

    /// Adds what is shown of the first blocks of an object, so many.
    fn add_first(&mut self, view: &Final<'_>, object: &Name, blocks: u32)
        requires devices { 3 ≤ view.now.script.now.n }
        requires lost { self.old.lost < 2 ^ 62 }
        requires hidden { self.old.hidden < 2 ^ 62 }
        ensures value { let script = view.now.script.now in self.new ≡ with_blocks self.old (map (shown_block script.n script.objects view.now.cells.now view.now.opened.now) (first_blocks object.now blocks)) }
        ensures lost { self.new.lost ≤ self.old.lost + 2 ^ 32 }
        ensures hidden { self.new.hidden ≤ self.old.hidden + 2 ^ 32 }
    {
        for block in 0..blocks {
            self.add(&shown_block(view, object, block));
        }
    }

    /// Adds what is shown of each block of an object.
    fn add_object(&mut self, view: &Final<'_>, object: &Object)
        requires rows { length object.now.rows ≤ 4096 }
        requires lost { self.old.lost < 2 ^ 62 }
        requires hidden { self.old.hidden < 2 ^ 62 }
        ensures value { let script = view.now.script.now in self.new ≡ with_blocks self.old (map (shown_block script.n script.objects view.now.cells.now view.now.opened.now) (object_blocks script.n object.now)) }
        ensures lost { self.new.lost ≤ self.old.lost + 2 ^ 32 }
        ensures hidden { self.new.hidden ≤ self.old.hidden + 2 ^ 32 }
    {
        let script = view.script;
        let units = u32::from(script.objects.devices() - 1);
        let blocks = object.rows.len() as u32 * units;
        self.add_first(view, &object.name, blocks);
    }
}

/// What is shown of a block of an object.
fn shown_block(view: &Final<'_>, object: &Name, block: u32) -> Shown
    requires { 3 ≤ view.now.script.now.n }
    ensures { let script = view.now.script.now in result ≡ shown_block script.n script.objects view.now.cells.now view.now.opened.now (record { object = object.now; block = block }) }
{
    let script = view.script;
    match script.objects.place(object, block) {
        Some((row, unit)) => shown(view, row, unit),
        None => Shown::Hidden,
    }
}

/// What is shown of all blocks of all objects.
pub(crate) fn tally_blocks(view: &Final<'_>) -> Tally
    ensures { let script = view.now.script.now in result ≡ with_blocks no_blocks (map (shown_block script.n script.objects view.now.cells.now view.now.opened.now) (flat_map (object_blocks script.n) script.objects)) }
{
    let script = view.script;
    let mut tally = Tally {
        lost: 0,
        hidden: 0,
        sum: [0; 64],
    };
    for object in script.objects.as_slice() {
        tally.add_object(view, object);
    }
    tally
}
