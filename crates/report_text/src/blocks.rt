//! What is shown of each block of each object.
ghost use Rattle.std.specs.Prelude.{◌≡◌, ◌≤◌, length};
ghost use Rattle.std.specs.List.{flat_map};
ghost use Rattle.report_text.specs.Appends.{Appends};
ghost use Rattle.report_text.specs.Views.{first_blocks, object_blocks, shown_block, shown_line};

use crate::lines::put_block;
use crate::rows::shown_in;
use raid_base::{Cell, Failed, Name, Shown, Sink};
use script_text::Script;
use virtual_objects::{Object, Objects};

/// What is shown of a block of an object.
fn shown_block(
    objects: &Objects,
    cells: &[Option<Cell>],
    opened: &[bool],
    object: &Name,
    block: u32,
) -> Shown
    ensures { result ≡ shown_block objects.now.n objects.now.objects cells.now opened.now (record { object = object.now; block = block }) }
{
    let n = objects.devices();
    match objects.place(object, block) {
        Some((row, unit)) => shown_in(n, cells, opened, row, unit),
        None => Shown::Hidden,
    }
}

/// Appends what is shown of a block of an object.
fn put_shown<K: Sink>(
    sink: &mut K,
    objects: &Objects,
    cells: &[Option<Cell>],
    opened: &[bool],
    object: &Name,
    block: u32,
) -> Result<(), Failed>
    ensures { Appends K.tells K.written K.faults sink.old (shown_line objects.now.n objects.now.objects cells.now opened.now (record { object = object.now; block = block })) result sink.new }
{
    let shown = shown_block(objects, cells, opened, object, block);
    put_block(sink, object, block, &shown)
}

/// Appends what is shown of the first blocks of an object, so many.
fn put_first<K: Sink>(
    sink: &mut K,
    objects: &Objects,
    cells: &[Option<Cell>],
    opened: &[bool],
    object: &Name,
    blocks: u32,
) -> Result<(), Failed>
    ensures { Appends K.tells K.written K.faults sink.old (flat_map (shown_line objects.now.n objects.now.objects cells.now opened.now) (first_blocks object.now blocks)) result sink.new }
{
    for block in 0..blocks {
        put_shown(sink, objects, cells, opened, object, block)?;
    }
    Ok(())
}

/// Appends what is shown of each block of an object.
fn put_object<K: Sink>(
    sink: &mut K,
    objects: &Objects,
    cells: &[Option<Cell>],
    opened: &[bool],
    object: &Object,
) -> Result<(), Failed>
    requires { length object.now.rows ≤ 4096 }
    ensures { let n = objects.now.n in Appends K.tells K.written K.faults sink.old (flat_map (shown_line n objects.now.objects cells.now opened.now) (object_blocks n object.now)) result sink.new }
{
    let units = u32::from(objects.devices() - 1);
    let blocks = object.rows.len() as u32 * units;
    put_first(sink, objects, cells, opened, &object.name, blocks)
}

/// Appends what is shown of each block of each object.
fn put_objects<K: Sink>(
    sink: &mut K,
    objects: &Objects,
    cells: &[Option<Cell>],
    opened: &[bool],
) -> Result<(), Failed>
    ensures { let n = objects.now.n in Appends K.tells K.written K.faults sink.old (flat_map (shown_line n objects.now.objects cells.now opened.now) (flat_map (object_blocks n) objects.now.objects)) result sink.new }
{
    for object in objects.as_slice() {
        put_object(sink, objects, cells, opened, object)?;
    }
    Ok(())
}

/// Appends what is shown of each block of each object of a script.
pub fn put_blocks<K: Sink>(
    sink: &mut K,
    script: &Script,
    cells: &[Option<Cell>],
    opened: &[bool],
) -> Result<(), Failed>
    ensures { let n = script.now.n in Appends K.tells K.written K.faults sink.old (flat_map (shown_line n script.now.objects cells.now opened.now) (flat_map (object_blocks n) script.now.objects)) result sink.new }
{
    put_objects(sink, &script.objects, cells, opened)
}
