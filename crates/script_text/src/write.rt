//! The one text of a script, written to a sink.
ghost use Rattle.std.specs.Prelude.{◌≡◌, ◌++◌, ◌∷◌, [], codes, decimal, map};
ghost use Rattle.std.specs.List.{flat_map};
ghost use Rattle.text_lines.specs.Blocks.{block_text};
ghost use Rattle.text_lines.specs.Lines.{line, spaced};
ghost use Rattle.text_lines.specs.Writing.{Writes};
ghost use Rattle.script_text.specs.Script.{blocks_of};
ghost use Rattle.script_text.specs.Text.{head_lines, host_lines, job_words, mode_word, object_words, quit_prefix, script_text, task_words, turn_words};

use crate::script::{HostJobs, Script};
use raid_base::{Failed, Job, Mode, Name, RowNo, Sink, Task, Turn};
use text_lines::{
    number_text, write_block, write_number, write_numbered, write_piece, write_pieces,
};
use virtual_objects::Object;

fn mode_word(mode: Mode) -> &'static [u8]
    ensures { result.now ≡ mode_word mode }
{
    match mode {
        Mode::Lock => b"lock",
        Mode::Order => b"order",
    }
}

fn write_head<K: Sink>(sink: &mut K, script: &Script) -> Result<(), Failed>
    ensures { Writes K.written K.tells K.faults sink.old sink.new result (flat_map line (head_lines script.now)) }
{
    let devices = number_text(u64::from(script.n));
    let rows = number_text(u64::from(script.rows));
    let patience = number_text(script.patience);
    let tries = number_text(u64::from(script.tries));
    write_pieces(
        sink,
        &[
            b"raid 1\ndevices ",
            devices.as_slice(),
            b"\nrows ",
            rows.as_slice(),
            b"\nmode ",
            mode_word(script.mode),
            b"\npatience ",
            patience.as_slice(),
            b"\ntries ",
            tries.as_slice(),
            b"\n",
        ],
    )
}

fn write_rows<K: Sink>(sink: &mut K, rows: &[RowNo]) -> Result<(), Failed>
    ensures { Writes K.written K.tells K.faults sink.old sink.new result (flat_map (λ row. spaced (decimal row.0)) rows.now) }
{
    for row in rows {
        write_number(sink, u64::from(row.0))?;
    }
    Ok(())
}

fn write_object<K: Sink>(sink: &mut K, object: &Object) -> Result<(), Failed>
    ensures { Writes K.written K.tells K.faults sink.old sink.new result (line (object_words object.now)) }
{
    write_pieces(sink, &[b"object ", object.name.as_bytes()])?;
    write_rows(sink, object.rows.as_slice())?;
    write_piece(sink, b"\n")
}

fn write_objects<K: Sink>(sink: &mut K, objects: &[Object]) -> Result<(), Failed>
    ensures { Writes K.written K.tells K.faults sink.old sink.new result (flat_map (λ object. line (object_words object)) objects.now) }
{
    for object in objects {
        write_object(sink, object)?;
    }
    Ok(())
}

fn write_blocks<K: Sink>(sink: &mut K, blocks: &[[u8; 64]]) -> Result<(), Failed>
    ensures { Writes K.written K.tells K.faults sink.old sink.new result (flat_map (λ block. spaced (block_text block)) blocks.now) }
{
    for block in blocks {
        write_block(sink, block)?;
    }
    Ok(())
}

/// Writes how many requests a host makes before it stops, where it does.
fn write_quit<K: Sink>(sink: &mut K, quit: Option<u32>) -> Result<(), Failed>
    ensures { Writes K.written K.tells K.faults sink.old sink.new result (quit_prefix quit) }
{
    match quit {
        Some(requests) => write_pieces(
            sink,
            &[b"quit ", number_text(u64::from(requests)).as_slice(), b" "],
        ),
        None => Ok(()),
    }
}

fn write_read<K: Sink>(sink: &mut K, object: &Name, first: u32, count: u8) -> Result<(), Failed>
    ensures { Writes K.written K.tells K.faults sink.old sink.new result (line (codes "read" ∷ object.now ∷ decimal first ∷ decimal count ∷ [])) }
{
    let first = number_text(u64::from(first));
    let count = number_text(u64::from(count));
    write_pieces(
        sink,
        &[
            b"read ",
            object.as_bytes(),
            b" ",
            first.as_slice(),
            b" ",
            count.as_slice(),
            b"\n",
        ],
    )
}

/// Writes the line of a write up to its blocks.
fn write_place<K: Sink>(sink: &mut K, object: &Name, first: u32) -> Result<(), Failed>
    ensures { Writes K.written K.tells K.faults sink.old sink.new result (codes "write " ++ (object.now ++ spaced (decimal first))) }
{
    let first = number_text(u64::from(first));
    write_pieces(
        sink,
        &[b"write ", object.as_bytes(), b" ", first.as_slice()],
    )
}

fn write_write<K: Sink>(
    sink: &mut K,
    object: &Name,
    first: u32,
    blocks: &[[u8; 64]],
) -> Result<(), Failed>
    ensures { Writes K.written K.tells K.faults sink.old sink.new result (line (codes "write" ∷ object.now ∷ decimal first ∷ map block_text blocks.now)) }
{
    write_place(sink, object, first)?;
    write_blocks(sink, blocks)?;
    write_piece(sink, b"\n")
}

fn write_task<K: Sink>(sink: &mut K, script: &Script, task: &Task) -> Result<(), Failed>
    ensures { Writes K.written K.tells K.faults sink.old sink.new result (line (task_words script.now task.now)) }
{
    match *task {
        Task::Read {
            object,
            first,
            count,
        } => write_read(sink, &object, first, count),
        Task::Write {
            object,
            first,
            from,
            count,
        } => write_write(sink, &object, first, script.blocks_of(from, count)),
        Task::Recover { row } => write_numbered(sink, b"recover", u64::from(row.0)),
        Task::Lose { bay } => write_numbered(sink, b"lose", u64::from(bay.0)),
        Task::Fit { bay } => write_numbered(sink, b"fit", u64::from(bay.0)),
        Task::Rebuild { bay } => write_numbered(sink, b"rebuild", u64::from(bay.0)),
    }
}

fn write_job<K: Sink>(sink: &mut K, script: &Script, job: &Job) -> Result<(), Failed>
    ensures { Writes K.written K.tells K.faults sink.old sink.new result (line (job_words script.now job.now)) }
{
    write_quit(sink, job.quit)?;
    write_task(sink, script, &job.task)
}

fn write_jobs<K: Sink>(sink: &mut K, script: &Script, jobs: &[Job]) -> Result<(), Failed>
    ensures { Writes K.written K.tells K.faults sink.old sink.new result (flat_map (λ job. line (job_words script.now job)) jobs.now) }
{
    for job in jobs {
        write_job(sink, script, job)?;
    }
    Ok(())
}

fn write_host<K: Sink>(sink: &mut K, script: &Script, host: &HostJobs) -> Result<(), Failed>
    ensures { Writes K.written K.tells K.faults sink.old sink.new result (flat_map line (host_lines script.now host.now)) }
{
    write_numbered(sink, b"host", u64::from(host.host.0))?;
    write_jobs(sink, script, host.jobs.as_slice())
}

fn write_hosts<K: Sink>(sink: &mut K, script: &Script, hosts: &[HostJobs]) -> Result<(), Failed>
    ensures { Writes K.written K.tells K.faults sink.old sink.new result (flat_map (λ host. flat_map line (host_lines script.now host)) hosts.now) }
{
    for host in hosts {
        write_host(sink, script, host)?;
    }
    Ok(())
}

fn write_turn<K: Sink>(sink: &mut K, turn: &Turn) -> Result<(), Failed>
    ensures { Writes K.written K.tells K.faults sink.old sink.new result (line (turn_words turn.now)) }
{
    let host = number_text(u64::from(turn.host.0));
    let moment = number_text(turn.moment);
    write_pieces(
        sink,
        &[b"turn ", host.as_slice(), b" ", moment.as_slice(), b"\n"],
    )
}

fn write_turns<K: Sink>(sink: &mut K, turns: &[Turn]) -> Result<(), Failed>
    ensures { Writes K.written K.tells K.faults sink.old sink.new result (flat_map (λ turn. line (turn_words turn)) turns.now) }
{
    for turn in turns {
        write_turn(sink, turn)?;
    }
    Ok(())
}

/// Appends the text of a script. Fails only where the sink does, and has then appended a first part of it.
pub fn write_script<K: Sink>(sink: &mut K, script: &Script) -> Result<(), Failed>
    ensures { Writes K.written K.tells K.faults sink.old sink.new result (script_text script.now) }
{
    write_head(sink, script)?;
    write_objects(sink, script.objects.as_slice())?;
    write_hosts(sink, script, script.hosts())?;
    write_turns(sink, script.turns.as_slice())?;
    write_piece(sink, b"end\n")
}
