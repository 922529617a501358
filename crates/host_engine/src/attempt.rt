//! The attempts of a host, of whichever kind.
ghost use Rattle.std.specs.Prelude.{◌≡◌, ◌≤◌, ◌<◌, List, [], ℕ, Some, None, IsOk, IfOk, option_map, true, false, Ok, length};
ghost use Rattle.raid_base.specs.Steps.{next_errand, answer, stopped, told, draws};
ghost use Rattle.attempts.specs.Taking.{Finish};
ghost use Rattle.attempts.specs.Discipline.{IsNumber};
ghost use Rattle.attempts.specs.Parts.{blocks_in};
ghost use Rattle.attempts.specs.Reading.{read_steps};
ghost use Rattle.attempts.specs.Writing.{write_steps};
ghost use Rattle.attempts.specs.Mending.{mend_steps};
ghost use Rattle.attempts.specs.Recovery.{recover_steps};
ghost use Rattle.virtual_objects.specs.RowParts.{AreRowParts};
ghost use Rattle.histories.specs.Progress.{attempt, no_steps};
ghost use Rattle.histories.specs.Plain.{IsTried, is_sized_task, is_held_task, FitsNext, AreTaskParts, contents_in, task_parts, task_blocks};
ghost use Rattle.host_engine.specs.Left.{read_left, write_left, recovery_left, mend_left, FitsWrite};

use crate::lookup::devices;
use crate::room::task_parts;
use host_read::ReadTry;
use host_write::WriteTry;
use place_numbers::Numbers;
use raid_base::{
    BayNo, Cause, Content, Ended, Errand, HostNo, Mode, NoMemory, Number, Reply, RowNo, Task,
};
use rebuild_txn::MendTry;
use script_text::Script;
use std::alloc::Global;
use stripe_recovery::RecoverTry;
use virtual_objects::RowParts;

/// What an attempt does.
#[derive(Clone, Copy, Debug, PartialEq)]
pub enum Kind {
    Reading,
    Writing,
    Recovering,
    Mending,
}

/// What a job keeps of its last attempt.
#[derive(Clone, Copy, Debug, PartialEq)]
pub enum Kept {
    Nothing,
    Contents,
}

/// The attempts of a host: the last one of each kind, of which one is in hand. They are large, so each kind has its room
/// from the start, and a new attempt begins there.
#[derive(Debug, Drop)]
pub struct Attempt {
    kind: Kind,
    reading: Box<Option<ReadTry>>,
    writing: Box<Option<WriteTry>>,
    recovering: Box<Option<RecoverTry>>,
    mending: Box<Option<MendTry>>,
}

/// The rows and units of a read or a write that has them.
fn granted_parts(script: &Script, task: &Task) -> RowParts
    requires sized { is_sized_task task.now ≡ true }
    requires granted { IsOk (task_parts script.now task.now) }
    ensures parts { task_parts script.now task.now ≡ Ok result.items }
    ensures sound { AreTaskParts script.now.n task.now result.items }
{
    match task_parts(script, task) {
        Ok(parts) => parts,
        Err(_) => unreachable!(),
    }
}

/// Room for an attempt, with none in it yet.
fn room<T: Drop>(alloc: Global) -> Result<Box<Option<T>>, NoMemory>
    ensures { IfOk result (λ room. room.value ≡ None) }
{
    match Box::new(alloc, None) {
        Ok(room) => Ok(room),
        Err(_) => Err(NoMemory),
    }
}

/// Begins a read in the room of the last one.
fn begin_read(room: &mut Option<ReadTry>, mode: Mode, n: u8, id: Number, parts: RowParts)
    requires bays { (3 ≤ n) × (n ≤ 16) }
    requires id { IsNumber id }
    requires parts { AreRowParts n parts.items }
    ensures { read_left room.new ≡ read_steps (record { mode = mode; n = n; id = id; parts = parts.items; blocks = [] }) }
{
    match room {
        Some(attempt) => attempt.renew(mode, n, id, parts),
        None => *room = Some(ReadTry::begin(mode, n, id, parts)),
    }
}

/// Begins a write in the room of the last one.
fn begin_write(room: &mut Option<WriteTry>, mode: Mode, n: u8, id: Number, parts: RowParts)
    requires bays { (3 ≤ n) × (n ≤ 16) }
    requires id { IsNumber id }
    requires parts { AreRowParts n parts.items }
    ensures left { (blocks : List (List ℕ)) → write_left room.new blocks ≡ write_steps (record { mode = mode; n = n; id = id; parts = parts.items; blocks = blocks }) }
    ensures suits { (blocks : List (List ℕ)) → length blocks ≡ blocks_in parts.items → FitsWrite room.new blocks }
{
    match room {
        Some(attempt) => attempt.renew(mode, n, id, parts),
        None => *room = Some(WriteTry::begin(mode, n, id, parts)),
    }
}

/// Begins a recovery in the room of the last one.
fn begin_recovery(room: &mut Option<RecoverTry>, n: u8, host: HostNo, id: Number, row: RowNo)
    requires bays { (3 ≤ n) × (n ≤ 16) }
    requires id { IsNumber id }
    ensures { recovery_left room.new ≡ recover_steps (record { n = n; host = host; id = id; row = row }) }
{
    match room {
        Some(attempt) => attempt.renew(n, host, id, row),
        None => *room = Some(RecoverTry::begin(n, host, id, row)),
    }
}

/// Begins to mend a row in the room of the last one that was mended.
fn begin_mend(room: &mut Option<MendTry>, n: u8, id: Number, row: RowNo, target: BayNo)
    requires bays { (3 ≤ n) × (n ≤ 16) }
    requires id { IsNumber id }
    requires target { target.0 < n }
    ensures { mend_left room.new ≡ mend_steps (record { n = n; id = id; row = row; target = target }) }
{
    match room {
        Some(attempt) => attempt.renew(n, id, row, target),
        None => *room = Some(MendTry::begin(n, id, row, target)),
    }
}

impl Attempt {
    ghost use Rattle.host_engine.specs.Left.{left, Suits, contents_kept};

    /// No attempt yet, with room for one of each kind.
    pub fn new(alloc: Global) -> Result<Attempt, NoMemory>
        ensures { IfOk result (λ attempt. (blocks : List (List ℕ)) → left attempt blocks ≡ no_steps) }
    {
        Ok(Attempt {
            kind: Kind::Reading,
            reading: room(alloc)?,
            writing: room(alloc)?,
            recovering: room(alloc)?,
            mending: room(alloc)?,
        })
    }

    /// Begins the attempt with this id at a task of a host. A rebuild mends this row.
    pub fn begin(&mut self, script: &Script, host: HostNo, id: Number, row: RowNo, task: &Task)
        requires id { IsNumber id }
        requires tried { IsTried script.now task.now }
        requires sized { is_sized_task task.now ≡ true }
        requires held { is_held_task (length script.now.blocks) task.now ≡ true }
        ensures steps { left self.new (task_blocks script.now task.now) ≡ attempt script.now host id row.0 task.now }
        ensures asks { draws (left self.new (task_blocks script.now task.now)) ≡ false }
        ensures suits { Suits self.new (task_blocks script.now task.now) }
    {
        let n = devices(script);
        match task {
            Task::Read { .. } => {
                let parts = granted_parts(script, task);
                self.kind = Kind::Reading;
                begin_read(&mut *self.reading, script.mode, n, id, parts);
            }
            Task::Write { .. } => {
                let parts = granted_parts(script, task);
                self.kind = Kind::Writing;
                begin_write(&mut *self.writing, script.mode, n, id, parts);
            }
            Task::Recover { row } => {
                self.kind = Kind::Recovering;
                begin_recovery(&mut *self.recovering, n, host, id, *row);
            }
            Task::Rebuild { bay } => {
                self.kind = Kind::Mending;
                begin_mend(&mut *self.mending, n, id, row, *bay);
            }
            Task::Lose { .. } => unreachable!(),
            Task::Fit { .. } => unreachable!(),
        }
    }

    /// The next request, and none once it has ended.
    pub fn next(&self, blocks: &[[u8; 64]]) -> Option<Errand>
        ensures { result ≡ next_errand (left self.now blocks.now) }
    {
        let next = match self.kind {
            Kind::Reading => match &*self.reading {
                Some(attempt) => attempt.next(blocks),
                None => None,
            },
            Kind::Writing => match &*self.writing {
                Some(attempt) => attempt.next(blocks),
                None => None,
            },
            Kind::Recovering => match &*self.recovering {
                Some(attempt) => attempt.next(blocks),
                None => None,
            },
            Kind::Mending => match &*self.mending {
                Some(attempt) => attempt.next(blocks),
                None => None,
            },
        };
        match next {
            Some((bay, request)) => Some(Errand { bay, request }),
            None => None,
        }
    }

    /// Takes the reply to the next request.
    pub fn take(&mut self, blocks: &[[u8; 64]], reply: &Reply, numbers: &mut Numbers)
        requires fits { FitsNext (next_errand (left self.old blocks.now)) reply.now }
        requires suits { Suits self.old blocks.now }
        ensures steps { record { seen = numbers.new.seen; steps = left self.new blocks.now } ≡ told numbers.old.host (record { seen = numbers.old.seen; steps = left self.old blocks.now }) reply.now }
        ensures host { numbers.new.host ≡ numbers.old.host }
        ensures suits { Suits self.new blocks.now }
    {
        match self.kind {
            Kind::Reading => match &mut *self.reading {
                Some(attempt) => attempt.take(blocks, reply, numbers),
                None => unreachable!(),
            },
            Kind::Writing => match &mut *self.writing {
                Some(attempt) => attempt.take(blocks, reply, numbers),
                None => unreachable!(),
            },
            Kind::Recovering => match &mut *self.recovering {
                Some(attempt) => attempt.take(blocks, reply, numbers),
                None => unreachable!(),
            },
            Kind::Mending => match &mut *self.mending {
                Some(attempt) => attempt.take(blocks, reply, numbers),
                None => unreachable!(),
            },
        }
    }

    /// How it ended, once it has. The blocks may be any.
    pub fn end(&self) -> Option<Ended>
        ensures { (blocks : List (List ℕ)) → result ≡ option_map (λ (f : Finish). f.ended) (answer (left self.now blocks)) }
    {
        match self.kind {
            Kind::Reading => match &*self.reading {
                Some(attempt) => attempt.end(),
                None => Some(Ended::Refused(Cause::Quit)),
            },
            Kind::Writing => match &*self.writing {
                Some(attempt) => attempt.end(),
                None => Some(Ended::Refused(Cause::Quit)),
            },
            Kind::Recovering => match &*self.recovering {
                Some(attempt) => attempt.end(),
                None => Some(Ended::Refused(Cause::Quit)),
            },
            Kind::Mending => match &*self.mending {
                Some(attempt) => attempt.end(),
                None => Some(Ended::Refused(Cause::Quit)),
            },
        }
    }

    /// How it ends where the host stops now.
    pub fn quit(&self) -> Ended
        requires { (blocks : List (List ℕ)) → answer (left self.now blocks) ≡ None }
        ensures { (blocks : List (List ℕ)) → Some result ≡ stopped (left self.now blocks) }
    {
        match self.kind {
            Kind::Reading => match &*self.reading {
                Some(attempt) => attempt.quit(),
                None => unreachable!(),
            },
            Kind::Writing => match &*self.writing {
                Some(attempt) => attempt.quit(),
                None => unreachable!(),
            },
            Kind::Recovering => match &*self.recovering {
                Some(attempt) => attempt.quit(),
                None => unreachable!(),
            },
            Kind::Mending => match &*self.mending {
                Some(attempt) => attempt.quit(),
                None => unreachable!(),
            },
        }
    }

    /// What was read, once it has ended.
    pub fn contents(&self) -> &[Content]
        ensures { (blocks : List (List ℕ)) → result.now ≡ contents_in (answer (left self.now blocks)) }
    {
        match self.kind {
            Kind::Reading => match &*self.reading {
                Some(attempt) => attempt.contents(),
                None => &[],
            },
            Kind::Writing => &[],
            Kind::Recovering => &[],
            Kind::Mending => &[],
        }
    }

    /// What a job keeps of it.
    pub fn kept(&self, what: Kept) -> &[Content]
        ensures { result.now ≡ contents_kept what self.now }
    {
        match what {
            Kept::Nothing => &[],
            Kept::Contents => self.contents(),
        }
    }
}
