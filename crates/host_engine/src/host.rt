//! One host: its jobs in order, each by one attempt after another until it is done or given up.
//!
//! A job that reads, writes, rebuilds or recovers draws an id and begins an attempt. `next` tells the request in
//! hand, and `heard` takes the answer: the call is noted in the transcript, and the reply is handed to the attempt.
//! An attempt that was refused is followed by another with a new id, up to the job's last try. A rebuild makes its
//! attempts row by row. A job with `quit` stops the host for good after so many requests. The operator, host 0,
//! loses and fits devices, and remembers which one is gone.
//!
//! A host stands where the progress of its calls says, by the definitions of `histories`: what it asks next, and
//! what it reports of each job. All memory is taken by `make`. A world's turns call it.
ghost use Rattle.std.specs.Prelude.{◌≡◌, ◌+◌, ◌<◌, ◌≤◌, ◌-◌, ◌^◌, Some, true, ◌==◌, ◌||◌, length};
ghost use Rattle.histories.specs.Operator.{is_gone};
ghost use Rattle.histories.specs.Progress.{parts_end, is_spent, quit_end};
ghost use Rattle.histories.specs.Plain.{first_blocks, are_sized, are_held, are_aimed};
ghost use Rattle.std.specs.Vec.{vec_len, vec_capacity};

use crate::attempt::{Attempt, Kept};
use crate::duty::Duty;
use crate::lookup;
use crate::reads::contents_of;
use crate::room::{contents_in, requests_in, task_parts, with_room};
use histories::Gone;
use place_numbers::Numbers;
use raid_base::{
    Answer, Ask, BayNo, Call, Cause, Content, Ended, HostNo, Job, JobEnd, JobResult, NoMemory,
    PartsFault, Reply, RowNo, Task,
};
use script_text::Script;
use std::alloc::Global;

/// A host that runs its jobs.
#[derive(Drop)]
pub struct Host<'s> {
    no: HostNo,
    script: &'s Script,
    jobs: &'s [Job],
    job: u32,
    asked: u64,
    tries: u8,
    row: u16,
    gone: Option<Gone>,
    numbers: Numbers,
    clock: u64,
    duty: Option<Duty>,
    attempt: Attempt,
    results: Vec<JobResult>,
    contents: Vec<Content>,
    transcript: Vec<Call>,
    ghost few: { length jobs.now < 2 ^ 32 },
    ghost within: { job ≤ length jobs.now },
    ghost sized: { are_sized jobs.now ≡ true },
    ghost held: { are_held (length script.now.blocks) jobs.now ≡ true },
    ghost aimed: { are_aimed script.now.n jobs.now ≡ true },
    ghost room: { vec_len results + (length jobs.now - job) ≤ vec_capacity results },
    ghost counted: { asked ≤ vec_len transcript },
}

/// How a job ends that has no parts.
fn parts_end(fault: PartsFault) -> JobEnd
    ensures { result ≡ parts_end fault }
{
    match fault {
        PartsFault::NoObject => JobEnd::NoObject,
        PartsFault::PastEnd { blocks } => JobEnd::PastEnd { blocks },
        PartsFault::TooManyRows { rows } => JobEnd::TooManyRows { rows },
    }
}

/// How a job ends whose attempt was not at its end when the host stopped.
fn quit_end(tries: u8, ended: Ended) -> JobEnd
    ensures { result ≡ quit_end tries ended }
{
    match ended {
        Ended::Read { number } => JobEnd::Read { number },
        Ended::Wrote { number } => JobEnd::Wrote { number },
        Ended::Part {
            number,
            made,
            cause,
        } => JobEnd::Part {
            number,
            made,
            cause,
        },
        Ended::Recovered {
            number,
            closed,
            lost,
        } => JobEnd::Recovered {
            number,
            closed,
            lost,
        },
        Ended::Mended => JobEnd::Gave {
            tries,
            cause: Cause::Quit,
        },
        Ended::Refused(_) => JobEnd::Gave {
            tries,
            cause: Cause::Quit,
        },
    }
}

/// Whether this bay's device is gone, and fitted or not as said.
fn is_gone(bay: BayNo, fitted: bool, gone: Option<Gone>) -> bool
    ensures { result ≡ is_gone bay fitted gone }
{
    match gone {
        Some(gone) => gone.bay == bay && gone.fitted == fitted,
        None => false,
    }
}

/// Whether no number was left.
fn is_spent(cause: Cause) -> bool
    ensures { result ≡ is_spent cause }
{
    matches!(cause, Cause::Spent { .. })
}

/// Whether a job is given up whose attempt was refused.
fn gives_up(tries: u8, most: u8, cause: Cause) -> bool
    ensures { result ≡ ((tries == most) || is_spent cause) }
{
    tries == most || is_spent(cause)
}

/// The blocks that the first of these jobs writes.
fn first_blocks<'s>(script: &'s Script, jobs: &[Job]) -> &'s [[u8; 64]]
    ensures { result.now ≡ first_blocks script.now jobs.now }
{
    match jobs {
        [] => &[],
        [job, ..] => match &job.task {
            Task::Write { from, count, .. } => lookup::blocks_of(script, *from, *count),
            _ => &[],
        },
    }
}

impl<'s> Host<'s> {
    ghost use Rattle.std.specs.Prelude.{if◌then◌else◌, false, IfOk, IsTrue, [], ◌∷◌, ◌++◌, None, drop};
    ghost use Rattle.raid_base.specs.Exchanges.{are_kept};
    ghost use Rattle.script_text.specs.Script.{Script, jobs_of};
    ghost use Rattle.raid_base.specs.declared.numbers.HostNo.{HostNo};
    ghost use Rattle.raid_base.specs.declared.jobs.JobEnd.{JobEnd};
    ghost use Rattle.raid_base.specs.declared.jobs.Task.TheVariants.{Rebuild};
    ghost use Rattle.histories.specs.Plain.{IsTried, FirstTried, is_sized_task, is_held_task, is_plain_task, task_parts};
    ghost use Rattle.histories.specs.Progress.{Progress, with_ending, next_job, try_task, try_parts, lose_job, fit_job, rebuild_job, start_jobs, attempt_refused, row_mended, try_again, stops, task_of, asks, job_ended, attempt_ended, work_told, is_over, Sent};
    ghost use Rattle.histories.specs.Endings.{AreEndings};
    ghost use Rattle.host_engine.specs.Left.{contents_kept};
    ghost use Rattle.host_engine.specs.Reads.{contents_at};
    ghost use Rattle.host_engine.specs.declared.attempt.Kept.TheVariants.{Contents};
    ghost use Rattle.host_engine.specs.Stands.{Counts, Stands, KeepsRoom, Skips, Begins, BeginsFirst, FirstTask, sent_pair, Told, IsTrying, IsAsking, Quits, IsNoted, CanHear, CanTake, Takes, IsSentBy, IsFreshHost};

    /// The job in hand has ended so and keeps this of its attempt, and the next one is in hand.
    fn finish_job(&mut self, end: JobEnd, kept: Kept)
        requires job { self.old.job < length self.old.jobs.now }
        requires room { vec_len self.old.contents + length (contents_kept kept self.old.attempt) ≤ vec_capacity self.old.contents }
        ensures counts { (script : Script) (host : HostNo) (p : Progress) → Counts script host self.old p → Counts script host self.new (next_job (with_ending p end (contents_kept kept self.old.attempt))) }
        ensures job { Skips false self.old self.new }
        ensures room { KeepsRoom self.old self.new }
    {
        self.results.push_reserved(JobResult {
            host: self.no,
            job: self.job,
            end,
        });
        match self.contents.extend_from_slice(self.attempt.kept(kept)) {
            Ok(()) => {}
            Err(_) => unreachable!(),
        }
        self.job += 1;
        self.asked = 0;
        self.tries = 0;
        self.row = 0;
    }

    /// Begins an attempt of the job in hand by drawing its id. Where none is left the job is given up.
    fn try_task(&mut self, task: &Task) -> bool
        requires job { self.old.job < length self.old.jobs.now }
        requires tried { IsTried self.old.script.now task.now }
        requires sized { is_sized_task task.now ≡ true }
        requires held { is_held_task (length self.old.script.now.blocks) task.now ≡ true }
        requires tries { self.old.tries < 255 }
        ensures begun { (script : Script) (host : HostNo) (p : Progress) → Counts script host self.old p → FirstTask p.jobs task.now → Begins script host (λ rest q. try_task script host task.now rest q) result p self.new }
        ensures job { Skips result self.old self.new }
        ensures room { KeepsRoom self.old self.new }
    {
        self.tries += 1;
        match self.numbers.draw() {
            Ok(id) => {
                self.attempt
                    .begin(self.script, self.no, id, RowNo(self.row), task);
                self.duty = Some(Duty::Trying);
                true
            }
            Err(spent) => {
                self.finish_job(
                    JobEnd::Gave {
                        tries: self.tries,
                        cause: Cause::Spent { seen: spent.seen },
                    },
                    Kept::Nothing,
                );
                false
            }
        }
    }

    /// Begins a read or a write, where it has parts.
    fn access(&mut self, task: &Task) -> bool
        requires job { self.old.job < length self.old.jobs.now }
        requires access { is_plain_task task.now ≡ true }
        requires sized { is_sized_task task.now ≡ true }
        requires held { is_held_task (length self.old.script.now.blocks) task.now ≡ true }
        requires fresh { self.old.tries ≡ 0 }
        ensures begun { (script : Script) (host : HostNo) (p : Progress) → Counts script host self.old p → FirstTask p.jobs task.now → Begins script host (λ rest q. try_parts script host task.now rest q (task_parts script task.now)) result p self.new }
        ensures job { Skips result self.old self.new }
        ensures room { KeepsRoom self.old self.new }
    {
        match task_parts(self.script, task) {
            Ok(_) => self.try_task(task),
            Err(fault) => {
                self.finish_job(parts_end(fault), Kept::Nothing);
                false
            }
        }
    }

    /// Loses a device, unless one is gone.
    fn lose(&mut self, bay: BayNo) -> bool
        requires job { self.old.job < length self.old.jobs.now }
        ensures begun { (script : Script) (host : HostNo) (p : Progress) → Counts script host self.old p → Begins script host (λ rest q. lose_job rest q bay q.gone) result p self.new }
        ensures job { Skips result self.old self.new }
        ensures room { KeepsRoom self.old self.new }
    {
        match self.gone {
            None => {
                self.duty = Some(Duty::Losing(bay));
                true
            }
            Some(gone) => {
                self.finish_job(JobEnd::StillMissing { bay: gone.bay }, Kept::Nothing);
                false
            }
        }
    }

    /// Fits a device where the one of this bay is gone.
    fn fit(&mut self, bay: BayNo) -> bool
        requires job { self.old.job < length self.old.jobs.now }
        ensures begun { (script : Script) (host : HostNo) (p : Progress) → Counts script host self.old p → Begins script host (λ rest q. fit_job rest q bay (is_gone bay false q.gone)) result p self.new }
        ensures job { Skips result self.old self.new }
        ensures room { KeepsRoom self.old self.new }
    {
        if is_gone(bay, false, self.gone) {
            self.duty = Some(Duty::Fitting(bay));
            true
        } else {
            self.finish_job(JobEnd::NotLost { bay }, Kept::Nothing);
            false
        }
    }

    /// Begins to mend the first row on a device that was fitted.
    fn rebuild(&mut self, bay: BayNo) -> bool
        requires job { self.old.job < length self.old.jobs.now }
        requires bay { bay.0 < self.old.script.now.n }
        requires fresh { self.old.tries ≡ 0 }
        ensures begun { (script : Script) (host : HostNo) (p : Progress) → Counts script host self.old p → FirstTask p.jobs (Rebuild bay) → Begins script host (λ rest q. rebuild_job script host rest q bay (is_gone bay true q.gone)) result p self.new }
        ensures job { Skips result self.old self.new }
        ensures room { KeepsRoom self.old self.new }
    {
        if is_gone(bay, true, self.gone) {
            self.try_task(&Task::Rebuild { bay })
        } else {
            self.finish_job(JobEnd::NotFitted { bay }, Kept::Nothing);
            false
        }
    }

    /// Begins the job in hand. Where it ends without a request the next one is in hand.
    fn begin_job(&mut self) -> bool
        requires job { self.old.job < length self.old.jobs.now }
        requires fresh { self.old.tries ≡ 0 }
        ensures begun { (script : Script) (host : HostNo) (p : Progress) → Counts script host self.old p → BeginsFirst script host p.jobs result p self.new }
        ensures job { Skips result self.old self.new }
        ensures room { KeepsRoom self.old self.new }
    {
        let jobs = self.jobs;
        let task = &jobs[self.job as usize].task;
        match task {
            Task::Read { .. } => self.access(task),
            Task::Write { .. } => self.access(task),
            Task::Recover { .. } => self.try_task(task),
            Task::Lose { bay } => self.lose(*bay),
            Task::Fit { bay } => self.fit(*bay),
            Task::Rebuild { bay } => self.rebuild(*bay),
        }
    }

    /// Goes on to the first request of the jobs that are left.
    fn start(&mut self)
        requires fresh { self.old.tries ≡ 0 }
        requires idle { self.old.duty ≡ None }
        ensures stands { (script : Script) (host : HostNo) (p : Progress) → Counts script host self.old p → Stands script host self.new (start_jobs script host p.jobs p) }
        ensures room { KeepsRoom self.old self.new }
    {
        while (self.job as usize) < self.jobs.len() {
            if self.begin_job() {
                return;
            }
        }
    }

    /// The host's number, and none once it has ended.
    pub fn waiting(&self) -> Option<HostNo>
        ensures { (script : Script) (host : HostNo) (p : Progress) → Stands script host self.now p → result ≡ (if is_over p.work then None else Some host) }
    {
        match self.duty {
            Some(_) => Some(self.no),
            None => None,
        }
    }

    /// The next request at this moment, and none where the host has ended.
    pub fn next(&self, moment: u64) -> Option<(BayNo, Ask)>
        ensures { (script : Script) (host : HostNo) (p : Progress) → Stands script host self.now p → result ≡ sent_pair (asks host p moment) }
    {
        let duty = match &self.duty {
            Some(duty) => duty,
            None => return None,
        };
        let blocks = first_blocks(self.script, &self.jobs[self.job as usize..]);
        match duty.next(&self.attempt, blocks) {
            Some(errand) => Some((
                errand.bay,
                Ask {
                    host: self.no,
                    clock: self.clock,
                    moment,
                    what: errand.request,
                },
            )),
            None => None,
        }
    }

    /// Whether the host stops for good: the last request that its job may make was answered.
    fn stops(&self) -> bool
        requires job { self.now.job < length self.now.jobs.now }
        ensures { (script : Script) (host : HostNo) (p : Progress) → Counts script host self.now p → result ≡ stops p }
    {
        match self.jobs[self.job as usize].quit {
            Some(requests) => requests as u64 == self.asked,
            None => false,
        }
    }

    /// The job in hand has ended so and keeps this of its attempt, and the host goes on, unless it stops.
    fn close(&mut self, end: JobEnd, kept: Kept)
        requires job { self.old.job < length self.old.jobs.now }
        requires idle { self.old.duty ≡ None }
        requires room { vec_len self.old.contents + length (contents_kept kept self.old.attempt) ≤ vec_capacity self.old.contents }
        ensures stands { (script : Script) (host : HostNo) (p : Progress) → Counts script host self.old p → Stands script host self.new (job_ended script host p end (contents_kept kept self.old.attempt)) }
        ensures room { KeepsRoom self.old self.new }
    {
        let stops = self.stops();
        self.finish_job(end, kept);
        if !stops {
            self.start();
        }
    }

    /// A further attempt of the job in hand.
    fn try_again(&mut self)
        requires job { self.old.job < length self.old.jobs.now }
        requires tries { self.old.tries < 255 }
        requires idle { self.old.duty ≡ None }
        requires tried { FirstTried self.old.script.now (drop self.old.job self.old.jobs.now) }
        ensures stands { (script : Script) (host : HostNo) (p : Progress) → Counts script host self.old p → Stands script host self.new (try_again script host p (task_of p.jobs)) }
        ensures room { KeepsRoom self.old self.new }
    {
        let jobs = self.jobs;
        if !self.try_task(&jobs[self.job as usize].task) {
            self.start();
        }
    }

    /// The attempt in hand was refused: the job is tried again, or given up after its last try.
    fn refused(&mut self, cause: Cause)
        requires job { self.old.job < length self.old.jobs.now }
        requires tries { self.old.tries ≤ self.old.script.now.tries }
        requires idle { self.old.duty ≡ None }
        requires tried { FirstTried self.old.script.now (drop self.old.job self.old.jobs.now) }
        ensures stands { (script : Script) (host : HostNo) (p : Progress) → Counts script host self.old p → Stands script host self.new (attempt_refused script host p cause ((p.tries == script.tries) || is_spent cause)) }
        ensures room { KeepsRoom self.old self.new }
    {
        let tries = self.tries;
        if gives_up(tries, lookup::tries(self.script), cause) {
            self.close(JobEnd::Gave { tries, cause }, Kept::Nothing);
        } else if self.stops() {
            let cause = Cause::Quit;
            self.close(JobEnd::Gave { tries, cause }, Kept::Nothing);
        } else {
            self.try_again();
        }
    }

    /// A row was mended: the next one is, or the rebuild is done and nothing is gone any more.
    fn mended(&mut self)
        requires job { self.old.job < length self.old.jobs.now }
        requires row { self.old.row < self.old.script.now.rows }
        requires idle { self.old.duty ≡ None }
        requires tried { FirstTried self.old.script.now (drop self.old.job self.old.jobs.now) }
        ensures stands { (script : Script) (host : HostNo) (p : Progress) → Counts script host self.old p → Stands script host self.new (row_mended script host p (p.row + 1 == script.rows)) }
        ensures room { KeepsRoom self.old self.new }
    {
        let rows = lookup::rows(self.script);
        if self.row + 1 == rows {
            self.gone = None;
            self.close(JobEnd::Rebuilt, Kept::Nothing);
        } else if self.stops() {
            let tries = self.tries;
            let cause = Cause::Quit;
            self.close(JobEnd::Gave { tries, cause }, Kept::Nothing);
        } else {
            self.row += 1;
            self.tries = 0; // each row has its own tries
            self.try_again();
        }
    }

    /// The attempt in hand has ended so.
    fn finish(&mut self, ended: Ended)
        requires job { self.old.job < length self.old.jobs.now }
        requires tries { self.old.tries ≤ self.old.script.now.tries }
        requires row { self.old.row < self.old.script.now.rows }
        requires idle { self.old.duty ≡ None }
        requires room { vec_len self.old.contents + length (contents_kept Contents self.old.attempt) ≤ vec_capacity self.old.contents }
        requires tried { FirstTried self.old.script.now (drop self.old.job self.old.jobs.now) }
        ensures stands { (script : Script) (host : HostNo) (p : Progress) → Counts script host self.old p → Stands script host self.new (attempt_ended script host p (contents_kept Contents self.old.attempt) ended) }
        ensures room { KeepsRoom self.old self.new }
    {
        match ended {
            Ended::Read { number } => self.close(JobEnd::Read { number }, Kept::Contents),
            Ended::Wrote { number } => self.close(JobEnd::Wrote { number }, Kept::Nothing),
            Ended::Part {
                number,
                made,
                cause,
            } => self.close(
                JobEnd::Part {
                    number,
                    made,
                    cause,
                },
                Kept::Nothing,
            ),
            Ended::Recovered {
                number,
                closed,
                lost,
            } => self.close(
                JobEnd::Recovered {
                    number,
                    closed,
                    lost,
                },
                Kept::Nothing,
            ),
            Ended::Mended => self.mended(),
            Ended::Refused(cause) => self.refused(cause),
        }
    }

    /// Hands the reply to the attempt in hand, and says how that has ended, if it has.
    fn hear(&mut self, reply: &Reply) -> Option<Ended>
        requires ready { CanHear self.old reply.now }
        requires trying { IsTrying self.old }
        ensures told { Told self.old self.new reply.now result }
    {
        let blocks = first_blocks(self.script, &self.jobs[self.job as usize..]);
        self.attempt.take(blocks, reply, &mut self.numbers);
        self.attempt.end()
    }

    /// The host stops while the attempt in hand goes on: the job ends as that does.
    fn quit(&mut self)
        requires job { self.old.job < length self.old.jobs.now }
        requires trying { IsAsking self.old }
        requires room { vec_len self.old.contents ≤ vec_capacity self.old.contents }
        ensures stands { (script : Script) (host : HostNo) (p : Progress) → Counts script host self.old p → Quits script host self.old self.new p }
        ensures room { KeepsRoom self.old self.new }
    {
        let end = quit_end(self.tries, self.attempt.quit());
        self.duty = None;
        self.finish_job(end, Kept::Nothing);
    }

    /// Takes the reply to the next request of the attempt in hand.
    fn tell(&mut self, reply: &Reply)
        requires ready { CanHear self.old reply.now }
        requires trying { IsTrying self.old }
        ensures stands { (script : Script) (host : HostNo) (p : Progress) → Stands script host self.old p → Stands script host self.new (work_told script host p reply.now p.work) }
        ensures room { KeepsRoom self.old self.new }
    {
        match self.hear(reply) {
            Some(ended) => {
                self.duty = None;
                self.finish(ended);
            }
            None => {
                if self.stops() {
                    self.quit();
                }
            }
        }
    }

    /// A device was lost, or another was fitted for it.
    fn change(&mut self, gone: Gone, end: JobEnd)
        requires job { self.old.job < length self.old.jobs.now }
        requires room { vec_len self.old.contents ≤ vec_capacity self.old.contents }
        ensures stands { (script : Script) (host : HostNo) (p : Progress) → Counts script host self.old p → Stands script host self.new (job_ended script host (record p { gone = Some gone }) end []) }
        ensures room { KeepsRoom self.old self.new }
    {
        self.gone = Some(gone);
        self.duty = None;
        self.close(end, Kept::Nothing);
    }

    /// Counts a call.
    fn note(&mut self, bay: BayNo, ask: &Ask, answer: &Answer)
        requires room { vec_len self.old.transcript < vec_capacity self.old.transcript }
        requires kept { IsTrue (are_kept ask.now.what answer.now.reply) }
        ensures noted { IsNoted self.old self.new answer.now.clock }
        ensures call { self.new.transcript.items ≡ self.old.transcript.items ++ (record { bay = bay; ask = ask.now; answer = answer.now }) ∷ [] }
        ensures room { vec_capacity self.new.transcript ≡ vec_capacity self.old.transcript }
    {
        self.transcript.push_reserved(Call::of(bay, ask, answer));
        self.clock = answer.clock;
        self.asked += 1;
    }

    /// Takes the answer to this ask, which the host has handed out at this moment for this bay.
    pub fn heard(&mut self, moment: u64, bay: BayNo, ask: &Ask, answer: &Answer)
        requires ready { CanTake self.old moment answer.now }
        requires sent { IsSentBy self.old moment (record { bay = bay; ask = ask.now }) }
        ensures { (sent : Sent) → IsSentBy self.old moment sent → Takes self.old self.new moment answer.now sent }
    {
        self.note(bay, ask, answer);
        match self.duty {
            Some(Duty::Trying) => self.tell(&answer.reply),
            Some(Duty::Losing(bay)) => {
                let gone = Gone { bay, fitted: false };
                self.change(gone, JobEnd::Lost);
            }
            Some(Duty::Fitting(bay)) => {
                let gone = Gone { bay, fitted: true };
                self.change(gone, JobEnd::Fitted);
            }
            None => unreachable!(),
        }
    }

    /// Takes the answer to the request that comes next at this moment.
    pub fn take(&mut self, moment: u64, answer: &Answer)
        requires ready { CanTake self.old moment answer.now }
        ensures { (sent : Sent) → IsSentBy self.old moment sent → Takes self.old self.new moment answer.now sent }
    {
        match self.next(moment) {
            Some((bay, ask)) => self.heard(moment, bay, &ask, answer),
            None => unreachable!(),
        }
    }

    /// A host at its first request. All memory for its attempts, results, contents and calls is taken here.
    pub fn make(alloc: Global, no: HostNo, script: &'s Script) -> Result<Host<'s>, NoMemory>
        requires host { no.0 < 16 }
        requires few { length (jobs_of script.now no) < 2 ^ 32 }
        requires aimed { are_aimed script.now.n (jobs_of script.now no) ≡ true }
        requires sized { are_sized (jobs_of script.now no) ≡ true }
        requires held { are_held (length script.now.blocks) (jobs_of script.now no) ≡ true }
        ensures { IfOk result (IsFreshHost script.now no) }
    {
        let jobs = lookup::jobs_of(script, no);
        let mut host = Host {
            no,
            script,
            jobs,
            job: 0,
            asked: 0,
            tries: 0,
            row: 0,
            gone: None,
            numbers: Numbers::new(no),
            clock: 0,
            duty: None,
            attempt: Attempt::new(alloc)?,
            results: with_room(alloc, jobs.len())?,
            contents: with_room(alloc, contents_in(jobs))?,
            transcript: with_room(alloc, requests_in(script, jobs))?,
        };
        host.start();
        Ok(host)
    }

    /// The results so far, in the order of the jobs.
    pub fn results(&self) -> &[JobResult]
        ensures { result.now ≡ self.now.results.items }
    {
        self.results.as_slice()
    }

    /// What a job has read, in the order of its blocks: nothing where it is no read that is done.
    pub fn contents(&self, job: u32) -> &[Content]
        ensures { (script : Script) (host : HostNo) (p : Progress) → Stands script host self.now p → AreEndings script host p.endings → result.now ≡ contents_at p.endings job }
    {
        contents_of(
            self.jobs,
            self.results.as_slice(),
            self.contents.as_slice(),
            job,
        )
    }

    /// The contents of all reads so far, one after another.
    pub fn read_contents(&self) -> &[Content]
        ensures { result.now ≡ self.now.contents.items }
    {
        self.contents.as_slice()
    }

    /// All calls so far.
    pub fn transcript(&self) -> &[Call]
        ensures { result.now ≡ self.now.transcript.items }
    {
        self.transcript.as_slice()
    }
}
