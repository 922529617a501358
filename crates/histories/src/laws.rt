//! Laws of histories, each the contract of a function without a body.
ghost use Rattle.histories.specs.Played.{PlaysAreHistories, HistoriesArePlays};
ghost use Rattle.histories.specs.Simulated.{TurnLinesAreFree, EndedAreSimulated};
ghost use Rattle.histories.specs.HostLaws.{RequestsAreBounded, CausesAreMet};
ghost use Rattle.histories.specs.HostRuns.{HostRunsKeepQuotas};
ghost use Rattle.histories.specs.Quotas.{RequestsKeepQuotas, TotalsCoverRequests};
ghost use Rattle.histories.specs.Endings.{EndingsAreFilled};
ghost use Rattle.histories.specs.Smallness.{NumbersStaySmall};
ghost use Rattle.histories.specs.Completeness.{PlainCallsAreUnrefused, UnrefusedJobsAreDone, UnrefusedAttemptsGoOn};
ghost use Rattle.histories.specs.Hands.{HandsHoldAttempts, HandsKeepPhases};
ghost use Rattle.histories.specs.Missing.{OneIsMissing, RebuildsMeetNoGone};
ghost use Rattle.histories.specs.Ids.{IdsAreApart};
ghost use Rattle.histories.specs.Accesses.{AccessesAreCovered};

/// Every play of turns, with whatever faults of the stores, is a history, and so is the simulator's.
pub fn plays_are_histories()
    ensures { PlaysAreHistories }
{}

/// Every history is the play of its own turns with the faults that it tells.
pub fn histories_are_plays()
    ensures { HistoriesArePlays }
{}

/// Where hosts and bays stand after some calls does not hang on the turn lines of the script. So a history at whose end all
/// hosts have ended is the simulator's, for the script that has the turns of that history as its turn lines.
pub fn histories_are_simulated()
    ensures turns { TurnLinesAreFree }
    ensures simulated { EndedAreSimulated }
{}

/// Along every history of a script each host has requests enough for what it has left to do: only hosts of the script
/// ask, each at most as often as all allowed attempts of its jobs together, and no clock is above the number of calls.
pub fn requests_are_bounded()
    ensures { RequestsAreBounded }
{}

/// And each host asks each single bay at most as often as its quota says, so no bay is asked more often than all quotas
/// together.
pub fn requests_keep_quotas()
    ensures { RequestsKeepQuotas }
{}

/// So does each host by itself, whatever it is answered: by its calls alone it asks no bay more often than its quota, makes
/// no more requests than its jobs may need, and keeps room for what is left of them.
pub fn host_runs_keep_quotas()
    ensures { HostRunsKeepQuotas }
{}

/// A script's total is that of all quotas at all bays, and all allowed attempts of its hosts together ask no more than that.
pub fn totals_cover_requests()
    ensures { TotalsCoverRequests }
{}

/// After every list of calls the jobs of a host that have ended are its first ones, and a read that is done has a content
/// for each of its blocks, while no other job has any.
pub fn endings_are_filled()
    ensures { EndingsAreFilled }
{}

/// Along every history of a script each result that gives a cause has it: the reply stands in the calls of the job's last
/// attempt, and a job is given up after all its tries, unless its host stops or numbers are spent.
pub fn causes_are_met()
    ensures { CausesAreMet }
{}

/// Along every history of a script whose total is at most 2^20 numbers stay below 2^26, far from their end: what each host
/// has seen, the ids and numbers of requests, and the numbers that replies show. No job is given up, or done in part, for
/// want of numbers.
pub fn numbers_stay_small()
    ensures { NumbersStaySmall }
{}

/// No reply refuses an attempt where none is a refusal by the rules of slots. The rules of attempts refuse less: one missing
/// bay is no refusal, nor is the reply to a release that tells no number.
pub fn plain_calls_are_unrefused()
    ensures { PlainCallsAreUnrefused }
{}

/// Along every history of a script whose total is at most 2^20 a read or a write that has parts is done where no reply
/// refused its last attempt, and its host did not stop in it.
pub fn unrefused_jobs_are_done()
    ensures { UnrefusedJobsAreDone }
{}

/// And such a job is not tried again: after a call that refuses its attempt no more than the calls before it did, and with
/// which its host does not stop in it, the attempt is under way, or the job is done with it.
pub fn unrefused_attempts_go_on()
    ensures { UnrefusedAttemptsGoOn }
{}

/// After every call of a history what a host has in hand is what is left of an attempt of its job, with an id of its own,
/// after the calls of that attempt and their replies.
pub fn hands_hold_attempts()
    ensures { HandsHoldAttempts }
{}

/// And it keeps the phases of its kind: what it may ask next goes by what its calls have claimed, were granted, have
/// confirmed and have put.
pub fn hands_keep_phases()
    ensures { HandsKeepPhases }
{}

/// One bay is missing at most: after every history of a script two bays that have a slot without a cell are the same.
pub fn one_bay_is_missing()
    ensures { OneIsMissing }
{}

/// So a rebuild meets no slot that is gone: in every history of a script none ends with that cause.
pub fn rebuilds_meet_no_gone()
    ensures { RebuildsMeetNoGone }
{}

/// No two attempts have one id: after every history of a script each id that was asked with is its host's, who has seen
/// it, all calls with the id of an attempt in hand are that attempt's, and a note has the id of a claim of its host.
pub fn ids_are_apart()
    ensures { IdsAreApart }
{}

/// After every history of a script the number of each read and write of a slot is at most the bay's high number, and at
/// most the slot's own numbers while its device is there.
pub fn accesses_are_covered()
    ensures { AccessesAreCovered }
{}
