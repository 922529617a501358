//! Laws of merges, each the contract of a function without a body.
ghost use Rattle.clock_merge.specs.Rising.{JournalsRise, ReplaysTick, TicksRise};
ghost use Rattle.clock_merge.specs.Tied.{MergedCallsAreTied, MergedPlaysAreTied, MergesAreUnique};

/// Journals of bays whose clocks tick, tied to transcripts of hosts of a script, are those of the calls of their merge,
/// whatever was replied. Each call is the next of its host, and its turn is the merge's. Each bay is where its journal alone
/// leads, and each host where its transcript does, so results, contents and whether all have ended are told by transcripts.
pub fn merged_calls_are_tied()
    ensures { MergedCallsAreTied }
{}

/// Where the journals keep to the slot rule, these calls are a history: the play of the turns of the merge, with the faults
/// that the journals tell, gives just these journals and transcripts.
pub fn merged_plays_are_tied()
    ensures { MergedPlaysAreTied }
{}

/// Journals have at most one merge.
pub fn merges_are_unique()
    ensures { MergesAreUnique }
{}

/// Clocks rise along each journal that keeps to the slot rule, so such journals can be merged.
pub fn journals_rise()
    ensures { JournalsRise }
{}

/// So they do where each clock is one above the greater of the one before it and its ask's, as in each such journal.
pub fn ticks_rise()
    ensures rise { TicksRise }
    ensures replays { ReplaysTick }
{}
