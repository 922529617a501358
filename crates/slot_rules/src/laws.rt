//! What holds of every bay and every ask, and of every run of asks from the start.
//!
//! Each law is what an empty function ensures. Who stands on one calls it.
ghost use Rattle.slot_rules.specs.Laws.{RepliesFit, RefusalsLeaveTheBay, FaultsComeOfStores, SlotsStep, NotesHoldOffShares, LivesTellLosses, NotesHaveOrigins, NumbersAreCovered, ReadersHoldOffNotes, ReleasesFindHolders, EmptyBaysAreBare};

/// The reply always fits the request.
pub fn replies_fit()
    ensures { RepliesFit }
{}

/// A refusal leaves the bay as it was, but for a seizure that closes a note on a blank slot.
pub fn refusals_leave_the_bay()
    ensures { RefusalsLeaveTheBay }
{}

/// A fault comes only of a store that is needed and fails, and then nothing changes.
pub fn faults_come_of_stores()
    ensures { FaultsComeOfStores }
{}

/// What a request of a row does to its slot: its numbers rise, and cover those that the reply shows; the life shown is
/// the bay's; a note comes of a granted claim or was open; and readers hold off claims.
pub fn slots_step()
    ensures { SlotsStep }
{}

/// While a note is open no share with an id above its origin is granted under stamps, and none at all under locks.
pub fn notes_hold_off_shares()
    ensures { NotesHoldOffShares }
{}

/// Two lives that are shown differ by the number of losses in between.
pub fn lives_tell_losses()
    ensures { LivesTellLosses }
{}

/// A note has the origin and the mask of the claim that opened it, however often it was seized since.
pub fn notes_have_origins()
    ensures { NotesHaveOrigins }
{}

/// Every number under which a slot was read or written is covered: by the bay's high number always, and by the slot's
/// number while its device is there.
pub fn numbers_are_covered()
    ensures { NumbersAreCovered }
{}

/// While a reader stands no note opens but its own, or by a seizure, which removes all readers.
pub fn readers_hold_off_notes()
    ensures { ReadersHoldOffNotes }
{}

/// A release that was done found a note or a reader of its id.
pub fn releases_find_holders()
    ensures { ReleasesFindHolders }
{}

/// A bay without a device has only blank slots, and nothing stands on them.
pub fn empty_bays_are_bare()
    ensures { EmptyBaysAreBare }
{}
