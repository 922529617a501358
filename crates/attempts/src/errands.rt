//! The errands of an attempt.
ghost use Rattle.std.specs.Prelude.{◌≡◌, ◌+◌, ◌≤◌, true, length};
ghost use Rattle.arrayvec.specs.ArrayVec.{array_vec_len};
ghost use Rattle.raid_base.specs.declared.messages.Request.TheVariants.{Share, Claim};
ghost use Rattle.attempts.specs.Taking.{share, shares, claim, claims, confirm};
ghost use Rattle.attempts.specs.Releases.{release};
ghost use Rattle.attempts.specs.Puts.{put};
ghost use Rattle.attempts.specs.Batches.{with_releases};

use crate::queue::{Queue, Releases};
use crate::units::Bays;
use raid_base::{BayNo, Cell, Errand, How, Number, Request, RowNo};

/// What a share asks, with the cell.
fn share_request(id: Number, row: RowNo) -> Request
    ensures { result ≡ Share row id true }
{
    Request::Share {
        row,
        id,
        want: true,
    }
}

/// A share of a slot with its cell.
pub fn share(id: Number, row: RowNo, bay: BayNo) -> Errand
    ensures { result ≡ share id row bay }
{
    Errand {
        bay,
        request: share_request(id, row),
    }
}

/// What a claim asks.
fn claim_request(id: Number, row: RowNo, how: How, mask: u16, want: bool) -> Request
    ensures { result ≡ Claim row id how mask want }
{
    Request::Claim {
        row,
        id,
        how,
        mask,
        want,
    }
}

/// A claim of a slot.
pub fn claim(id: Number, row: RowNo, how: How, mask: u16, want: bool, bay: BayNo) -> Errand
    ensures { result ≡ claim id row how mask want bay }
{
    Errand {
        bay,
        request: claim_request(id, row, how, mask, want),
    }
}

/// A confirm of a note.
pub fn confirm(id: Number, row: RowNo, want: bool, bay: BayNo) -> Errand
    ensures { result ≡ confirm id row want bay }
{
    Errand {
        bay,
        request: Request::Confirm { row, id, want },
    }
}

/// A put of a cell with its number.
pub fn put(id: Number, row: RowNo, number: Number, cell: Cell, bay: BayNo) -> Errand
    ensures { result ≡ put id row number cell bay }
{
    Errand {
        bay,
        request: Request::Put {
            row,
            id,
            number,
            cell,
        },
    }
}

/// A release of a note or a reader.
pub fn release(id: Number, row: RowNo, number: Option<Number>, bay: BayNo) -> Errand
    ensures { result ≡ release id row number bay }
{
    Errand {
        bay,
        request: Request::Release { row, id, number },
    }
}

/// Shares of the slots on these bays.
pub fn shares(id: Number, row: RowNo, bays: Bays) -> Queue
    requires { array_vec_len bays ≤ 32 }
    ensures { result ≡ shares id row bays.items }
{
    Queue::each(share_request(id, row), bays)
}

/// Claims of the slots on these bays.
pub fn claims(id: Number, row: RowNo, how: How, want: bool, bays: Bays) -> Queue
    requires { array_vec_len bays ≤ 32 }
    ensures { result ≡ claims id row how want bays.items }
{
    Queue::each(claim_request(id, row, how, 0, want), bays)
}

/// Adds releases of what is held on these bays of a row.
pub fn push_releases(releases: &mut Releases, row: RowNo, bays: &[BayNo])
    requires { length releases.old.errands + length bays.now ≤ 256 }
    ensures value { releases.new ≡ with_releases releases.old row bays.now }
    ensures len { length releases.new.errands ≡ length releases.old.errands + length bays.now }
{
    for bay in bays {
        releases.push(row, *bay);
    }
}
