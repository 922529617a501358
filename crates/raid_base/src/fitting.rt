//! Which replies a bay may give to a request.
ghost use Rattle.std.specs.Prelude.{◌≡◌};
ghost use Rattle.raid_base.specs.Fits.{fits_want, fits_shown, fits_share, fits_claim, fits_confirm, fits_put, fits_release, fits};

use crate::cells::Cell;
use crate::messages::{How, Reply, Request};

/// A cell comes only where it is wanted.
fn fits_want(want: bool, cell: &Option<Cell>) -> bool
    ensures { result ≡ fits_want want cell.now }
{
    want || cell.is_none()
}

/// A cell comes exactly where it is wanted.
fn fits_shown(want: bool, cell: &Option<Cell>) -> bool
    ensures { result ≡ fits_shown want cell.now }
{
    if want { cell.is_some() } else { cell.is_none() }
}

fn fits_share(want: bool, reply: &Reply) -> bool
    ensures { result ≡ fits_share want reply.now }
{
    match reply {
        Reply::Granted { cell, seized, .. } => fits_shown(want, cell) && seized.is_none(),
        Reply::Missing { .. } | Reply::Busy { .. } | Reply::Late { .. } => true,
        Reply::Fault => want,
        _ => false,
    }
}

fn fits_plain(want: bool, reply: &Reply) -> bool
    ensures { result ≡ fits_claim How.Plain want reply.now }
{
    match reply {
        Reply::Granted { cell, seized, .. } => fits_shown(want, cell) && seized.is_none(),
        Reply::Missing { .. } | Reply::Busy { .. } | Reply::Late { .. } => true,
        Reply::Fault => want,
        _ => false,
    }
}

fn fits_seize(want: bool, reply: &Reply) -> bool
    ensures { result ≡ fits_claim How.Seize want reply.now }
{
    match reply {
        Reply::Granted { cell, .. } => fits_shown(want, cell),
        Reply::Missing { .. } | Reply::Young { .. } => true,
        Reply::Fault => want,
        _ => false,
    }
}

fn fits_mend(want: bool, reply: &Reply) -> bool
    ensures { result ≡ fits_claim How.Mend want reply.now }
{
    match reply {
        Reply::Granted { cell, seized, .. } => fits_want(want, cell) && seized.is_none(),
        Reply::Missing { .. } | Reply::Busy { .. } => true,
        Reply::Fault => want,
        _ => false,
    }
}

fn fits_claim(how: How, want: bool, reply: &Reply) -> bool
    ensures { result ≡ fits_claim how want reply.now }
{
    match how {
        How::Plain => fits_plain(want, reply),
        How::Seize => fits_seize(want, reply),
        How::Mend => fits_mend(want, reply),
    }
}

fn fits_confirm(want: bool, reply: &Reply) -> bool
    ensures { result ≡ fits_confirm want reply.now }
{
    match reply {
        Reply::Held { cell } => fits_want(want, cell),
        Reply::Missing { .. } | Reply::NoNote { .. } => true,
        Reply::Fault => want,
        _ => false,
    }
}

fn fits_put(reply: &Reply) -> bool
    ensures { result ≡ fits_put reply.now }
{
    matches!(reply, Reply::Done | Reply::NoNote { .. } | Reply::Fault)
}

fn fits_release(reply: &Reply) -> bool
    ensures { result ≡ fits_release reply.now }
{
    matches!(reply, Reply::Done | Reply::NoNote { .. })
}

/// Whether the reply is one that a bay may give to the request.
///
/// A cell is shown only where it is wanted, and a `Fault` comes only where the request reads or writes the store.
pub fn fits(request: &Request, reply: &Reply) -> bool
    ensures { result ≡ fits request.now reply.now }
{
    match *request {
        Request::Share { want, .. } => fits_share(want, reply),
        Request::Claim { how, want, .. } => fits_claim(how, want, reply),
        Request::Confirm { want, .. } => fits_confirm(want, reply),
        Request::Put { .. } => fits_put(reply),
        Request::Release { .. } => fits_release(reply),
        Request::Lose => matches!(reply, Reply::Emptied),
        Request::Fit => matches!(reply, Reply::Fitted),
    }
}
