//! Which replies refuse an attempt, and why.
ghost use Rattle.std.specs.Prelude.{◌≡◌};
ghost use Rattle.attempts.specs.Taking.{behind_from, is_behind, broken, refusal};

use raid_base::{BayNo, Cause, Mode, Number, Reply};

/// From which floor on an attempt is behind: under stamps its own id.
pub fn behind_from(mode: Mode, id: Number) -> Option<Number>
    ensures { result ≡ behind_from mode id }
{
    match mode {
        Mode::Order => Some(id),
        Mode::Lock => None,
    }
}

fn is_behind(least: Option<Number>, floor: Number) -> bool
    ensures { result ≡ is_behind least floor }
{
    match least {
        Some(id) => id.0 <= floor.0,
        None => false,
    }
}

/// Why a missing slot on this bay refuses, after an earlier one on another bay.
fn broken(missing: Option<BayNo>, bay: BayNo) -> Option<Cause>
    ensures { result ≡ broken missing bay }
{
    match missing {
        Some(first) => {
            if first.0 == bay.0 {
                None
            } else {
                Some(Cause::Broken { first, second: bay })
            }
        }
        None => None,
    }
}

/// Why a reply to a share, claim or confirm refuses the attempt, if it does.
///
/// `missing` is the bay that was missing so far.
pub fn refusal(
    least: Option<Number>,
    missing: Option<BayNo>,
    bay: BayNo,
    reply: &Reply,
) -> Option<Cause>
    ensures { result ≡ refusal least missing bay reply.now }
{
    match *reply {
        Reply::Busy { holder } => Some(Cause::Busy { holder }),
        Reply::Late { above } => Some(Cause::Late { above }),
        Reply::Young { note } => Some(Cause::Young { note }),
        Reply::Fault => Some(Cause::Fault { bay }),
        Reply::Missing { floor } => {
            if is_behind(least, floor) {
                Some(Cause::Behind { floor })
            } else {
                broken(missing, bay)
            }
        }
        Reply::Granted { .. } => None,
        Reply::Held { .. } => None,
        Reply::NoNote { .. } => None,
        Reply::Done => None,
        Reply::Emptied => None,
        Reply::Fitted => None,
    }
}
