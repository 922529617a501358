//! What a host has in hand.
ghost use Rattle.std.specs.Prelude.{◌≡◌};

use crate::attempt::Attempt;
use raid_base::{BayNo, Errand, Request};

/// The attempt of a host, or a request that is a job of its own.
#[derive(Clone, Copy, Debug, PartialEq)]
pub enum Duty {
    Trying,
    Losing(BayNo),
    Fitting(BayNo),
}

impl Duty {
    ghost use Rattle.histories.specs.Progress.{work_errand};
    ghost use Rattle.host_engine.specs.Left.{work_in};

    /// The next request, and none where the attempt has ended.
    pub fn next(&self, attempt: &Attempt, blocks: &[[u8; 64]]) -> Option<Errand>
        ensures { result ≡ work_errand (work_in self.now attempt.now blocks.now) }
    {
        match self {
            Duty::Trying => attempt.next(blocks),
            Duty::Losing(bay) => Some(Errand {
                bay: *bay,
                request: Request::Lose,
            }),
            Duty::Fitting(bay) => Some(Errand {
                bay: *bay,
                request: Request::Fit,
            }),
        }
    }
}
