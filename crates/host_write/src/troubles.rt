//! Puts that did not go well.
ghost use Rattle.std.specs.Prelude.{◌≡◌, Option, Some, None, not, if◌then◌else◌};

use raid_base::{BayNo, RowPart};
use std::marker::Model;

/// A put that did not go well: the store of a bay failed, or else the note of the part's row was gone.
#[derive(Debug, Drop)]
pub struct Trouble {
    fault: Option<BayNo>,
    part: RowPart,
}

impl Model for Trouble {
    ghost use Rattle.attempts.specs.Puts.{Trouble as TroubleView};
    ghost use Rattle.host_write.specs.Troubles.{trouble_in};

    ghost Value = { TroubleView };

    ghost view = { λ t. trouble_in t.fault t.part };
}

impl Default for Trouble {
    fn default() -> Self {
        Trouble {
            fault: None,
            part: RowPart::default(),
        }
    }
}

impl Trouble {
    ghost use Rattle.host_write.specs.Troubles.{trouble_in};

    pub fn new(fault: Option<BayNo>, part: RowPart) -> Trouble
        ensures { result ≡ trouble_in fault part }
    {
        Trouble { fault, part }
    }

    /// The bay whose store failed, or none where a note was gone, and then the part.
    pub fn told(&self) -> (Option<BayNo>, RowPart)
        ensures { self.now ≡ trouble_in result.0 result.1 }
    {
        (self.fault, self.part)
    }
}
