//! The laws of reports, each the contract of a function without a body.
ghost use Rattle.array_cli.specs.Laws.{ReportsAreSerial, ReportsHaveTexts, SimulatedReportsAreOne};
ghost use Rattle.array_cli.specs.Moments.{MomentsAreBounded};

/// Every report is serial: once all hosts have ended, what the report of a history of a script tells of results and blocks is so of
/// an array without devices, in whatever order requests have reached the devices.
pub fn reports_are_serial()
    ensures { ReportsAreSerial }
{}

/// Every report has a text: once all hosts have ended, what the report of a history tells, of notes the hosts and the ids
/// alone, keeps to the ranges and the order of a report's text, and reading that text gives it back. The script's total is
/// at most 2^20, its jobs are fewer than 2^32, and no moment is above 2^40 - 1.
pub fn reports_have_texts()
    ensures { ReportsHaveTexts }
{}

/// The moments of the simulator's history are at most 2^40 - 1, whatever the stores fail.
pub fn moments_are_bounded()
    ensures { MomentsAreBounded }
{}

/// Over stores that fail at the same calls a script has one report. So what `run` prints is what `sim` prints for the script
/// with the turns of the run as its turn lines.
pub fn simulated_reports_are_one()
    ensures { SimulatedReportsAreOne }
{}
