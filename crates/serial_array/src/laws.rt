//! Laws of the serial array, each the contract of a function without a body.
ghost use Rattle.serial_array.specs.Ordered.{ResultsAreSerial, EffectsTouch};

/// Results each with a number of its own, and each in agreement with the array that those with lower numbers leave, are
/// serial: in the order of their numbers they lead from the array of zeros to the one that all of them leave.
pub fn results_are_serial()
    ensures { ResultsAreSerial }
{}

/// The effect of a result leaves a block that it does not touch as it is, and gives one that it touches a content that
/// does not depend on the array before.
pub fn effects_touch()
    ensures { EffectsTouch }
{}
