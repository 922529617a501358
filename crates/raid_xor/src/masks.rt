//! Sets of units of a row, as masks: bit i is unit i.

ghost use Rattle.std.specs.Prelude.{◌≡◌, ℕ, ◌<◌};
ghost use Rattle.raid_base.specs.Cells.{has_unit, with_unit, without_unit};

/// Whether a mask has a unit.
pub fn has_unit(mask: u16, unit: u8) -> bool
    requires { unit < 16 }
    ensures { result ≡ has_unit mask unit }
{
    (mask >> unit) & 1 == 1
}

/// The mask with a unit.
pub fn with_unit(mask: u16, unit: u8) -> u16
    requires { unit < 16 }
    ensures { result ≡ with_unit mask unit }
{
    if has_unit(mask, unit) {
        mask
    } else {
        mask + (1 << unit)
    }
}

/// The mask without a unit.
pub fn without_unit(mask: u16, unit: u8) -> u16
    requires { unit < 16 }
    ensures { result ≡ without_unit mask unit }
{
    if has_unit(mask, unit) {
        mask - (1 << unit)
    } else {
        mask
    }
}
