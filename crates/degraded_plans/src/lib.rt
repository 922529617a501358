//! Plans of a row with a missing slot: what is missing, and what the other slots make of it.
#![tactic(auto)]

ghost use Rattle.std.specs.Prelude.{◌≡◌, ℕ, ◌∷◌, ◌<◌};
ghost use Rattle.raid_xor.specs.Sums.{sum_of};
ghost use Rattle.degraded_plans.specs.Missing.{missing_of};

pub use kinds::{RowKind, kind};
pub use laws::{cells_are_read_freely, rows_stay_sound};
pub use raid_base::Cell;

pub mod kinds;
pub mod laws;

use raid_xor::{has_unit, xor_into};

/// The sum of the parity and some units' cells.
fn sum_with(parity: &Cell, others: &[Cell]) -> [u8; 64]
    ensures { result ≡ sum_of (parity.now ∷ others.now) }
{
    let mut sum = [0; 64];
    xor_into(&mut sum, &parity.bytes);
    for cell in others {
        xor_into(&mut sum, &cell.bytes);
    }
    sum
}

/// The missing cell of a unit, from the parity and the other units' cells.
///
/// It is lost where the parity says so, and otherwise the sum of all other cells.
pub fn missing_of(parity: &Cell, others: &[Cell], unit: u8) -> Cell
    requires { unit < 15 }
    ensures { result ≡ missing_of parity.now others.now unit }
{
    if has_unit(parity.lost, unit) {
        return Cell {
            bytes: [0; 64],
            lost: 1 << unit,
        };
    }
    Cell {
        bytes: sum_with(parity, others),
        lost: 0,
    }
}

#[cfg(test)]
mod tests {
    use super::*;

    #[test]
    fn makes_missing_cells(rt: HostRuntime) {
        let others = [
            Cell {
                bytes: [1; 64],
                lost: 0,
            },
            Cell {
                bytes: [0; 64],
                lost: 0b10,
            },
        ];
        let parity = Cell {
            bytes: [7; 64],
            lost: 0b10,
        };
        assert_eq!(rt;
            missing_of(&parity, &others, 2),
            Cell {
                bytes: [6; 64],
                lost: 0
            }
        );
        assert_eq!(rt;
            missing_of(&parity, &others, 1),
            Cell {
                bytes: [0; 64],
                lost: 0b10
            }
        );
        rows_stay_sound();
        cells_are_read_freely();
    }
}
