//! The exclusive-or of blocks, by which a row's parity tells a missing unit, and sets of a row's units.
#![tactic(auto)]

ghost use Rattle.std.specs.Prelude.{◌≡◌};
ghost use Rattle.raid_xor.specs.Sums.{xor_of, sum_of};
ghost use Rattle.raid_xor.specs.Laws.{Commutes, Associates, HasZero, IsSelfInverse, MakesBlocks, SumsAdd};

pub mod masks;

pub use masks::{has_unit, with_unit, without_unit};
use raid_base::Cell;
use std::simd::prelude::*;

/// Adds `from` to `to`, byte by byte.
#[inline(always)]
pub fn xor_into(to: &mut [u8; 64], from: &[u8; 64])
    ensures { to.new ≡ xor_of to.old from.now }
{
    let sum = u8x64::from_array(*to) ^ u8x64::from_array(*from);
    *to = sum.to_array();
}

/// The sum of the cells' bytes, zeros where there is no cell.
pub fn sum_of(cells: &[Cell]) -> [u8; 64]
    ensures { result ≡ sum_of cells.now }
{
    let mut sum = [0; 64];
    for cell in cells {
        xor_into(&mut sum, &cell.bytes);
    }
    sum
}

/// The exclusive-or of blocks is a sum in which each block is its own opposite.
pub fn blocks_add_up()
    ensures commutes { Commutes }
    ensures associates { Associates }
    ensures zero { HasZero }
    ensures inverse { IsSelfInverse }
    ensures blocks { MakesBlocks }
    ensures sums { SumsAdd }
{}

#[cfg(test)]
mod tests {
    use super::*;

    #[test]
    fn adds_blocks(rt: HostRuntime) {
        let mut sum = [0b1100; 64];
        let mut other = [0b1010; 64];
        other[63] = 0xff;
        xor_into(&mut sum, &other);
        assert_eq!(rt; sum[0], 0b0110);
        assert_eq!(rt; sum[62], 0b0110);
        assert_eq!(rt; sum[63], 0xf3);
        blocks_add_up();
    }

    #[test]
    fn sums_cells(rt: HostRuntime) {
        let cells = [1, 2, 4].map(|byte| Cell {
            bytes: [byte; 64],
            lost: 0,
        });
        for (count, sum) in [(0usize, 0u8), (1, 1), (2, 3), (3, 7)] {
            assert_eq!(rt; sum_of(&cells[..count]), [sum; 64], "of {count} cells");
        }
    }

    #[test]
    fn keeps_masks(rt: HostRuntime) {
        assert_eq!(rt; has_unit(0b101, 2), true);
        assert_eq!(rt; has_unit(0b101, 1), false);
        assert_eq!(rt; with_unit(0b101, 1), 0b111);
        assert_eq!(rt; with_unit(0b101, 2), 0b101);
        assert_eq!(rt; without_unit(0b101, 2), 0b001);
        assert_eq!(rt; without_unit(0b101, 15), 0b101);
        assert_eq!(rt; with_unit(0, 15), 0x8000);
    }
}
