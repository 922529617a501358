//! The cells of the other units of a row.
ghost use Rattle.std.specs.Prelude.{◌≡◌, ◌<◌, ◌≤◌, ◌∷◌, ◌++◌, [], length};

use raid_base::Cell;
use std::marker::Model;

/// The greatest number of units of a row.
const MAX_UNITS: usize = 15;

/// Cells of some units of a row, 15 at most.
#[derive(Drop)]
pub struct PresentCells {
    cells: [Cell; 15],
    len: usize,
}

impl Model for PresentCells {
    ghost use Rattle.std.specs.Prelude.{List, take, ◌≤◌};
    ghost use Rattle.raid_base.specs.declared.cells.Cell.{Cell};

    ghost Value = { List Cell };

    ghost view = { λ p. take p.len p.cells };

    ghost invariant = { λ p. p.len ≤ 15 };
}

impl PresentCells {
    /// No cells yet.
    pub fn new() -> Self
        ensures { result ≡ [] }
    {
        let none = Cell {
            bytes: [0; 64],
            lost: 0,
        };
        PresentCells {
            cells: [none; MAX_UNITS],
            len: 0,
        }
    }

    /// Appends a cell.
    pub fn push(&mut self, cell: Cell)
        requires { length self.old < 15 }
        ensures { self.new ≡ self.old ++ cell ∷ [] }
    {
        self.cells[self.len] = cell;
        self.len += 1;
    }

    /// The cells in order.
    pub fn as_slice(&self) -> &[Cell]
        ensures { result.now ≡ self.now }
    {
        &self.cells[..self.len]
    }
}
