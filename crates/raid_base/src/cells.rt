//! What a slot keeps, and what a host makes of it.
ghost use Rattle.std.specs.Prelude.{◌≡◌};
ghost use Rattle.raid_base.specs.Cells.{content_of};

/// A block with its mark.
///
/// The `lost` of a data cell is 0, or the bit of its own unit. That of a parity cell is the set of lost units of its
/// row. The bytes of a lost cell are zeros.
#[derive(Clone, Copy, Debug, PartialEq, Eq)]
pub struct Cell {
    pub bytes: [u8; 64],
    pub lost: u16,
}

impl Default for Cell {
    fn default() -> Self {
        Cell {
            bytes: [0; 64],
            lost: 0,
        }
    }
}

/// The content of a block.
#[derive(Clone, Copy, Debug, PartialEq, Eq)]
pub enum Content {
    Bytes([u8; 64]),
    Lost,
}

impl Default for Content {
    fn default() -> Self {
        Content::Lost
    }
}

/// What a report shows of a block: its content, or nothing where it is missing and can't be told.
#[derive(Clone, Copy, Debug, PartialEq, Eq)]
pub enum Shown {
    Seen(Content),
    Hidden,
}

/// The content that a cell stands for: `Lost` exactly where its mark isn't 0, and else its bytes.
pub fn content_of(cell: &Cell) -> Content
    ensures { result ≡ content_of cell.now }
{
    if cell.lost == 0 {
        Content::Bytes(cell.bytes)
    } else {
        Content::Lost
    }
}
