//! Texts written to a sink, piece by piece.
ghost use Rattle.std.specs.Prelude.{[], ◌∷◌, decimal};
ghost use Rattle.std.specs.List.{flat_map};
ghost use Rattle.text_lines.specs.Blocks.{block_text};
ghost use Rattle.text_lines.specs.Lines.{line, spaced};
ghost use Rattle.text_lines.specs.Writing.{Writes};

use crate::blocks::block_text;
use crate::numbers::number_text;
use raid_base::{Failed, Sink};

/// Writes a piece.
pub fn write_piece<K: Sink>(sink: &mut K, piece: &[u8]) -> Result<(), Failed>
    ensures { Writes K.written K.tells K.faults sink.old sink.new result piece.now }
{
    sink.write_all(piece)
}

/// Writes these pieces, one after another.
pub fn write_pieces<K: Sink>(sink: &mut K, pieces: &[&[u8]]) -> Result<(), Failed>
    ensures { Writes K.written K.tells K.faults sink.old sink.new result (flat_map (λ piece. piece.now) pieces.now) }
{
    for piece in pieces {
        write_piece(sink, *piece)?;
    }
    Ok(())
}

/// Writes a number after a space.
pub fn write_number<K: Sink>(sink: &mut K, number: u64) -> Result<(), Failed>
    ensures { Writes K.written K.tells K.faults sink.old sink.new result (spaced (decimal number)) }
{
    write_pieces(sink, &[b" ", number_text(number).as_slice()])
}

/// Writes a block after a space.
pub fn write_block<K: Sink>(sink: &mut K, block: &[u8; 64]) -> Result<(), Failed>
    ensures { Writes K.written K.tells K.faults sink.old sink.new result (spaced (block_text block.now)) }
{
    write_pieces(sink, &[b" ", block_text(block).as_slice()])
}

/// Writes a line of a word and a number.
pub fn write_numbered<K: Sink>(sink: &mut K, word: &[u8], number: u64) -> Result<(), Failed>
    ensures { Writes K.written K.tells K.faults sink.old sink.new result (line (word.now ∷ decimal number ∷ [])) }
{
    write_pieces(sink, &[word, b" ", number_text(number).as_slice(), b"\n"])
}
