//! What the texts of scripts and reports are made of: decimal numbers, blocks in hexadecimal digits, and lines of words.
#![tactic(auto)]

pub mod blocks;
pub mod lines;
pub mod numbers;
pub mod words;
pub mod writing;

pub use blocks::{block_text, read_block};
pub use lines::{FirstLine, first_line, read_labelled};
pub use numbers::{number_text, read_number};
pub use words::{behind_word, behind_words, first_word, is_joined};
pub use writing::{write_block, write_number, write_numbered, write_piece, write_pieces};
