// Rows of blocks: the pieces that a span has of a row, and how pieces are mended into blocks of a good size.
#![tactic(auto)]

mod cutting;
mod entry;
pub mod laws;
mod length;
mod mending;
mod piece;
mod row;

pub use cutting::pieces_of;
pub use entry::Entry;
pub use length::row_len;
pub use mending::{mend, new_blocks};
pub use piece::Piece;
pub use row::Row;

#[cfg(test)]
mod tests;
