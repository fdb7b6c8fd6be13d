// Frames out of rows, over any store: a row is read, and the frames of joined stretches are gathered.
#![tactic(auto)]

mod fault;
mod gathering;
mod part;
mod row;
mod stretch;
mod walking;

pub use fault::ReadFault;
pub use gathering::gather;
pub use row::read_row;
pub use rows::row_len;
pub use stretch::Stretch;
