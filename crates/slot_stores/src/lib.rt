// Block stores that keep each block in a slot of one size: in memory, and in the bytes of an image.
#![tactic(auto)]

mod check;
mod image;
mod memory;
mod slots;
#[cfg(test)]
mod tests;

pub use image::ImageStore;
pub use image::reached::checks_stand;
pub use memory::MemoryStore;
