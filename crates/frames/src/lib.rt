// Kinds of sound frame: their bytes, their lines of text, and the facts that measures are made of.
#![tactic(auto)]

mod frame;
mod hex;
mod mono;
mod stereo;
#[cfg(test)]
mod tests;

pub use frame::{Frame, TooShort};
pub use mono::Mono;
pub use stereo::Stereo;
