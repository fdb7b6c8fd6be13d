// A stereo frame: a left and a right sample.
ghost use Rattle.std.specs.Prelude.{◌≡◌};

use crate::mono::Mono;

pub mod frame;

#[derive(Clone, Copy, PartialEq, Eq, Debug)]
pub struct Stereo {
    pub left: Mono,
    pub right: Mono,
}

impl Stereo {
    pub fn new(left: i16, right: i16) -> Stereo
        ensures { (result.left.value ≡ left) × (result.right.value ≡ right) }
    {
        Stereo {
            left: Mono::new(left),
            right: Mono::new(right),
        }
    }
}
