// A mono frame: one 16-bit sample.
ghost use Rattle.std.specs.Prelude.{◌≡◌, ◌^◌, ◌<◌};
ghost use Rattle.std.specs.Int.Signed.{mag};

pub mod frame;

// One whole number from -32,768 to 32,767: `mag value < 2 ^ 15`.
#[derive(Clone, Copy, PartialEq, Eq, Debug)]
pub struct Mono {
    pub value: i16,
    ghost fits: { mag value < 2 ^ 15 },
}

impl Mono {
    pub fn new(value: i16) -> Mono
        ensures { result.value ≡ value }
    {
        Mono { value }
    }
}
