// The extent of some frames: the smallest and the largest of their numbers.
ghost use Rattle.std.specs.Prelude.{◌≡◌, ◌^◌, ◌<◌};
ghost use Rattle.std.specs.Int.Signed.{mag};

pub mod measure;

// Both fit 32 bits. The extent of no frame has the largest such number for its low, and the smallest for its high,
// so that it is neutral in joining.
#[derive(Clone, Copy, PartialEq, Eq, Debug)]
pub struct Extent {
    pub low: i32,
    pub high: i32,
    ghost lows: { mag low < 2 ^ 31 },
    ghost highs: { mag high < 2 ^ 31 },
}

impl Extent {
    pub fn new(low: i32, high: i32) -> Extent
        ensures { (result.low ≡ low) × (result.high ≡ high) }
    {
        Extent { low, high }
    }
}
