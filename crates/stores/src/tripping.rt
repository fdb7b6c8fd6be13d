// A store over another one that fails once, at a put or read of the caller's choice: so that what
// stands above a store can be seen to withstand its failure, and what is put and read be counted.
ghost use Rattle.std.specs.Prelude.{◌≡◌, false};

use crate::store::Store;

pub mod store;

#[derive(Drop)]
pub struct Tripping<S> {
    below: S,
    // The put or read that fails, if one is to, counted from 1, of those that are not refused.
    trip_at: Option<u64>,
    // How many puts and reads were not refused.
    counted: u64,
    tripped: bool,
}

impl<S: Store> Tripping<S> {
    pub fn new(below: S, trip_at: Option<u64>) -> Tripping<S>
        ensures below { result.below ≡ below }
        ensures trip { result.trip_at ≡ trip_at }
        ensures counted { result.counted ≡ 0 }
        ensures tripped { result.tripped ≡ false }
    {
        Tripping {
            below,
            trip_at,
            counted: 0,
            tripped: false,
        }
    }

    // How many puts and reads were not refused.
    pub fn counted(&self) -> u64
        ensures { result ≡ self.now.counted }
    {
        self.counted
    }

    // Gives the store below back.
    pub fn into_below(self) -> S
        ensures { result ≡ self.below }
    {
        self.below
    }
}
