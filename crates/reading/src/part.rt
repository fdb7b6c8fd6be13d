// The parts that a sequence of frames over a store is joined of.
ghost use Rattle.std.specs.Prelude.{◌≡◌, ℕ, ◌+◌, ◌<◌, ◌≤◌, List, length};
ghost use Rattle.stores.specs.Meaning.{Meaning};
ghost use Rattle.stores.specs.declared.fault.StoreFault.{StoreFault};
ghost use Rattle.reading.specs.Faults.{Leaves};
ghost use Rattle.reading.specs.Parts.{Fills};

use stores::{Store, StoreFault};

pub(crate) trait Part<S: Store> {
    // How many frames the part says that it has.
    ghost size: { Self → ℕ };

    // Its frames in a store.
    ghost frames: { Meaning S.Kind → Self → List S.Kind };

    // What ties it to the store.
    ghost tied: { Meaning S.Kind → Self → Type 0 };

    // What holds of a store that frames of a part were filled from.
    ghost serves: { Meaning S.Kind → Type 0 };

    // How a fill that failed is told, from an offset on and by the buffer before and after.
    ghost fails: { Meaning S.Kind → Self → ℕ → List S.Kind → StoreFault → List S.Kind → Meaning S.Kind → Type 0 };

    fn len(&self) -> usize
        ensures { result ≡ size self.now };

    // Fills the buffer with the frames of the part from `skip` on.
    fn fill(&self, store: &mut S, skip: usize, buffer: &mut [S::Kind]) -> Result<(), StoreFault>
        requires some { 0 < length buffer.old }
        requires within { skip + length buffer.old ≤ size self.now }
        ensures store { Leaves (λ f. f.error) result (S.meaning store.old) (S.meaning store.new) }
        ensures told { tied (S.meaning store.old) self.now → Fills (frames (S.meaning store.old) self.now) (serves (S.meaning store.old)) (fails (S.meaning store.old) self.now skip) skip buffer.old result buffer.new (S.meaning store.old) (S.meaning store.new) };

    // A part that is tied to the store has as many frames as it says.
    ghost sized: { (m : Meaning S.Kind) (x : Self) → tied m x → length (frames m x) ≡ size x };
}
