// Putting a block, and keeping its measures.
ghost use Rattle.std.specs.Prelude.{◌≡◌};
ghost use Rattle.measures.specs.Summaries.{frame_summary};
ghost use Rattle.stores.specs.Promise.{Puts};
ghost use Rattle.pool.specs.Accounts.{kept_of, SameCounts};
ghost use Rattle.pool.specs.Kept.{KeepsRight, kept_after};

use crate::pool::Pool;
use frames::Frame;
use measures::{Summary, measure_of};
use stores::{Store, StoreFault};

impl<S: Store> Pool<S> {
    // Puts the frames as a block that nothing names yet, and keeps their measures.
    pub fn put(&mut self, frames: &[S::Kind]) -> Result<usize, StoreFault>
        ensures store { Puts (S.Store.meaning self.old.store) frames.now result (S.Store.meaning self.new.store) }
        ensures counts { SameCounts self.old self.new }
        ensures kept { kept_of self.new ≡ kept_after (frame_summary S.Kind.Frame) (kept_of self.old) frames.now result }
        ensures keeps { KeepsRight S.Kind.Frame S.Store.meaning self.old self.new }
    {
        let number = self.store.put(frames)?;
        if let Some(account) = self.accounts.get_mut(number) {
            account.kept = measure_of::<S::Kind, Summary>(frames);
        }
        Ok(number)
    }
}
