// A pool over a store, with an account for each of its numbers.
ghost use Rattle.std.specs.Prelude.{◌≡◌, ℕ, [], replicate, MatchResult, OnOk};
ghost use Rattle.stores.specs.Meaning.{capacity, block};
ghost use Rattle.pool.specs.Accounts.{no_account};
ghost use Rattle.pool.specs.Kept.{KeptRight};

use crate::account::Account;
use crate::pool::Pool;
use frames::Frame;
use measures::{Measure, Summary};
use std::alloc::{AllocError, Global};
use stores::Store;

impl<S: Store> Pool<S> {
    // The store, with no accounts yet.
    pub fn new(heap: Global, store: S) -> Pool<S>
        ensures store { result.store ≡ store }
        ensures accounts { result.accounts.items ≡ [] }
    {
        Pool {
            store,
            accounts: Vec::new(heap),
        }
    }

    // Accounts for all numbers, each with a count of 0. Over a store without blocks, what is kept of blocks is right.
    pub fn start(&mut self, heap: Global) -> Result<(), AllocError>
        ensures store { self.new.store ≡ self.old.store }
        ensures accounts { MatchResult result (λ _. self.new.accounts.items ≡ replicate (capacity (S.Store.meaning self.old.store)) no_account) (λ _. self.new.accounts ≡ self.old.accounts) }
        ensures keeps { OnOk result (((n : ℕ) → block (S.Store.meaning self.old.store) n ≡ []) → KeptRight S.Kind.Frame S.Store.meaning self.new) }
    {
        let none = Account {
            count: 0,
            kept: <Summary as Measure<S::Kind>>::none(),
        };
        self.accounts = vec![in heap; none; self.store.capacity()]?;
        Ok(())
    }
}
