// Holding entries and letting them go.
ghost use Rattle.std.specs.Prelude.{◌≡◌, ℕ, ◌+◌, ◌-◌, ◌^◌, ◌<◌, vec_len, slice_index};
ghost use Rattle.pool.specs.Accounts.{counts_of, SameKept};
ghost use Rattle.pool.specs.Counts.{once, naming};
ghost use Rattle.pool.specs.Freed.{Freed};
ghost use Rattle.pool.specs.Kept.{KeepsRight};

use crate::pool::Pool;
use frames::Frame;
use rows::Entry;
use stores::Store;

// That the store and the number of accounts stay is said as it is: a name for one field's staying would be no shorter.
impl<S: Store> Pool<S> {
    // How many entries name the number.
    pub fn count(&self, number: usize) -> u32
        ensures { result ≡ slice_index (counts_of self.now) number }
    {
        self.accounts.get(number).map_or(0, |account| account.count)
    }

    // The entries name their blocks once more. Counts are exact below 2 ^ 32; an entry of no number is passed over.
    pub fn hold(&mut self, entries: &[Entry])
        ensures store { self.new.store ≡ self.old.store }
        ensures kept { SameKept self.old self.new }
        ensures len { vec_len self.new.accounts ≡ vec_len self.old.accounts }
        ensures counts { (n : ℕ) → n < vec_len self.old.accounts → slice_index (counts_of self.old) n + naming n entries.now < 2 ^ 32 → slice_index (counts_of self.new) n ≡ slice_index (counts_of self.old) n + naming n entries.now }
    {
        for entry in entries {
            self.raise(entry.block);
        }
    }

    // One entry more names the number.
    fn raise(&mut self, number: usize)
        ensures store { self.new.store ≡ self.old.store }
        ensures kept { SameKept self.old self.new }
        ensures len { vec_len self.new.accounts ≡ vec_len self.old.accounts }
        ensures counts { (n : ℕ) → n < vec_len self.old.accounts → slice_index (counts_of self.old) n + once n number < 2 ^ 32 → slice_index (counts_of self.new) n ≡ slice_index (counts_of self.old) n + once n number }
    {
        if let Some(account) = self.accounts.get_mut(number) {
            account.count = account.count.saturating_add(1);
        }
    }

    // The entries name their blocks no more. A block whose count falls to 0 is released.
    pub fn let_go(&mut self, entries: &[Entry])
        ensures kept { SameKept self.old self.new }
        ensures len { vec_len self.new.accounts ≡ vec_len self.old.accounts }
        ensures counts { (n : ℕ) → slice_index (counts_of self.new) n ≡ slice_index (counts_of self.old) n - naming n entries.now }
        ensures freed { Freed (S.Store.meaning self.old.store) (counts_of self.old) (S.Store.meaning self.new.store) (counts_of self.new) }
        ensures keeps { KeepsRight S.Kind.Frame S.Store.meaning self.old self.new }
    {
        for entry in entries {
            self.lower(entry.block);
        }
    }

    // One entry less names the number; where none is left, its block is released.
    fn lower(&mut self, number: usize)
        ensures kept { SameKept self.old self.new }
        ensures len { vec_len self.new.accounts ≡ vec_len self.old.accounts }
        ensures counts { (n : ℕ) → slice_index (counts_of self.new) n ≡ slice_index (counts_of self.old) n - once n number }
        ensures freed { Freed (S.Store.meaning self.old.store) (counts_of self.old) (S.Store.meaning self.new.store) (counts_of self.new) }
    {
        let Some(account) = self.accounts.get_mut(number) else {
            return;
        };
        let Some(left) = account.count.checked_sub(1) else {
            return;
        };
        account.count = left;
        if left == 0 {
            let _ = self.store.release(number);
        }
    }
}
