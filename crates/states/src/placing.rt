// A row of a state in the place of another.
ghost use Rattle.std.specs.Prelude.{◌≡◌, ◌<◌, ◌≤◌};
ghost use Rattle.pool.specs.Accounts.{counts_of, SameKept};
ghost use Rattle.pool.specs.Kept.{KeepsRight};
ghost use Rattle.states.specs.Rows.{contents, entries_of};
ghost use Rattle.states.specs.Placed.{Placed};

use crate::state::State;
use frames::Frame;
use pool::Pool;
use rows::Row;
use stores::Store;

// Puts the row in the place of one of the state's: its entries are held, and then those of the old row let go. Where the
// state has no such row nothing changes.
pub fn place_row<S: Store>(pool: &mut Pool<S>, state: &mut State, number: usize, row: Row)
    ensures placed { number < 5 → Placed number (entries_of row) (S.Store.meaning pool.old.store) (counts_of pool.old) (contents state.old) (S.Store.meaning pool.new.store) (counts_of pool.new) (contents state.new) }
    ensures beyond { 5 ≤ number → (pool.new ≡ pool.old) × (state.new ≡ state.old) }
    ensures kept { SameKept pool.old pool.new }
    ensures keeps { KeepsRight S.Kind.Frame S.Store.meaning pool.old pool.new }
{
    if number < 5 {
        pool.hold(row.entries());
        let old = state.swap_row(number, row);
        pool.let_go(old.entries());
    }
}
