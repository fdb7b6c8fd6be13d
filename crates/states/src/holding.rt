// The entries of a whole state, held and let go.
ghost use Rattle.std.specs.Prelude.{◌≡◌, ℕ, ◌+◌, ◌-◌, ◌^◌, ◌<◌, vec_len, slice_index};
ghost use Rattle.pool.specs.Accounts.{counts_of, SameKept};
ghost use Rattle.pool.specs.Kept.{KeepsRight};
ghost use Rattle.states.specs.Frees.{Frees};
ghost use Rattle.states.specs.Rows.{contents, names, weigh};

use crate::state::State;
use frames::Frame;
use pool::Pool;
use stores::Store;

// Each entry of the state names its block once more. Counts are exact below 2 ^ 32.
#[tactic(auto, using(crate::proofs::Sums::weigh_more))]
pub fn hold_state<S: Store>(pool: &mut Pool<S>, state: &State)
    ensures store { pool.new.store ≡ pool.old.store }
    ensures kept { SameKept pool.old pool.new }
    ensures len { vec_len pool.new.accounts ≡ vec_len pool.old.accounts }
    ensures counts { (n : ℕ) → n < vec_len pool.old.accounts → slice_index (counts_of pool.old) n + weigh (names n) (contents state.now) < 2 ^ 32 → slice_index (counts_of pool.new) n ≡ slice_index (counts_of pool.old) n + weigh (names n) (contents state.now) }
    ensures keeps { KeepsRight S.Kind.Frame S.Store.meaning pool.old pool.new }
{
    for row in &state.rows {
        pool.hold(row.entries());
    }
}

// The entries of the state name their blocks no more. A block whose count falls to 0 is released.
// (Alike in form to the one above: each goes over the rows by its own call of a pool, and promises what that does.)
#[tactic(auto, using(crate::proofs::Sums::weigh_more))]
pub fn let_go_state<S: Store>(pool: &mut Pool<S>, state: &State)
    ensures counts { (n : ℕ) → slice_index (counts_of pool.new) n ≡ slice_index (counts_of pool.old) n - weigh (names n) (contents state.now) }
    ensures frees { Frees S.Kind.Frame S.Store.meaning pool.old pool.new }
{
    for row in &state.rows {
        pool.let_go(row.entries());
    }
}
