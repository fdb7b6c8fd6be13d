// States that go, with all that only they name.
ghost use Rattle.std.specs.Prelude.{◌≡◌, ◌≤◌, take, drop, vec_len, vec_capacity};
ghost use Rattle.states.specs.Frees.{Frees, Shed};
ghost use Rattle.states.specs.Rows.{newest};

use crate::holding::let_go_state;
use crate::state::State;
use frames::Frame;
use pool::Pool;
use stores::Store;

// How many states stay as one more is to come.
const NEWEST: usize = 15;

// Drops the oldest state, if there is one.
#[tactic(auto, using(crate::proofs::Sums::weigh_first))]
pub fn drop_oldest<S: Store>(pool: &mut Pool<S>, states: &mut Vec<State>)
    ensures items { states.new.items ≡ drop 1 states.old.items }
    ensures capacity { vec_capacity states.new ≡ vec_capacity states.old }
    ensures counts { Shed pool.old states.old.items pool.new states.new.items }
    ensures frees { Frees S.Kind.Frame S.Store.meaning pool.old pool.new }
{
    if !states.is_empty() {
        let oldest = states.remove(0);
        let_go_state(pool, &oldest);
    }
}

// Keeps the first states, and drops the others, the last first.
fn drop_from<S: Store>(pool: &mut Pool<S>, states: &mut Vec<State>, keep: usize)
    ensures items { states.new.items ≡ take keep states.old.items }
    ensures capacity { vec_capacity states.new ≡ vec_capacity states.old }
    ensures counts { Shed pool.old states.old.items pool.new states.new.items }
    ensures frees { Frees S.Kind.Frame S.Store.meaning pool.old pool.new }
{
    while states.len() > keep {
        let last = states.pop().unwrap();
        let_go_state(pool, &last);
    }
}

// Keeps the first states, and of 16 the newest 15: then one more can stand.
pub fn keep_newest<S: Store>(pool: &mut Pool<S>, states: &mut Vec<State>, keep: usize)
    ensures items { states.new.items ≡ newest (take keep states.old.items) }
    ensures few { vec_len states.old ≤ 16 → vec_len states.new ≤ 15 }
    ensures capacity { vec_capacity states.new ≡ vec_capacity states.old }
    ensures counts { Shed pool.old states.old.items pool.new states.new.items }
    ensures frees { Frees S.Kind.Frame S.Store.meaning pool.old pool.new }
{
    drop_from(pool, states, keep);
    if states.len() > NEWEST {
        drop_oldest(pool, states);
    }
}
