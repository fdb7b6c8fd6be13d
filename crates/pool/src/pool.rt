// A store, and an account of each of its numbers.
use crate::account::Account;

// That the measures are right can't be a fact of every pool: any store may be given to `new`, with
// blocks that the pool knows nothing of, and `store` is open to all. So each call says that they stay right.
#[derive(Drop)]
pub struct Pool<S> {
    pub store: S,
    pub accounts: Vec<Account>,
}
