// What a pool knows of a number of its store.
use measures::Summary;

// How many entries name the number, and the measures of its block, if it has one: whether it has one, the store
// tells, and what was kept of a block that went may stay.
#[derive(Clone, Copy)]
pub struct Account {
    pub count: u32,
    pub kept: Summary,
}
