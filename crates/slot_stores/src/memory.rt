// A store in memory: block i lies from frame i * limit on. It never fails.
ghost use Rattle.std.specs.Prelude.{◌≡◌, ℕ, ◌≤◌, vec_len, slice_index};
ghost use Rattle.slot_stores.specs.Slots.{count_of_slots};

pub mod store;

#[derive(Drop)]
pub struct MemoryStore<K> {
    frames: Vec<K>,
    limit: usize,
    // How many there are is kept, so that no question divides.
    slots: usize,
    // The length of each slot's block, 0 where the number is free, as `block_len` tells it.
    // They stay in a fixed array: a store that is made asks for no memory.
    lengths: [u32; 1024],
    ghost whole: { slots ≡ count_of_slots limit limit (vec_len frames) },
    ghost sized: { (n : ℕ) → slice_index lengths n ≤ limit },
}
