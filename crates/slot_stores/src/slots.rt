// Slots of one size, one after the other: how many there are.
ghost use Rattle.std.specs.Prelude.{◌≡◌};
ghost use Rattle.slot_stores.specs.Slots.{count_of_slots};

// How many slots of a size lie whole in a total: at most 1,024, and none where the block limit does not fit.
pub(crate) fn slot_count(limit: usize, size: usize, total: usize) -> usize
    ensures { result ≡ count_of_slots limit size total }
{
    if limit < 4 || limit > 65536 || limit % 2 != 0 || size == 0 {
        return 0;
    }
    (total / size).min(1024)
}
