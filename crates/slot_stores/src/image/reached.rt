// What holds of every image that the store's calls make from a new one.
ghost use Rattle.slot_stores.specs.Reached.{ChecksStand};

use frames::Frame;

// For whoever reads an image that a store gave back: the check of every slot that holds a block is right.
pub fn checks_stand<K: Frame>()
    ensures { ChecksStand K.Frame }
{}
