// A take that was read: its frames, and the lines that are none.
pub mod reading;

#[derive(Drop)]
pub struct Take<K> {
    pub frames: Vec<K>,
    // the numbers of the lines that are no frame, the first line being 1
    pub unread: Vec<usize>,
}
