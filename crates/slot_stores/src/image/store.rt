// The image store's calls as a store. Beyond what every store promises, they say what each byte of
// the image is after a call.
ghost use Rattle.std.specs.Prelude.{◌≡◌, true, length, is_ok, None};
ghost use Rattle.stores.specs.Meaning.{well};
ghost use Rattle.stores.specs.Promise.{Puts, Reads, Releases, refusal_of_read};
ghost use Rattle.slot_stores.specs.Slots.{put_answer};
ghost use Rattle.slot_stores.specs.InImage.{image, image_fitting, PutBytes, ReleaseBytes};

use crate::image::ImageStore;
use crate::image::slot::{block_length, read_frames, write_slot};
use frames::Frame;
use stores::{Store, StoreFault};

impl<K: Frame> Store for ImageStore<K> {
    type Kind = K;

    ghost meaning = { image K.Frame };

    ghost fitting = { image_fitting K.Frame };

    fn capacity(&self) -> usize {
        self.slots()
    }

    fn limit(&self) -> usize {
        self.limit
    }

    fn is_ailing(&self) -> bool {
        false
    }

    fn block_len(&self, number: usize) -> usize {
        if number >= self.slots() {
            return 0;
        }
        let at = self.slot_start(number);
        block_length(&self.bytes[at..at + self.slot_size()], self.limit)
    }

    fn put(&mut self, frames: &[K]) -> Result<usize, StoreFault>
        ensures promised { Puts (image K.Frame self.old) frames.now result (image K.Frame self.new) }
        ensures succeeds { result ≡ put_answer (image K.Frame self.old) (length frames.now) }
        ensures bytes { PutBytes K.Frame self.old frames.now result self.new }
    {
        let number = self.place(frames.len())?;
        let at = self.slot_start(number);
        let end = at + 6 + frames.len() * K::width();
        write_slot(&mut self.bytes[at..end], frames);
        Ok(number)
    }

    fn read(&mut self, number: usize, offset: usize, buffer: &mut [K]) -> Result<(), StoreFault>
        ensures promised { Reads (image K.Frame self.old) number offset buffer.old result buffer.new (image K.Frame self.new) }
        ensures succeeds { refusal_of_read (image K.Frame self.old) number offset (length buffer.old) ≡ None → is_ok result ≡ true }
        ensures bytes { self.new ≡ self.old }
    {
        self.check_read(number, offset, buffer.len())
            .map_err(|error| error.at(number))?;
        let width = K::width();
        let at = self.slot_start(number) + 6 + offset * width;
        let end = at + buffer.len() * width;
        read_frames(&self.bytes[at..end], buffer);
        Ok(())
    }

    fn release(&mut self, number: usize) -> Result<(), StoreFault>
        ensures promised { Releases (image K.Frame self.old) number result (image K.Frame self.new) }
        ensures bytes { ReleaseBytes K.Frame self.old number result self.new }
    {
        self.check_release(number)?;
        let at = self.slot_start(number);
        self.bytes[at..at + 4].fill(0);
        Ok(())
    }

    fn rearm(&mut self)
        ensures promised { image K.Frame self.new ≡ well (image K.Frame self.old) }
        ensures bytes { self.new ≡ self.old }
    {}
}
