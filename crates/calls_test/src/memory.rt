// The lent bytes and the saved ones as a script sets them, and the copy that it keeps.
use crate::run::{BYTES, Run};
use test_words::numbers::least;

// The place of the first saved byte, for the verbs of a script that set bytes; those below are of the lent bytes.
const SAVED: u64 = 1114112;

impl Run {
    // Sets bytes from a place on, of the lent bytes or of the saved ones: past the end of either, nothing is set.
    pub fn set<F: Fn(&mut [u8], u64)>(&mut self, place: u64, set: F)
        requires { F.IsAlwaysCallable set }
    {
        set(&mut self.storage, place);
        set(&mut self.saved, place.wrapping_sub(SAVED));
    }

    // Keeps a copy of so many of the lent bytes.
    pub fn keep(&mut self, n: u64) {
        test_steps::lent::copy(&mut self.kept, &self.storage, n);
    }

    // Lends so many bytes of the copy again.
    pub fn back(&mut self, n: u64) {
        test_steps::lent::copy(&mut self.storage, &self.kept, n);
    }

    // Whether so many bytes from a place on are other than the script kept them.
    fn differs(&self, place: u64, len: u64) -> bool {
        let at = least(place, BYTES);
        let end = at + least(len, BYTES - at);
        self.storage[at..end] != self.kept[at..end]
    }

    // Tells whether so many bytes from a place on are as the script kept them: 0, or 1 where they differ.
    pub fn same(&mut self, place: u64, len: u64) {
        let differs = self.differs(place, len);
        self.sink.bytes(b"same");
        self.sink.number(differs as u64);
        self.sink.byte(b'\n');
    }
}
