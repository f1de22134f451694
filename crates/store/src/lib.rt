//! Segment stores: a numbered row of segments, each good with 512 bytes or bad, behind three
//! calls. `spans` has what files do with them: several segments, one behind another.
#![tactic(auto)]

ghost use Rattle.std.specs.Prelude.{◌≡◌, List, length};
ghost use Rattle.store.specs.Rows.{Segment, Fixed, Proper, goods, answer, read_after, write_after};

pub mod faults;
pub mod spans;

use faults::Fault;

/// The bytes of a segment.
pub const SEGMENT: usize = 512;

/// A numbered row of segments, at least one. How many there are, and which are bad, never changes.
pub trait SegmentStore {
    // The row that the store stands for.
    ghost row: { Self → List Segment };

    // What beside the row is the store's, and stays as it is.
    ghost fixed: { Self → Fixed };

    fn count(&self) -> usize
        ensures { result ≡ length (row self.now) };

    /// Copies a good segment into a buffer of 512 bytes.
    fn read(&self, segment: usize, buffer: &mut [u8]) -> Result<(), Fault>
        ensures value { result ≡ answer (row self.now) segment (length buffer.old) }
        ensures after { buffer.new ≡ read_after (row self.now) segment buffer.old };

    /// Replaces the bytes of a good segment by the buffer's 512, and nothing else.
    fn write(&mut self, segment: usize, buffer: &[u8]) -> Result<(), Fault>
        ensures value { result ≡ answer (row self.old) segment (length buffer.now) }
        ensures after { row self.new ≡ write_after (row self.old) segment buffer.now }
        ensures marks { goods (row self.new) ≡ goods (row self.old) }
        ensures kept { fixed self.new ≡ fixed self.old };

    // A row has a segment, and each good one holds 512 bytes.
    ghost proper: { (s : Self) → Proper (row s) };
}
