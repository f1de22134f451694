//! A store over lent memory, and what makes of it differ in: how the memory is cut into segments.
ghost use Rattle.std.specs.Prelude.{◌≡◌, ℕ, Bool, true, List, [], ◌∷◌, length, Err, MatchOption, MatchResult, slice_index_or};
ghost use Rattle.store.specs.Faults.{fault_of};
ghost use Rattle.store.specs.Rows.{Segment, bad, answer, Proper};
ghost use Rattle.areas.specs.Cuts.{Placed, Usable};

use store::faults::{Fault, Refusal};
use store::{SEGMENT, SegmentStore};

/// A way to cut memory into segments.
pub trait Cut {
    // Whether memory of some length may be cut so.
    ghost suits: { Self → ℕ → Bool };

    // The row that some memory is, cut so.
    ghost row: { Self → List ℕ → List Segment };

    // What goes with that row, which writing a segment does not change.
    ghost frame: { Self → List ℕ → List (List ℕ) };

    fn count(&self, memory: &[u8]) -> usize
        requires { suits self.now (length memory.now) ≡ true }
        ensures { result ≡ length (row self.now memory.now) };

    /// Where the bytes of a segment begin: none where it is bad, or not there.
    fn start(&self, memory: &[u8], segment: usize) -> Option<usize>
        requires { suits self.now (length memory.now) ≡ true }
        ensures { MatchOption result (slice_index_or (row self.now memory.now) segment bad ≡ bad) (Placed (row self.now) (frame self.now) memory.now segment) };

    // A row has a segment, and each good one holds 512 bytes.
    ghost proper: { (c : Self) (m : List ℕ) → suits c (length m) ≡ true → Proper (row c m) };
}

/// A store over memory that is lent to it, and cut in some way.
#[derive(Drop, Debug)]
pub struct Area<'a, C: Cut> {
    pub(crate) memory: &'a mut [u8],
    pub(crate) cut: C,
    ghost suited: { C.Cut.suits cut (length memory.now) ≡ true },
}

impl<C: Cut> Area<'_, C> {
    /// Where the segment's bytes begin, for a buffer of `size` bytes.
    fn find(&self, segment: usize, size: usize) -> Result<usize, Refusal>
        ensures { MatchResult result (Usable (C.Cut.row self.now.cut) (C.Cut.frame self.now.cut) self.now.memory.now segment size) (λ r. answer (C.Cut.row self.now.cut self.now.memory.now) segment size ≡ Err (fault_of r)) }
    {
        if size != SEGMENT {
            return Err(Refusal::WrongBuffer);
        }
        // The count is for a refusal alone: a segment that begins somewhere is there.
        match self.cut.start(self.memory, segment) {
            Some(start) => Ok(start),
            None if segment < self.count() => Err(Refusal::BadSegment(segment)),
            None => Err(Refusal::NoSegment(segment)),
        }
    }
}

impl<C: Cut> SegmentStore for Area<'_, C> {
    ghost row = { λ s. C.Cut.row s.cut s.memory.now };

    ghost fixed = { λ s. record { lent = s.memory.ghost_name ∷ []; frame = C.Cut.frame s.cut s.memory.now } };

    ghost proper = { λ s. C.Cut.proper s.cut s.memory.now s.suited };

    fn count(&self) -> usize {
        self.cut.count(self.memory)
    }

    fn read(&self, segment: usize, buffer: &mut [u8]) -> Result<(), Fault> {
        let start = self.find(segment, buffer.len())?;
        buffer.copy_from_slice(&self.memory[start..start + SEGMENT]);
        Ok(())
    }

    fn write(&mut self, segment: usize, buffer: &[u8]) -> Result<(), Fault> {
        let start = self.find(segment, buffer.len())?;
        self.memory[start..start + SEGMENT].copy_from_slice(buffer);
        Ok(())
    }
}
