//! The plain area: segments that lie side by side in lent memory.
ghost use Rattle.std.specs.Prelude.{◌≡◌, ◌<◌, true, false, length, MatchResult};
ghost use Rattle.store.specs.declared.faults.Refusal.TheVariants.{UnfitMemory};
ghost use Rattle.areas.specs.PlainRows.{whole, parts, plain_row, plain_frame, plain_look};
ghost use Rattle.areas.specs.Laws.{plain_proper};

use super::area::{Area, Cut};
use store::SEGMENT;
use store::faults::{Fault, Refusal};

/// The most segments or pages that an area has.
const MOST: usize = 65_535;

/// Memory cut into segments side by side: one bad segment where `PlainArea::look` refuses it.
#[derive(Clone, Copy, Debug)]
pub struct SideBySide;

/// A store over memory that is lent to it. Made over memory that `look` refuses,
/// it is one bad segment.
pub type PlainArea<'a> = Area<'a, SideBySide>;

/// Whether `n` bytes are from 1 to 65,535 whole parts.
pub(crate) fn is_whole(size: usize, n: usize) -> bool
    requires { 0 < size }
    ensures { result ≡ whole size n }
{
    0 < n && n % size == 0 && n / size <= MOST
}

/// Whether some memory is from 1 to 65,535 whole parts.
pub(crate) fn fit(size: usize, memory: &[u8]) -> Result<(), Refusal>
    requires { 0 < size }
    ensures { MatchResult result (λ _. whole size (length memory.now) ≡ true) (λ refusal. (refusal ≡ UnfitMemory) × (whole size (length memory.now) ≡ false)) }
{
    if is_whole(size, memory.len()) {
        Ok(())
    } else {
        Err(Refusal::UnfitMemory)
    }
}

/// How many segments lie side by side in some memory: none where it is unfit.
fn segments(memory: &[u8]) -> usize
    ensures { result ≡ parts 512 (length memory.now) }
{
    if is_whole(SEGMENT, memory.len()) {
        memory.len() / SEGMENT
    } else {
        0
    }
}

impl<'a> Area<'a, SideBySide> {
    /// Whether the memory is from 1 to 65,535 whole segments.
    pub fn look(memory: &[u8]) -> Result<(), Fault>
        ensures { result ≡ plain_look memory.now }
    {
        Ok(fit(SEGMENT, memory)?)
    }

    pub fn new(memory: &'a mut [u8]) -> PlainArea<'a>
        ensures holds { result.memory.now ≡ memory.old }
        ensures lent { result.memory.ghost_name ≡ memory.entry.ghost_name }
    {
        Area {
            memory,
            cut: SideBySide,
        }
    }
}

impl Cut for SideBySide {
    ghost suits = { λ _ _. true };

    ghost row = { λ _. plain_row };

    ghost frame = { λ _. plain_frame };

    ghost proper = { λ _ m _. plain_proper m };

    fn count(&self, memory: &[u8]) -> usize {
        segments(memory).max(1)
    }

    fn start(&self, memory: &[u8], segment: usize) -> Option<usize> {
        (segment < segments(memory)).then(|| segment * SEGMENT)
    }
}
