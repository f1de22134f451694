//! The chained area: segments that lie in the pages of a chain (see `index`).
ghost use Rattle.std.specs.Prelude.{◌≡◌};
ghost use Rattle.areas.specs.ChainedRows.{chain_look, Looked};
ghost use Rattle.areas.specs.Areas.{Made, pool_pages, chained_suits, chained_row, chained_frame, chained_proper};

use super::area::{Area, Cut};
use super::index::{Chain, HEAD, MARK, PAGE, ends};
use super::plain::fit;
use store::faults::{Fault, Refusal};

/// A pool cut into the pages of a chain: one bad segment where there are none.
#[derive(Clone, Copy, Debug)]
pub struct InPages<'c> {
    // No `Option` of the index: beside an enum that holds a reference, an area forgets the lent memory.
    pages: &'c [u16],
}

/// A store over the pages of a chain, in a pool that is lent to it. Made over a pool that
/// `look` refuses, or with the index of another chain, it is one bad segment.
pub type ChainedArea<'a, 'c> = Area<'a, InPages<'c>>;

impl<'a, 'c> Area<'a, InPages<'c>> {
    /// Whether the pool is from 1 to 65,535 whole pages, and then whether each page of the
    /// chain is in it, met once, its mark and zero byte as they should be.
    pub fn look(memory: &[u8], first: u16) -> Result<(), Fault>
        ensures value { result ≡ chain_look memory.now first }
        ensures means { Looked memory.now first result }
    {
        fit(PAGE, memory)?;
        if !ends(memory, first) {
            return Err(Refusal::BrokenChain.into());
        }
        Ok(())
    }

    pub fn new(memory: &'a mut [u8], chain: &'c Chain) -> ChainedArea<'a, 'c>
        ensures holds { result.memory.now ≡ memory.old }
        ensures lent { result.memory.ghost_name ≡ memory.entry.ghost_name }
        ensures pages { result.cut.pages.now ≡ pool_pages memory.old chain.now }
        ensures row { Made chain.now memory.old (chained_row result.cut result.memory.now) }
    {
        let pages: &[u16] = if chain.fits(memory) {
            &chain.pages
        } else {
            &[]
        };
        Area {
            memory,
            cut: InPages { pages },
        }
    }
}

impl Cut for InPages<'_> {
    ghost suits = { chained_suits };

    ghost row = { chained_row };

    ghost frame = { chained_frame };

    ghost proper = { chained_proper };

    fn count(&self, _memory: &[u8]) -> usize {
        self.pages.len().max(1)
    }

    fn start(&self, memory: &[u8], segment: usize) -> Option<usize> {
        let page = *self.pages.get(segment)?;
        let base = (usize::from(page) - 1) * PAGE;
        (memory[base + MARK] == 0).then_some(base + HEAD)
    }
}
