//! The index of a chained area: the pages of a chain, in their order.
//!
//! A page is 516 bytes: the next page's number (two bytes, high byte first), a mark
//! (0 good, 1 bad), a zero byte and a segment. Pages are numbered from 1; 0 ends a chain.
ghost use Rattle.std.specs.Prelude.{◌≡◌, ◌/◌, true, ◌∷◌, length, is_some, ◌≢◌, IfOk};
ghost use Rattle.std.specs.Iterator.{YieldsFirst, item_count};
ghost use Rattle.areas.specs.ChainedRows.{step_from, walk, pages_from, leads_through, fits_pool, indexed, pages_met};
ghost use Rattle.areas.specs.Pages.{ahead};

use super::plain::is_whole;
use std::alloc::{AllocError, Global};
use std::mem;

/// The bytes of a page.
pub const PAGE: usize = 516;

/// The place of a page's mark.
pub(crate) const MARK: usize = 2;

/// The place of its segment.
pub(crate) const HEAD: usize = 4;

/// The index of a chain: its pages in their order, none where `ChainedArea::look` refuses it.
#[derive(Debug, Drop)]
pub struct Chain {
    pub(crate) pages: Vec<u16>,
    pub(crate) first: u16,
    pub(crate) size: usize,
    ghost sound: { indexed size pages.items ≡ true },
}

/// The page after a page, 0 after the last; none where the page is not in the pool, or its
/// mark or zero byte is not as it should be.
fn next_page(memory: &[u8], page: u16) -> Option<u16>
    ensures { result ≡ step_from memory.now page }
{
    let base = usize::from(page).checked_sub(1)? * PAGE;
    match memory.get(base..base + PAGE)? {
        [high, low, 0 | 1, 0, ..] => Some(u16::from_be_bytes([*high, *low])),
        _ => None,
    }
}

/// The pages of a chain in their order, and `None` in place of one at which the chain breaks:
/// it is not as it should be, or one more than there are.
#[derive(Drop)]
struct Pages<'a> {
    memory: &'a [u8],
    // 0 is the page format's own end of a chain.
    next: u16,
    left: usize,
}

impl<'a> Pages<'a> {
    fn new(memory: &'a [u8], first: u16) -> Pages<'a>
        ensures { ahead result ≡ pages_met memory.now (length memory.now / 516) first }
    {
        Pages {
            memory,
            next: first,
            left: memory.len() / PAGE,
        }
    }

    /// The page that comes next, if the chain does not break at it.
    fn meet(&mut self) -> Option<u16>
        requires { self.old.next ≢ 0 }
        ensures { ahead self.old ≡ result ∷ ahead self.new }
    {
        let page = mem::take(&mut self.next);
        self.left = self.left.checked_sub(1)?;
        self.next = next_page(self.memory, page)?;
        Some(page)
    }
}

impl Iterator for Pages<'_> {
    type Item = Option<u16>;

    ghost next_gives = { YieldsFirst ahead };

    ghost remaining = { item_count ahead };

    fn next(&mut self) -> Option<Self::Item> {
        if self.next == 0 {
            return None;
        }
        Some(self.meet())
    }
}

/// Whether the chain from a page on ends, within as many pages as there are.
pub(crate) fn ends(memory: &[u8], first: u16) -> bool
    ensures { result ≡ is_some (walk memory.now (length memory.now / 516) first) }
{
    first != 0 && Pages::new(memory, first).all(|page| page.is_some())
}

fn pages_of(heap: Global, memory: &[u8], first: u16) -> Result<Vec<u16>, AllocError>
    ensures { IfOk result (λ v. v.items ≡ pages_from memory.now first) }
{
    let mut pages = Vec::new(heap);
    if !is_whole(PAGE, memory.len()) {
        return Ok(pages);
    }
    for page in Pages::new(memory, first) {
        let Some(page) = page else {
            return Ok(Vec::new(heap));
        };
        pages.push(page)?;
    }
    Ok(pages)
}

impl Chain {
    /// The index of the chain from a first page on. It fails for want of memory alone.
    pub fn of(heap: Global, memory: &[u8], first: u16) -> Result<Chain, AllocError>
        ensures { IfOk result (λ ch. (ch.pages.items ≡ pages_from memory.now first) × (ch.first ≡ first) × (ch.size ≡ length memory.now)) }
    {
        Ok(Chain {
            pages: pages_of(heap, memory, first)?,
            first,
            size: memory.len(),
        })
    }

    /// Whether the index lists the pages of its chain in this pool.
    pub(crate) fn fits(&self, memory: &[u8]) -> bool
        ensures { result ≡ fits_pool memory.now self.now.size self.now.first self.now.pages.items }
    {
        self.size == memory.len()
            && is_whole(PAGE, memory.len())
            && Pages::new(memory, self.first).eq(self.pages.iter().copied().map(Some))
    }
}
