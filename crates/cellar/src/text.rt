//! A text as segments, and a pool of pages to store them in.
ghost use Rattle.std.specs.Prelude.{◌≡◌, ◌+◌, ◌-◌, ◌*◌, ◌/◌, ◌<◌, ◌≤◌, ◌∷◌, ◌++◌, length, replicate, IfOk, MatchOption, OnOk};
ghost use Rattle.std.specs.Int.{to_be_bytes, w16};
ghost use Rattle.cellar.specs.Pools.{zeros, ChainsBackwards};

use std::alloc::{AllocError, Global};
use store::SEGMENT;

/// The most segments of a text: a pool has a bad page and a free one beside them.
const MOST: u16 = 65_533;

/// The segments that hold a text, at least one, or none where it is too long.
pub(crate) fn segments_for(length: usize) -> Option<u16>
    ensures { MatchOption result (65533 * 512 < length) (λ n. (n ≡ (length - 1) / 512 + 1) × (length ≤ 65533 * 512)) }
{
    let segments = length.div_ceil(SEGMENT).max(1);
    u16::try_from(segments).ok().filter(|&n| n <= MOST)
}

/// The text, filled up with zeros to `n` segments.
pub(crate) fn padded(heap: Global, text: &[u8], n: u16) -> Result<Vec<u8>, AllocError>
    ensures { IfOk result (λ v. v.items ≡ text.now ++ replicate (n * 512 - length text.now) 0) }
{
    let mut bytes = Vec::from_slice(heap, text)?;
    let whole = usize::from(n) * SEGMENT;
    bytes.resize(whole.max(text.len()), 0)?;
    Ok(bytes)
}

/// Adds a page of zeros with this next page and this mark, as its bytes say them.
fn push_page(pool: &mut Vec<u8>, next: u16, mark: u8) -> Result<(), AllocError>
    ensures { OnOk result (pool.new.items ≡ pool.old.items ++ (to_be_bytes w16 next ++ mark ∷ 0 ∷ zeros)) }
{
    let [high, low] = next.to_be_bytes();
    pool.extend_from_slice(&[high, low, mark, 0])?;
    pool.extend_from_slice(&[0; SEGMENT])
}

/// A pool of empty pages. Each but the last names the page before it, so that the chain
/// from the last but one runs backwards through the memory, and ends at page 1, which is bad.
pub(crate) fn laid_out(heap: Global, pages: u16) -> Result<Vec<u8>, AllocError>
    ensures { IfOk result (λ pool. ChainsBackwards pool.items pages) }
{
    let mut pool = Vec::new(heap);
    for before in 0..pages {
        let next = if before + 1 == pages { 0 } else { before };
        let mark = u8::from(before == 0);
        push_page(&mut pool, next, mark)?;
    }
    Ok(pool)
}
