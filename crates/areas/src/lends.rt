//! Areas made over the caller's memory for one call, and what that memory holds afterwards.
// Pool and chain are not one struct: one that held both would forget the lent memory. `means` is true of every
// chain and pool, and stands where its reader needs it.
ghost use Rattle.std.specs.Prelude.{◌≡◌, ℕ, List, length, Err};
ghost use Rattle.store.specs.Faults.{named};
ghost use Rattle.store.specs.declared.faults.Fault.{Fault};
ghost use Rattle.store.specs.Spans.{span_answer, write_span_after, copy_answer, copy_after};
ghost use Rattle.areas.specs.PlainRows.{plain_row, plain_frame};
ghost use Rattle.areas.specs.ChainedRows.{pages_from};
ghost use Rattle.areas.specs.Areas.{Made, pool_row, pool_kept};

use super::chained::ChainedArea;
use super::index::Chain;
use super::plain::PlainArea;
use store::faults::Fault;
use store::spans::{copy_span, write_span};

/// Replaces the segments of a chain from `first` on by the buffer's.
pub fn fill_chain(
    pool: &mut [u8],
    chain: &Chain,
    file: u8,
    first: usize,
    buffer: &[u8],
) -> Result<(), Fault>
    ensures value { result ≡ named file (span_answer (pool_row pool.old chain.now) first (length buffer.now)) }
    ensures after { pool_row pool.new chain.now ≡ write_span_after (pool_row pool.old chain.now) first buffer.now }
    ensures kept { pool_kept pool.new chain.now ≡ pool_kept pool.old chain.now }
    ensures means { (m : List ℕ) → Made chain.now m (pool_row m chain.now) }
    ensures chains { (p : ℕ) → pages_from pool.new p ≡ pages_from pool.old p }
    ensures refused { (f : Fault) → result ≡ Err f → pool.new ≡ pool.old }
{
    let mut area = ChainedArea::new(pool, chain);
    write_span(&mut area, file, first, buffer)
}

/// Copies the first `n` segments of a chain to the first of plain memory.
pub fn unchain(
    pool: &mut [u8],
    chain: &Chain,
    memory: &mut [u8],
    file: u8,
    n: usize,
) -> Result<(), Fault>
    ensures value { result ≡ named file (copy_answer (pool_row pool.old chain.now) (plain_row memory.old) 0 n) }
    ensures after { plain_row memory.new ≡ copy_after (pool_row pool.old chain.now) (plain_row memory.old) 0 n }
    ensures framed { plain_frame memory.new ≡ plain_frame memory.old }
    ensures means { (m : List ℕ) → Made chain.now m (pool_row m chain.now) }
    ensures refused { (f : Fault) → result ≡ Err f → memory.new ≡ memory.old }
    ensures same { pool.new ≡ pool.old }
{
    let from = ChainedArea::new(pool, chain);
    let mut to = PlainArea::new(memory);
    copy_span(&from, &mut to, file, 0, n)
}
