//! Several segments of a store, one behind another.
//!
//! A file reads and writes its store by these calls alone. A refusal of the store comes up
//! whole, with the file's number added, and leaves buffer and store as they were.
// Store, file and first segment are not one struct: each call would build it and each function take it apart.
ghost use Rattle.std.specs.Prelude.{◌≡◌, ◌*◌, ◌/◌, length, Ok, Err, MatchResult};
ghost use Rattle.store.specs.Faults.{named};
ghost use Rattle.store.specs.Spans.{probe, span, span_answer, IsProbed, read_span_after, write_span_after, copy_answer, copy_after, Wrote};

use super::faults::{Fault, Refusal, of_file};
use super::{SEGMENT, SegmentStore};

/// Whether the `n` segments from `first` on are there and good. Only reading can tell.
pub fn probe_span<S: SegmentStore>(store: &S, file: u8, first: usize, n: usize) -> Result<(), Fault>
    ensures { result ≡ named file (probe (S.SegmentStore.row store.now) first n) }
{
    let mut segment = [0; SEGMENT];
    for i in 0..n {
        of_file(file, store.read(first + i, &mut segment))?;
    }
    Ok(())
}

/// How many segments a buffer of some size takes, from `first` on, where all are there and good.
fn probed<S: SegmentStore>(store: &S, file: u8, first: usize, size: usize) -> Result<usize, Fault>
    ensures { MatchResult result (IsProbed (S.SegmentStore.row store.now) first size) (λ fault. named file (span_answer (S.SegmentStore.row store.now) first size) ≡ Err fault) }
{
    if size % SEGMENT != 0 {
        return Err(Fault::from(Refusal::WrongBuffer).in_file(file));
    }
    let n = size / SEGMENT;
    probe_span(store, file, first, n)?;
    Ok(n)
}

/// Fills the buffer with the segments from `first` on.
pub fn read_span<S: SegmentStore>(
    store: &S,
    file: u8,
    first: usize,
    buffer: &mut [u8],
) -> Result<(), Fault>
    ensures value { result ≡ named file (span_answer (S.SegmentStore.row store.now) first (length buffer.old)) }
    ensures after { buffer.new ≡ read_span_after (S.SegmentStore.row store.now) first buffer.old }
{
    let n = probed(store, file, first, buffer.len())?;
    // Cut by place: of what a loop over `chunks_exact_mut` wrote, no proof knows afterwards.
    for i in 0..n {
        let start = i * SEGMENT;
        of_file(
            file,
            store.read(first + i, &mut buffer[start..start + SEGMENT]),
        )?;
    }
    Ok(())
}

/// Replaces the segments from `first` on by the buffer's, and nothing else.
pub fn write_span<S: SegmentStore>(
    store: &mut S,
    file: u8,
    first: usize,
    buffer: &[u8],
) -> Result<(), Fault>
    ensures value { result ≡ named file (span_answer (S.SegmentStore.row store.old) first (length buffer.now)) }
    ensures after { S.SegmentStore.row store.new ≡ write_span_after (S.SegmentStore.row store.old) first buffer.now }
    ensures wrote { result ≡ Ok tt → Wrote (S.SegmentStore.row store.old) (S.SegmentStore.row store.new) first (length buffer.now / 512) buffer.now }
    ensures kept { S.fixed store.new ≡ S.fixed store.old }
{
    probed(store, file, first, buffer.len())?;
    for (i, part) in buffer.chunks_exact(SEGMENT).enumerate() {
        of_file(file, store.write(first + i, part))?;
    }
    Ok(())
}

/// Copies the `n` segments from `first` on to the same places of another store.
pub fn copy_span<S: SegmentStore, T: SegmentStore>(
    from: &S,
    to: &mut T,
    file: u8,
    first: usize,
    n: usize,
) -> Result<(), Fault>
    ensures value { result ≡ named file (copy_answer (S.SegmentStore.row from.now) (T.SegmentStore.row to.old) first n) }
    ensures after { T.SegmentStore.row to.new ≡ copy_after (S.SegmentStore.row from.now) (T.SegmentStore.row to.old) first n }
    ensures wrote { result ≡ Ok tt → Wrote (T.SegmentStore.row to.old) (T.SegmentStore.row to.new) first n (span (S.SegmentStore.row from.now) first n) }
    ensures kept { T.fixed to.new ≡ T.fixed to.old }
{
    probe_span(from, file, first, n)?;
    probe_span(to, file, first, n)?;
    let mut segment = [0; SEGMENT];
    for i in 0..n {
        of_file(file, from.read(first + i, &mut segment))?;
        of_file(file, to.write(first + i, &segment))?;
    }
    Ok(())
}
