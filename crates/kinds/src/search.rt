//! Searches of blocks and tables, for every kind.
ghost use Rattle.std.specs.Prelude.{◌≡◌, ℕ, suc, ◌-◌, ◌<◌, ◌≤◌, true, false, length};
ghost use Rattle.kinds.specs.Search.{key_in, held_in, KeysAscend, BoundsAscend, Turn, not_above, LastNotAbove, Looked, Found};

use super::RecordKind;

/// An entry of a table: of a block, or of a bucket of blocks.
#[derive(Clone, Copy, PartialEq, Eq, Debug)]
pub struct Entry {
    /// The records in the block, or the non-empty blocks in the bucket.
    pub count: u16,
    /// The first segment.
    pub first: u16,
    /// The key bound, in as many of the bytes as a key has: above every key before, and at most the
    /// first key here.
    // Room for the longest key: tables are fixed memory, and no array's length is computed from a kind.
    pub bound: [u8; 16],
}

/// A place at which a test of `0..n` turns: it is true of the place before, and false there.
// Not std's `partition_point`, which promises nothing where a test turns more than once.
fn turning_point<F: Fn(usize) -> bool>(n: usize, test: F) -> usize
    requires { (i : ℕ) → i < n → F.pre test i }
    ensures within { result ≤ n }
    ensures before { (i : ℕ) → suc i ≡ result → F.post test i true }
    ensures behind { result < n → F.post test result false }
{
    let mut low = 0;
    let mut high = n;
    while low < high {
        // Not std's `midpoint`, which cannot know that `low` is below `high`, and takes more steps.
        let mid = low + (high - low) / 2;
        if test(mid) {
            low = mid + 1;
        } else {
            high = mid;
        }
    }
    low
}

/// How many whole records a block has. Each is the kind's length and two bytes more.
fn held<K: RecordKind>(block: &[u8]) -> usize
    ensures { result ≡ held_in K.kind block.now }
{
    block.len() / (K::record_len() + 2)
}

/// The key of record `i`, as the part of the block where it lies.
fn key_of<K: RecordKind>(block: &[u8], i: usize) -> &[u8]
    requires { i < held_in K.kind block.now }
    ensures { result.now ≡ key_in K.kind block.now i }
{
    &block[i * (K::record_len() + 2)..][..K::key_len()]
}

/// Finds a key among the records of a block, each of the kind's length and two bytes more: `Ok` with
/// the place of the first whose key is not below it if it is the same, and else `Err` with that place,
/// where the key belongs. Bytes behind the last whole record mean nothing.
pub fn find<K: RecordKind>(block: &[u8], key: &[u8]) -> Result<usize, usize>
    ensures looked { Looked K.kind block.now key.now result }
    ensures found { length key.now ≡ K.kind.key_length → KeysAscend K.kind block.now → Found K.kind block.now key.now result }
{
    let held = held::<K>(block);
    let at = turning_point(held, |i| K::compare(key_of::<K>(block, i), key).is_lt());
    if at < held && K::compare(key_of::<K>(block, at), key).is_eq() {
        Ok(at)
    } else {
        Err(at)
    }
}

/// The place of the last entry whose key bound is not above `key`, or else the first place.
pub fn last_not_above<K: RecordKind>(entries: &[Entry], key: &[u8]) -> usize
    ensures turn { (t : ℕ) × Turn (not_above K.kind entries.now key.now) (length entries.now) t × (result ≡ t - 1) }
    ensures last { length key.now ≡ K.kind.key_length → BoundsAscend K.kind entries.now → LastNotAbove K.kind entries.now key.now result }
{
    let p = K::key_len();
    let is_not_above = |i: usize| K::compare(&entries[i].bound[..p], key).is_le();
    turning_point(entries.len(), is_not_above).saturating_sub(1)
}
