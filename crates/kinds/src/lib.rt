//! Record kinds: the sizes of their records, the order of their keys, and searches by that order.
#![tactic(auto)]

ghost use Rattle.std.specs.Prelude.{◌≡◌};
ghost use Rattle.kinds.specs.Laws.{Kind, Sizes, Laws};

pub mod fields;
pub mod gyles;
pub mod items;
pub mod search;

use std::cmp::Ordering;

/// A kind of records. A record has the kind's length, and begins with its key.
pub trait RecordKind {
    // Its order is stated apart from what `compare` answers, so that the laws stand whatever else an answer comes to hold.
    ghost kind: { Kind };

    /// The number by which a file names its kind.
    fn number() -> u16
        ensures { result ≡ kind.number };

    /// The bytes of a record, from 1 to 254.
    fn record_len() -> usize
        ensures { result ≡ kind.record_length };

    /// The bytes of a key, from 1 to 16, and no more than a record has.
    fn key_len() -> usize
        ensures { result ≡ kind.key_length };

    /// Whether the first key is below the second, the same, or above. Takes bytes of any length.
    fn compare(a: &[u8], b: &[u8]) -> Ordering
        ensures { result ≡ kind.order a.now b.now };

    ghost sizes: { Sizes kind };

    ghost lawful: { Laws kind };
}
