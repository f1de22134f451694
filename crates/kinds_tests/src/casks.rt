//! Casks: a kind of its own, with the longest records and keys that there may be.
ghost use Rattle.kinds_tests.specs.Casks.{cask_kind, cask_fields};
ghost use Rattle.kinds.specs.FieldOrders.{fields_lawful};
ghost use Rattle.std.proofs.Common.{rules};

use kinds::RecordKind;
use kinds::fields::{Field, compare_fields};
use std::cmp::Ordering;

/// The number that is burnt into the cask.
const MARK: Field = Field {
    width: 12,
    signed: false,
    descending: false,
};

/// The day on which it was filled, the latest first.
const FILLED: Field = Field {
    width: 4,
    signed: true,
    descending: true,
};

const FIELDS: [Field; 2] = [MARK, FILLED];

pub struct Casks;

impl RecordKind for Casks {
    ghost kind = { cask_kind };

    ghost sizes = { Prim.search rules };

    ghost lawful = { fields_lawful cask_fields };

    fn number() -> u16 {
        9
    }

    fn record_len() -> usize {
        254
    }

    fn key_len() -> usize {
        16
    }

    fn compare(a: &[u8], b: &[u8]) -> Ordering {
        compare_fields(&FIELDS, a, b)
    }
}
