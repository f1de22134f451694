//! Stock items, whose record is kind 2.
ghost use Rattle.std.specs.Prelude.{◌≡◌, take, drop};
ghost use Rattle.std.specs.declared.cmp.Ordering.TheVariants.{Greater};
ghost use Rattle.kinds.specs.Fields.{signed_of};
ghost use Rattle.kinds.specs.Kinds.{item_kind, LatestPriceFirst, item_fields};
ghost use Rattle.kinds.specs.FieldOrders.{fields_lawful};
ghost use Rattle.std.proofs.Common.{rules};

use super::RecordKind;
use super::fields::{Field, compare_fields};
use std::cmp::Ordering;

const CODE: Field = Field {
    width: 8,
    signed: false,
    descending: false,
};

const PRICE_YEAR: Field = Field {
    width: 2,
    signed: true,
    descending: true,
};

const FIELDS: [Field; 2] = [CODE, PRICE_YEAR];

/// The kind of stock items: records of 40 bytes, by code, and then the latest price year first.
pub struct Items;

impl Items {
    /// The key of an item.
    pub fn key(code: [u8; 8], price_year: i16) -> [u8; 10]
        ensures code { take 8 result ≡ code }
        ensures year { signed_of 2 (drop 8 result) ≡ price_year }
    {
        let [a, b, c, d, e, f, g, h] = code;
        let [i, j] = price_year.to_be_bytes();
        [a, b, c, d, e, f, g, h, i, j]
    }
}

impl RecordKind for Items {
    ghost kind = { item_kind };

    ghost sizes = { Prim.search rules };

    ghost lawful = { fields_lawful item_fields };

    fn number() -> u16 {
        2
    }

    fn record_len() -> usize {
        40
    }

    fn key_len() -> usize {
        10
    }

    fn compare(a: &[u8], b: &[u8]) -> Ordering {
        compare_fields(&FIELDS, a, b)
    }
}

/// Price year -32,768 against 32,767 of one item: the latest price comes first.
pub fn latest_price_first(code: [u8; 8]) -> Ordering
    ensures value { result ≡ Greater }
    ensures order { LatestPriceFirst }
{
    Items::compare(&Items::key(code, i16::MIN), &Items::key(code, i16::MAX))
}
