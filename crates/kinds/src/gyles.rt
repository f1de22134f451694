//! Gyles: a gyle is one brew, and its record is kind 1.
ghost use Rattle.std.specs.Prelude.{◌≡◌, drop};
ghost use Rattle.std.specs.declared.cmp.Ordering.TheVariants.{Less};
ghost use Rattle.kinds.specs.Fields.{signed_of};
ghost use Rattle.kinds.specs.Kinds.{gyle_kind, YearDecides, gyle_fields};
ghost use Rattle.kinds.specs.FieldOrders.{fields_lawful};
ghost use Rattle.std.proofs.Common.{rules};

use super::RecordKind;
use super::fields::{Field, compare_fields};
use std::cmp::Ordering;

const YEAR: Field = Field {
    width: 2,
    signed: true,
    descending: false,
};

const NUMBER: Field = Field {
    width: 4,
    signed: true,
    descending: false,
};

const FIELDS: [Field; 2] = [YEAR, NUMBER];

/// The kind of gyles: records of 32 bytes, by year and then by gyle number.
pub struct Gyles;

impl Gyles {
    /// The key of a gyle.
    pub fn key(year: i16, gyle: i32) -> [u8; 6]
        ensures year { signed_of 2 result ≡ year }
        ensures gyle { signed_of 4 (drop 2 result) ≡ gyle }
    {
        let [a, b] = year.to_be_bytes();
        let [c, d, e, f] = gyle.to_be_bytes();
        [a, b, c, d, e, f]
    }
}

// Each kind says this itself: a trait between, for kinds whose key is made of fields, would ask for as many lines.
impl RecordKind for Gyles {
    ghost kind = { gyle_kind };

    ghost sizes = { Prim.search rules };

    ghost lawful = { fields_lawful gyle_fields };

    fn number() -> u16 {
        1
    }

    fn record_len() -> usize {
        32
    }

    fn key_len() -> usize {
        6
    }

    fn compare(a: &[u8], b: &[u8]) -> Ordering {
        compare_fields(&FIELDS, a, b)
    }
}

/// Gyle -1/5 against gyle 0/-3: years are signed, and come before gyle numbers.
pub fn year_decides() -> Ordering
    ensures value { result ≡ Less }
    ensures order { YearDecides }
{
    Gyles::compare(&Gyles::key(-1, 5), &Gyles::key(0, -3))
}
