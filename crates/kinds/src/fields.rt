//! Keys made of fields, and the order that the fields give.
ghost use Rattle.std.specs.Prelude.{◌≡◌, drop};
ghost use Rattle.kinds.specs.Fields.{by_field, by_fields, directed};
ghost use Rattle.kinds.specs.Weights.{weighed};

use std::cmp::Ordering;

/// A field of a key: a number, the high byte first.
#[derive(Clone, Copy, PartialEq, Eq, Debug)]
pub struct Field {
    /// How many bytes it takes.
    pub width: usize,
    // Two named flags, and no enums of two: these would say no more.
    /// Whether it is two's complement.
    pub signed: bool,
    /// Whether a larger number comes first.
    pub descending: bool,
}

/// The part of a key behind its first `width` bytes.
fn behind(key: &[u8], width: usize) -> &[u8]
    ensures { result.now ≡ drop width key.now }
{
    key.get(width..).unwrap_or(&[])
}

impl Field {
    /// The byte at `i`, such that weights compare as the field does: a signed field's first byte has
    /// its sign bit flipped.
    fn weight(self, key: &[u8], i: usize) -> u8
        ensures { result ≡ weighed self.signed key.now i }
    {
        let x = key.get(i).copied().unwrap_or(0);
        if self.signed && i == 0 {
            x.wrapping_add(0x80)
        } else {
            x
        }
    }

    /// The order, or the other way round.
    fn direct(self, order: Ordering) -> Ordering
        ensures { result ≡ directed self.descending order }
    {
        if self.descending {
            order.reverse()
        } else {
            order
        }
    }

    /// The order of two keys by the field that they begin with.
    pub fn compare(self, a: &[u8], b: &[u8]) -> Ordering
        ensures { result ≡ by_field self a.now b.now }
    {
        let order = (0..self.width)
            .map(|i| self.weight(a, i).cmp(&self.weight(b, i)))
            .find(|order| order.is_ne())
            .unwrap_or(Ordering::Equal);
        self.direct(order)
    }
}

/// The order of two keys by each field in turn. A short key counts as filled up with zeros.
// Drawn into each kind's `compare`, where the fields are known and much of it falls away.
#[inline(always)]
pub fn compare_fields(fields: &[Field], a: &[u8], b: &[u8]) -> Ordering
    ensures { result ≡ by_fields fields.now a.now b.now }
{
    let mut x = a;
    let mut y = b;
    for field in fields {
        let order = field.compare(x, y);
        if order.is_ne() {
            return order;
        }
        x = behind(x, field.width);
        y = behind(y, field.width);
    }
    Ordering::Equal
}
