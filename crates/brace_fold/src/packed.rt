//! Sums in few bytes.
ghost use Rattle.std.specs.Prelude.{◌≡◌};

use crate::table::Sum;
use std::marker::Model;

/// A sum in 12 bytes. Contracts see the sum.
#[derive(Clone, Drop)]
pub struct Packed {
    /// The low half of the number's bits.
    low: u32,
    /// The high half.
    high: u32,
    count: u32,
}

impl Model for Packed {
    ghost use Rattle.std.specs.Prelude.{◌+◌, ◌*◌, ◌^◌};
    ghost use Rattle.std.specs.Int.{cast_signed, w64};
    ghost use Rattle.brace_fold.specs.declared.table.Sum.{Sum};

    ghost Value = { Sum };

    ghost view = { λ p. record {
      number = cast_signed w64 (p.high * 2 ^ 32 + p.low);
      count = p.count;
    } };
}

impl Packed {
    /// A sum, packed.
    #[inline(always)]
    pub fn of(sum: Sum) -> Packed
        ensures { result ≡ sum }
    {
        let bits = sum.number.cast_unsigned();
        Packed {
            low: (bits % 4_294_967_296) as u32,
            high: (bits / 4_294_967_296) as u32,
            count: sum.count,
        }
    }

    /// The sum.
    #[inline(always)]
    pub fn sum(&self) -> Sum
        ensures { result ≡ self.now }
    {
        let bits = u64::from(self.high) * 4_294_967_296 + u64::from(self.low);
        Sum {
            number: bits.cast_signed(),
            count: self.count,
        }
    }
}
