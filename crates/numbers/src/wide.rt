// Numbers of two 64-bit words, in place of i128 and u128: sums, negatives and differences modulo 2^128, the order of unsigned values, and
// a product that says where it passes 2^127.
ghost use Rattle.std.specs.Prelude.{◌≡◌, ◌+◌, ◌*◌, ◌^◌, pos, ◌-ℤ◌, neg_ℤ, nat_le, nat_lt};
ghost use Rattle.numbers.specs.Wide.{value, wide, wide_of, product_answer};

// Two words and no u128: C is told them word by word.
#[derive(Clone, Copy)]
pub struct Wide {
    pub low: u64,
    pub high: u64,
}

impl Wide {
    pub const ZERO: Wide = Wide { low: 0, high: 0 };

    pub const ONE: Wide = Wide { low: 1, high: 0 };

    // The number w. A public call of this name, and so no `From`; as is `from_signed`.
    pub fn from_word(w: u64) -> Wide
        ensures { result ≡ wide w }
    {
        Wide { low: w, high: 0 }
    }

    // The integer a, in two's complement.
    pub fn from_signed(a: i64) -> Wide
        ensures { result ≡ wide_of a }
    {
        let size = Wide::from_word(a.unsigned_abs());
        if 0 <= a { size } else { size.wrapping_neg() }
    }

    // The sum modulo 2^128.
    pub fn wrapping_add(self, other: Wide) -> Wide
        ensures { result ≡ wide (value self + value other) }
    {
        let (low, carry) = self.low.carrying_add(other.low, false);
        let (high, _) = self.high.carrying_add(other.high, carry);
        Wide { low, high }
    }

    // The negative modulo 2^128.
    pub fn wrapping_neg(self) -> Wide
        ensures { result ≡ wide_of (neg_ℤ (pos (value self))) }
    {
        let flipped = Wide {
            low: !self.low,
            high: !self.high,
        };
        flipped.wrapping_add(Wide::ONE)
    }

    // The difference modulo 2^128.
    pub fn wrapping_sub(self, other: Wide) -> Wide
        ensures { result ≡ wide_of (pos (value self) -ℤ pos (value other)) }
    {
        self.wrapping_add(other.wrapping_neg())
    }

    // Whether self is below other, both unsigned. By hand: a derived order would take low before high.
    pub fn less_than(self, other: Wide) -> bool
        ensures { result ≡ nat_lt (value self) (value other) }
    {
        (self.high, self.low) < (other.high, other.low)
    }

    // Whether the number is 2^127 or more; read as a signed number, whether it is negative.
    pub fn is_large(self) -> bool
        ensures { result ≡ nat_le (2 ^ 127) (value self) }
    {
        0x8000_0000_0000_0000 <= self.high
    }

    // The product of two words.
    pub fn product(a: u64, b: u64) -> Wide
        ensures { result ≡ wide (a * b) }
    {
        let (low, high) = a.carrying_mul(b, 0);
        Wide { low, high }
    }

    // The product with a word, where it is below 2^127; none where it passes that.
    pub fn times(self, w: u64) -> Option<Wide>
        ensures { result ≡ product_answer (value self * w) }
    {
        let low = Wide::product(self.low, w);
        let high = Wide::product(self.high, w);
        if high.high != 0 {
            return None;
        }
        if low.is_large() {
            return None;
        }
        if 0x8000_0000_0000_0000 <= high.low {
            return None;
        }
        let top = low.high + high.low;
        if 0x8000_0000_0000_0000 <= top {
            return None;
        }
        Some(Wide {
            low: low.low,
            high: top,
        })
    }
}

// Adds x to the total where it stands, modulo 2^128.
pub fn add_into(total: &mut Wide, x: Wide)
    ensures { total.new ≡ wide (value total.old + value x) }
{
    *total = total.wrapping_add(x);
}
