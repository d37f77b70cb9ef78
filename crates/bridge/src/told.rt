// What a call is told by: its number, and the words for `values`.
ghost use Rattle.std.specs.Prelude.{◌≡◌, ℕ, List};
ghost use Rattle.bridge.specs.Told.{bit_of, number_in, values_in, told_by};
ghost use Rattle.bridge.specs.Monomials.{order_word, of_write, number_words, no_words, test_words, order_words, mask_words};
ghost use Rattle.bridge.specs.Numbers.{degree_words, signed_words, dimension_words};
ghost use Rattle.bridge.specs.Records.{shape_words};

use monomials::divmask::DivMask;
use monomials::refusal::{Refusal, number_of};
use numbers::dimension::Dimension;
use numbers::wide::Wide;
use records::ideal::Shape;
use std::cmp::Ordering;

// What is told by three words for `values`, whose fourth is 0.
pub(crate) trait Words {
    ghost told: { Self → List ℕ };

    fn words(self) -> [u64; 3]
        ensures { result ≡ told self };
}

impl Words for u64 {
    ghost told = { number_words };

    fn words(self) -> [u64; 3] {
        [self, 0, 0]
    }
}

impl Words for usize {
    ghost told = { number_words };

    fn words(self) -> [u64; 3] {
        [self as u64, 0, 0]
    }
}

// 1 for yes, 0 for no.
impl Words for bool {
    ghost told = { test_words };

    fn words(self) -> [u64; 3] {
        [u64::from(self), 0, 0]
    }
}

// 0 for less, 1 for equal, 2 for greater.
impl Words for Ordering {
    ghost told = { order_words };

    fn words(self) -> [u64; 3] {
        let word = match self {
            Ordering::Less => 0,
            Ordering::Equal => 1,
            Ordering::Greater => 2,
        };
        [word, 0, 0]
    }
}

// The low word, the high word.
impl Words for DivMask {
    ghost told = { mask_words };

    fn words(self) -> [u64; 3] {
        [self.low, self.high, 0]
    }
}

// The low word, the high word, in two's complement.
impl Words for Wide {
    ghost told = { signed_words };

    fn words(self) -> [u64; 3] {
        let Wide { low, high } = self;
        [low, high, 0]
    }
}

// 1 and the degree, or 0 for none.
impl Words for Option<u64> {
    ghost told = { degree_words };

    fn words(self) -> [u64; 3] {
        match self {
            Some(degree) => [1, degree, 0],
            None => [0, 0, 0],
        }
    }
}

// The low word, the high word, the top degree.
impl Words for Dimension {
    ghost told = { dimension_words };

    fn words(self) -> [u64; 3] {
        [self.dimension.low, self.dimension.high, self.top]
    }
}

// The width and the count.
impl Words for Shape {
    ghost told = { shape_words };

    fn words(self) -> [u64; 3] {
        [self.n as u64, self.m as u64, 0]
    }
}

// The number; `values` holds the words where it is 0, else what it held.
pub(crate) fn tell<T: Words>(answer: Result<T, Refusal>, values: &mut [u64; 4]) -> u8
    ensures value { result ≡ number_in (told_by T.told answer) }
    ensures values_after { values.new ≡ values_in (told_by T.told answer) values.old }
{
    match answer {
        Ok(told) => {
            let [first, second, third] = told.words();
            *values = [first, second, third, 0];
            0
        }
        Err(refusal) => number_of(refusal),
    }
}

// The number alone, of a call that has no values.
pub(crate) fn number_in(answer: Result<(), Refusal>) -> u8
    ensures { result ≡ number_in (of_write answer) }
{
    if let Err(refusal) = answer {
        number_of(refusal)
    } else {
        0
    }
}
