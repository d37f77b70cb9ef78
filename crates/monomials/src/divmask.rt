// Divisibility masks: 128 bits a monomial, in two words, by which most divisions are ruled out without a look at the exponents.
ghost use Rattle.std.specs.Prelude.{◌≡◌, ◌+◌, ◌≤◌, ◌<◌};
ghost use Rattle.laws.specs.Monomial.{exponent};
ghost use Rattle.laws.specs.Mask.{bits_each, threshold, mask_bit, word_of, consistent};
ghost use Rattle.monomials.specs.Mask.{mask_answer, words};

use crate::refusal::{MAX_WIDTH, Refusal, check_width};

// The low and the high word: no u128, since C is told them word by word.
#[derive(Clone, Copy, PartialEq, Eq)]
pub struct DivMask {
    pub low: u64,
    pub high: u64,
}

// The mask of a monomial of width n, with thresholds spread up to max_deg. Missing exponents are 0, those past n are ignored.
pub fn mask(n: usize, max_deg: u16, exps: &[u16]) -> Result<DivMask, Refusal>
    ensures { result ≡ mask_answer MAX_WIDTH n max_deg exps.now }
{
    check_width(n)?;
    Ok(DivMask {
        low: mask_word(n, max_deg, exps, 0),
        high: mask_word(n, max_deg, exps, 64),
    })
}

// Whether each bit of a is set in b: necessary for a monomial with mask a to divide one with mask b.
pub fn divides_consistent_with(a: DivMask, b: DivMask) -> bool
    ensures { result ≡ consistent (words a) (words b) }
{
    (a.low & !b.low) == 0 && (a.high & !b.high) == 0
}

// The 64 bits from `start` on.
fn mask_word(n: usize, max_deg: u16, exps: &[u16], start: usize) -> u64
    requires n_le_max_width { n ≤ MAX_WIDTH }
    requires start_bound { start ≤ 64 }
    ensures { result ≡ word_of (λ i. mask_bit n max_deg exps.now (start + i)) 64 }
{
    let mut word: u64 = 0;
    for i in 0..64 {
        if mask_bit(n, max_deg, exps, start + i) {
            word += 1u64 << i;
        }
    }
    word
}

// Bit i of the mask.
fn mask_bit(n: usize, max_deg: u16, exps: &[u16], i: usize) -> bool
    requires n_le_max_width { n ≤ MAX_WIDTH }
    requires i_bound { i < 128 }
    ensures { result ≡ mask_bit n max_deg exps.now i }
{
    let each = bits_each(n);
    let v = i / each;
    if n <= v {
        return false;
    }
    let x = exponent_at(exps, v);
    if x == 0 {
        return false;
    }
    threshold_of(each, max_deg, i % each) < x
}

// Bits a variable.
fn bits_each(n: usize) -> usize
    ensures { (result ≡ bits_each n) × (1 ≤ result) × (result ≤ 128) }
{
    if n == 0 || 128 < n { 1 } else { 128 / n }
}

// Threshold k of each variable.
fn threshold_of(each: usize, max_deg: u16, k: usize) -> u64
    requires { (1 ≤ each) × (each ≤ 128) × (k < each) }
    ensures { result ≡ threshold each max_deg k }
{
    (k as u64 + 1) * u64::from(max_deg.max(1)) / each as u64
}

// The exponent of variable v, 0 where it is missing.
fn exponent_at(exps: &[u16], v: usize) -> u64
    ensures { result ≡ exponent exps.now v }
{
    exps.get(v).map_or(0, |x| u64::from(*x))
}
