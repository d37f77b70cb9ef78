// The value of the Hilbert function that a list of coefficients gives: their n-fold prefix sum modulo 2^128, of two-word numbers where they
// stand in the lent room. Before it come the sums of the magnitudes, which are held down to 2^127, so that one that passes it anywhere is
// seen at the end.
ghost use Rattle.std.specs.Prelude.{◌≡◌, ℕ, ℤ, suc, ◌+◌, ◌*◌, ◌^◌, ◌<◌, ◌≤◌, length, replicate, slice_set, unsigned_abs};
ghost use Rattle.laws.specs.Coefficients.{coefficient};
ghost use Rattle.laws.specs.Sums.{sum_below, sums as prefix_sums};
ghost use Rattle.laws.specs.Word.{residue};
ghost use Rattle.numbers.specs.Wide.{value};
ghost use Rattle.numbers.specs.Hilbert.{hilbert_answer, hilbert_room};
ghost use Rattle.numbers.specs.HilbertParts.{number_at, modulo, capped, KeepsSums, modulo_keeps, capped_keeps};

use crate::coefficients::coeff;
use crate::wide::Wide;
use monomials::refusal::{MAX_WIDTH, Refusal};

// The greatest degree at which the Hilbert function is asked for, and the greatest degree bound D of a dimension.
pub const MAX_DEGREE: usize = 65536;

// The value at d of the Hilbert function in n variables that the coefficients give.
pub fn hf_at(n: usize, coeffs: &[i64], d: usize, sums: &mut [u64]) -> Result<Wide, Refusal>
    ensures value { result ≡ hilbert_answer MAX_WIDTH MAX_DEGREE n coeffs.now d sums.old }
    ensures sums_after { sums.new ≡ hilbert_room MAX_WIDTH MAX_DEGREE n d sums.old }
{
    if MAX_WIDTH < n {
        return Err(Refusal::Width);
    }
    if MAX_DEGREE < d {
        return Err(Refusal::Degree);
    }
    let half = 2 * (d + 1);
    let asked = 4 * (d + 1);
    if sums.len() < asked {
        return Err(Refusal::SumRoom);
    }
    let size = prefix_sum::<Magnitudes>(n, coeffs, d, &mut sums[..half]);
    let value = prefix_sum::<Signed>(n, coeffs, d, &mut sums[..asked]);
    if size.is_large() {
        return Err(Refusal::Value);
    }
    Ok(value)
}

// What is summed: a number for each coefficient, and sums of them, of each of which something is kept.
pub(crate) trait Terms {
    ghost term: { ℤ → ℕ };

    ghost kept: { ℕ → ℕ };

    // The term that a coefficient gives.
    fn term_of(a: i64) -> Wide
        ensures { value result ≡ term a };

    // a + b, as far as it is kept.
    fn add(a: Wide, b: Wide) -> Wide
        ensures { kept (value result) ≡ kept (value a + value b) };

    ghost laws: { KeepsSums kept };
}

// The coefficients modulo 2^128.
#[derive(Clone, Copy)]
pub(crate) struct Signed;

impl Terms for Signed {
    ghost term = { residue (2 ^ 128) };

    ghost kept = { modulo };

    ghost laws = { modulo_keeps };

    fn term_of(a: i64) -> Wide {
        Wide::from_signed(a)
    }

    fn add(a: Wide, b: Wide) -> Wide {
        a.wrapping_add(b)
    }
}

// Their magnitudes, held down to 2^127: what has reached it stays as it is.
#[derive(Clone, Copy)]
pub(crate) struct Magnitudes;

impl Terms for Magnitudes {
    ghost term = { unsigned_abs };

    ghost kept = { capped };

    ghost laws = { capped_keeps };

    fn term_of(a: i64) -> Wide {
        Wide::from_word(a.unsigned_abs())
    }

    fn add(a: Wide, b: Wide) -> Wide {
        if a.is_large() {
            a
        } else if b.is_large() {
            b
        } else {
            a.wrapping_add(b)
        }
    }
}

// The n-fold prefix sum at d. The words are left at zero.
pub(crate) fn prefix_sum<T: Terms>(n: usize, coeffs: &[i64], d: usize, words: &mut [u64]) -> Wide
    requires { 2 * (d + 1) ≤ length words.old }
    ensures result_value { T.kept (value result) ≡ T.kept (prefix_sums n (λ k. T.term (coefficient coeffs.now k)) d) }
    ensures d_bound { unsigned_abs (coefficient coeffs.now d) < 2 ^ 64 }
    ensures words_after { words.new ≡ replicate (length words.old) 0 }
{
    let count = d + 1;
    put_terms::<T>(coeffs, count, words);
    for _done in 0..n {
        stage::<T>(count, words);
    }
    let sum = number_at(words, d);
    words.fill(0);
    sum
}

// The first `count` terms, one number each: a number is two words, so `count` says more than a part of the slice.
fn put_terms<T: Terms>(coeffs: &[i64], count: usize, words: &mut [u64])
    requires { 2 * count ≤ length words.old }
    ensures terms { (k : ℕ) → k < count → number_at words.new k ≡ T.term (coefficient coeffs.now k) }
    ensures magnitudes { (k : ℕ) → k < count → unsigned_abs (coefficient coeffs.now k) < 2 ^ 64 }
{
    for k in 0..count {
        put_number(words, k, T::term_of(coeff(coeffs, k)));
    }
}

// Each of the first `count` numbers becomes the sum of itself and those before it.
fn stage<T: Terms>(count: usize, words: &mut [u64])
    requires { 2 * count ≤ length words.old }
    ensures { (k : ℕ) → k < count → T.kept (number_at words.new k) ≡ T.kept (sum_below (suc k) (number_at words.old)) }
{
    let mut total = Wide::ZERO;
    for k in 0..count {
        total = T::add(number_at(words, k), total);
        put_number(words, k, total);
    }
}

// Number k of the words.
fn number_at(words: &[u64], k: usize) -> Wide
    requires { 2 * k + 1 < length words.now }
    ensures { value result ≡ number_at words.now k }
{
    Wide {
        low: words[2 * k],
        high: words[2 * k + 1],
    }
}

// w becomes number k of the words.
fn put_number(words: &mut [u64], k: usize, w: Wide)
    requires { 2 * k + 1 < length words.old }
    ensures { words.new ≡ slice_set (slice_set words.old (2 * k) w.low) (2 * k + 1) w.high }
{
    words[2 * k] = w.low;
    words[2 * k + 1] = w.high;
}
