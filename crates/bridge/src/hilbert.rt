// The Hilbert function that a list of coefficients gives.
ghost use Rattle.std.specs.Prelude.{◌≡◌};
ghost use Rattle.numbers.specs.Hilbert.{hilbert_answer, hilbert_room};
ghost use Rattle.bridge.specs.Told.{number_in, values_in};
ghost use Rattle.bridge.specs.Numbers.{of_signed};

use crate::told::tell;
use monomials::refusal::MAX_WIDTH;
use numbers::hf_at::MAX_DEGREE;

// The low word and the high word of the value at d, in two's complement.
pub fn pt_hf_at(n: u64, coeffs: &[i64], d: u64, sums: &mut [u64], values: &mut [u64; 4]) -> u8
    ensures value { result ≡ number_in (of_signed (hilbert_answer MAX_WIDTH MAX_DEGREE n coeffs.now d sums.old)) }
    ensures sums_after { sums.new ≡ hilbert_room MAX_WIDTH MAX_DEGREE n d sums.old }
    ensures values_after { values.new ≡ values_in (of_signed (hilbert_answer MAX_WIDTH MAX_DEGREE n coeffs.now d sums.old)) values.old }
{
    tell(
        numbers::hf_at::hf_at(n as usize, coeffs, d as usize, sums),
        values,
    )
}
