// Lists of coefficients, of any length; none of these calls refuses.
ghost use Rattle.std.specs.Prelude.{◌≡◌, eqb, length};
ghost use Rattle.std.specs.Int.{w64};
ghost use Rattle.std.proofs.Common.{of_z};
ghost use Rattle.laws.specs.Coefficients.{coefficient, trim};
ghost use Rattle.numbers.specs.Coefficients.{degree_of};
ghost use Rattle.bridge.specs.Told.{bit_of, number_in, values_in};
ghost use Rattle.bridge.specs.Numbers.{of_word, of_degree};

use crate::told::tell;

// 1 where every coefficient is 0, else 0.
pub fn pt_is_zero(coeffs: &[i64], values: &mut [u64; 4]) -> u8
    ensures value { result ≡ number_in (of_word (bit_of (eqb (length (trim coeffs.now)) 0))) }
    ensures values_after { values.new ≡ values_in (of_word (bit_of (eqb (length (trim coeffs.now)) 0))) values.old }
{
    tell(Ok(numbers::coefficients::is_zero(coeffs)), values)
}

// 1 and the degree, or 0 where every coefficient is 0.
pub fn pt_coeff_degree(coeffs: &[i64], values: &mut [u64; 4]) -> u8
    ensures value { result ≡ number_in (of_degree (degree_of coeffs.now)) }
    ensures values_after { values.new ≡ values_in (of_degree (degree_of coeffs.now)) values.old }
{
    tell(Ok(numbers::coefficients::degree(coeffs)), values)
}

// The 64 bits of the coefficient of t^d.
pub fn pt_coeff(coeffs: &[i64], d: u64, values: &mut [u64; 4]) -> u8
    ensures value { result ≡ number_in (of_word (of_z w64 (coefficient coeffs.now d))) }
    ensures values_after { values.new ≡ values_in (of_word (of_z w64 (coefficient coeffs.now d))) values.old }
{
    tell(
        Ok(numbers::signed::to_bits(numbers::coefficients::coeff(coeffs, d as usize))),
        values,
    )
}
