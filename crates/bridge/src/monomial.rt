// Monomials as slices of exponents; `out` is the monomial that is written.
ghost use Rattle.std.specs.Prelude.{◌≡◌};
ghost use Rattle.monomials.specs.Monomial.{degree_answer, exponent_answer, power_answer, product_answer, quotient_answer, lcm_answer, gcd_answer, divides_answer, coprime_answer, lex_answer, degrevlex_answer, power_cells, product_cells, quotient_cells, lcm_cells, gcd_cells};
ghost use Rattle.bridge.specs.Told.{number_in, values_in};
ghost use Rattle.bridge.specs.Monomials.{order_word, of_number, of_write, of_test, of_order};

use crate::told::{number_in, tell};
use monomials::refusal::{MAX_EXPONENT, MAX_WIDTH};

// The degree of a.
pub fn pt_degree(a: &[u16], values: &mut [u64; 4]) -> u8
    ensures value { result ≡ number_in (of_number (degree_answer MAX_WIDTH a.now)) }
    ensures values_after { values.new ≡ values_in (of_number (degree_answer MAX_WIDTH a.now)) values.old }
{
    tell(monomials::monomial::total_degree(a), values)
}

// The exponent of variable v in a.
pub fn pt_exponent(a: &[u16], v: u64, values: &mut [u64; 4]) -> u8
    ensures value { result ≡ number_in (of_number (exponent_answer MAX_WIDTH a.now v)) }
    ensures values_after { values.new ≡ values_in (of_number (exponent_answer MAX_WIDTH a.now v)) values.old }
{
    tell(monomials::monomial::exponent(a, v as usize), values)
}

// Variable v to the x, in n variables.
pub fn pt_power(n: u64, v: u64, x: u16, out: &mut [u16]) -> u8
    ensures value { result ≡ number_in (of_write (power_answer MAX_WIDTH n v out.old)) }
    ensures out_after { out.new ≡ power_cells MAX_WIDTH n v x out.old }
{
    number_in(monomials::monomial::power(n as usize, v as usize, x, out))
}

// The product of a and b.
pub fn pt_product(a: &[u16], b: &[u16], out: &mut [u16]) -> u8
    ensures value { result ≡ number_in (of_write (product_answer MAX_WIDTH MAX_EXPONENT a.now b.now out.old)) }
    ensures out_after { out.new ≡ product_cells MAX_WIDTH MAX_EXPONENT a.now b.now out.old }
{
    number_in(monomials::monomial::product(a, b, out))
}

// a divided by b.
pub fn pt_quotient(a: &[u16], b: &[u16], out: &mut [u16]) -> u8
    ensures value { result ≡ number_in (of_write (quotient_answer MAX_WIDTH a.now b.now out.old)) }
    ensures out_after { out.new ≡ quotient_cells MAX_WIDTH a.now b.now out.old }
{
    number_in(monomials::monomial::quotient(a, b, out))
}

// The lcm of a and b.
pub fn pt_lcm(a: &[u16], b: &[u16], out: &mut [u16]) -> u8
    ensures value { result ≡ number_in (of_write (lcm_answer MAX_WIDTH a.now b.now out.old)) }
    ensures out_after { out.new ≡ lcm_cells MAX_WIDTH a.now b.now out.old }
{
    number_in(monomials::monomial::lcm(a, b, out))
}

// The gcd of a and b.
pub fn pt_gcd(a: &[u16], b: &[u16], out: &mut [u16]) -> u8
    ensures value { result ≡ number_in (of_write (gcd_answer MAX_WIDTH a.now b.now out.old)) }
    ensures out_after { out.new ≡ gcd_cells MAX_WIDTH a.now b.now out.old }
{
    number_in(monomials::monomial::gcd(a, b, out))
}

// 1 where a divides b, else 0.
pub fn pt_divides(a: &[u16], b: &[u16], values: &mut [u64; 4]) -> u8
    ensures value { result ≡ number_in (of_test (divides_answer MAX_WIDTH a.now b.now)) }
    ensures values_after { values.new ≡ values_in (of_test (divides_answer MAX_WIDTH a.now b.now)) values.old }
{
    tell(monomials::monomial::divides(a, b), values)
}

// 1 where no variable stands in both, else 0.
pub fn pt_coprime(a: &[u16], b: &[u16], values: &mut [u64; 4]) -> u8
    ensures value { result ≡ number_in (of_test (coprime_answer MAX_WIDTH a.now b.now)) }
    ensures values_after { values.new ≡ values_in (of_test (coprime_answer MAX_WIDTH a.now b.now)) values.old }
{
    tell(monomials::monomial::is_coprime(a, b), values)
}

// a against b by Lex: 0 less, 1 equal, 2 greater.
pub fn pt_lex(a: &[u16], b: &[u16], values: &mut [u64; 4]) -> u8
    ensures value { result ≡ number_in (of_order (lex_answer MAX_WIDTH a.now b.now)) }
    ensures values_after { values.new ≡ values_in (of_order (lex_answer MAX_WIDTH a.now b.now)) values.old }
{
    tell(monomials::monomial::cmp_lex(a, b), values)
}

// a against b by DegRevLex: 0 less, 1 equal, 2 greater.
pub fn pt_degrevlex(a: &[u16], b: &[u16], values: &mut [u64; 4]) -> u8
    ensures value { result ≡ number_in (of_order (degrevlex_answer MAX_WIDTH a.now b.now)) }
    ensures values_after { values.new ≡ values_in (of_order (degrevlex_answer MAX_WIDTH a.now b.now)) values.old }
{
    tell(monomials::monomial::cmp_degrevlex(a, b), values)
}
