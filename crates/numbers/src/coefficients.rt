// Lists of coefficients, the constant first, of any length; past the end every coefficient is 0.
ghost use Rattle.std.specs.Prelude.{◌≡◌, length, ◌==◌};
ghost use Rattle.laws.specs.Coefficients.{coefficient, trim};
ghost use Rattle.numbers.specs.Coefficients.{degree_of};

// Whether every coefficient is 0.
pub fn is_zero(coeffs: &[i64]) -> bool
    ensures { result ≡ (length (trim coeffs.now) == 0) }
{
    trimmed_length(coeffs) == 0
}

// The greatest k with a coefficient of t^k other than 0; the polynomial 0 has no degree.
pub fn degree(coeffs: &[i64]) -> Option<u64>
    ensures { result ≡ degree_of coeffs.now }
{
    let n = trimmed_length(coeffs);
    if n == 0 {
        return None;
    }
    Some((n - 1) as u64)
}

// The coefficient of t^k.
pub fn coeff(coeffs: &[i64], k: usize) -> i64
    ensures { result ≡ coefficient coeffs.now k }
{
    coeffs.get(k).copied().unwrap_or(0)
}

// The length without the zeros at the end.
pub(crate) fn trimmed_length(coeffs: &[i64]) -> usize
    ensures { result ≡ length (trim coeffs.now) }
{
    for k in (0..coeffs.len()).rev() {
        if coeffs[k] != 0 {
            return k + 1;
        }
    }
    0
}
