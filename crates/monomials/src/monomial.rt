// Monomials as slices of exponents, the first variable's first. Each call checks widths before all else, and a call that writes tests every
// variable before it writes a cell, so that after a refusal the output holds what it held.
ghost use Rattle.std.specs.Prelude.{◌≡◌, ◌≤◌, [], ◌∷◌, length};
ghost use Rattle.laws.specs.Monomial.{degree};
ghost use Rattle.laws.specs.Order.{lex, revlex, degrevlex};
ghost use Rattle.monomials.specs.Refusal.{refusal, answer};
ghost use Rattle.monomials.specs.Monomial.{order_of, differ, pair_checks, write_checks, degree_answer, exponent_answer, power_answer, product_answer, quotient_answer, lcm_answer, gcd_answer, divides_answer, coprime_answer, lex_answer, degrevlex_answer, power_cells, product_cells, quotient_cells, lcm_cells, gcd_cells};

use crate::cells::{all_apart, all_at_most, all_sums_fit, write_cells};
use crate::refusal::{MAX_EXPONENT, MAX_WIDTH, Refusal, check_width};
use std::cmp::Ordering;

// The degree of a.
pub fn total_degree(a: &[u16]) -> Result<u64, Refusal>
    ensures { result ≡ degree_answer MAX_WIDTH a.now }
{
    check_width(a.len())?;
    Ok(degree_of(a))
}

// The exponent of variable v in a.
pub fn exponent(a: &[u16], v: usize) -> Result<u64, Refusal>
    ensures { result ≡ exponent_answer MAX_WIDTH a.now v }
{
    check_width(a.len())?;
    if a.len() <= v {
        return Err(Refusal::Place);
    }
    Ok(u64::from(a[v]))
}

// Variable v to the x, written out in n variables.
pub fn power(n: usize, v: usize, x: u16, out: &mut [u16]) -> Result<(), Refusal>
    ensures value { result ≡ power_answer MAX_WIDTH n v out.old }
    ensures out_after { out.new ≡ power_cells MAX_WIDTH n v x out.old }
{
    check_width(n)?;
    check_cells(out, n)?;
    if n <= v {
        return Err(Refusal::Place);
    }
    out.fill(0);
    out[v] = x;
    Ok(())
}

// The product of a and b.
pub fn product(a: &[u16], b: &[u16], out: &mut [u16]) -> Result<(), Refusal>
    ensures value { result ≡ product_answer MAX_WIDTH MAX_EXPONENT a.now b.now out.old }
    ensures out_after { out.new ≡ product_cells MAX_WIDTH MAX_EXPONENT a.now b.now out.old }
{
    check_write(a, b, out)?;
    if !all_sums_fit(a, b) {
        return Err(Refusal::Exponent);
    }
    write_cells(|x, y| x + y, a, b, out);
    Ok(())
}

// a divided by b.
pub fn quotient(a: &[u16], b: &[u16], out: &mut [u16]) -> Result<(), Refusal>
    ensures value { result ≡ quotient_answer MAX_WIDTH a.now b.now out.old }
    ensures out_after { out.new ≡ quotient_cells MAX_WIDTH a.now b.now out.old }
{
    check_write(a, b, out)?;
    if !all_at_most(b, a) {
        return Err(Refusal::Division);
    }
    write_cells(|x, y| x.saturating_sub(y), a, b, out);
    Ok(())
}

// The lcm of a and b.
pub fn lcm(a: &[u16], b: &[u16], out: &mut [u16]) -> Result<(), Refusal>
    ensures value { result ≡ lcm_answer MAX_WIDTH a.now b.now out.old }
    ensures out_after { out.new ≡ lcm_cells MAX_WIDTH a.now b.now out.old }
{
    check_write(a, b, out)?;
    write_cells(|x, y| x.max(y), a, b, out);
    Ok(())
}

// The gcd of a and b.
pub fn gcd(a: &[u16], b: &[u16], out: &mut [u16]) -> Result<(), Refusal>
    ensures value { result ≡ gcd_answer MAX_WIDTH a.now b.now out.old }
    ensures out_after { out.new ≡ gcd_cells MAX_WIDTH a.now b.now out.old }
{
    check_write(a, b, out)?;
    write_cells(|x, y| x.min(y), a, b, out);
    Ok(())
}

// Whether a divides b.
// Inlined, since a record's minimal list asks it of each pair.
#[inline(always)]
pub fn divides(a: &[u16], b: &[u16]) -> Result<bool, Refusal>
    ensures { result ≡ divides_answer MAX_WIDTH a.now b.now }
{
    check_pair(a, b)?;
    Ok(all_at_most(a, b))
}

// Whether no variable stands in both.
pub fn is_coprime(a: &[u16], b: &[u16]) -> Result<bool, Refusal>
    ensures { result ≡ coprime_answer MAX_WIDTH a.now b.now }
{
    check_pair(a, b)?;
    Ok(all_apart(a, b))
}

// a against b by Lex.
pub fn cmp_lex(a: &[u16], b: &[u16]) -> Result<Ordering, Refusal>
    ensures { result ≡ lex_answer MAX_WIDTH a.now b.now }
{
    check_pair(a, b)?;
    Ok(lex_order(a, b))
}

// a against b by DegRevLex.
pub fn cmp_degrevlex(a: &[u16], b: &[u16]) -> Result<Ordering, Refusal>
    ensures { result ≡ degrevlex_answer MAX_WIDTH a.now b.now }
{
    check_pair(a, b)?;
    Ok(degrevlex_order(a, b))
}

// Whether a monomial has n cells.
fn check_cells(a: &[u16], n: usize) -> Result<(), Refusal>
    ensures { result ≡ answer (refusal (differ a.now n ∷ [])) tt }
{
    if a.len() != n {
        return Err(Refusal::Cells);
    }
    Ok(())
}

// Whether a and b have one width that is allowed.
fn check_pair(a: &[u16], b: &[u16]) -> Result<(), Refusal>
    ensures { result ≡ answer (refusal (pair_checks MAX_WIDTH a.now b.now)) tt }
{
    check_width(a.len())?;
    check_cells(b, a.len())
}

// Whether a, b and an output have one width that is allowed.
fn check_write(a: &[u16], b: &[u16], out: &[u16]) -> Result<(), Refusal>
    ensures { result ≡ answer (refusal (write_checks MAX_WIDTH a.now b.now out.now)) tt }
{
    check_pair(a, b)?;
    check_cells(out, a.len())
}

// The sum of the exponents.
fn degree_of(a: &[u16]) -> u64
    requires { length a.now ≤ MAX_WIDTH }
    ensures { result ≡ degree a.now }
{
    a.iter().map(|x| u64::from(*x)).sum()
}

// By the first variable in which they differ.
// A `for`: by `cmp` of the iterators 255 equal exponents take 2.3 times the instructions.
fn lex_order(a: &[u16], b: &[u16]) -> Ordering
    requires { length b.now ≡ length a.now }
    ensures { result ≡ order_of (lex a.now b.now) }
{
    for i in 0..a.len() {
        if a[i] != b[i] {
            return a[i].cmp(&b[i]);
        }
    }
    Ordering::Equal
}

// By the degrees, or else by the last variable in which they differ.
fn degrevlex_order(a: &[u16], b: &[u16]) -> Ordering
    requires a_len_bound { length a.now ≤ MAX_WIDTH }
    requires b_len { length b.now ≡ length a.now }
    ensures { result ≡ order_of (degrevlex a.now b.now) }
{
    let degrees = degree_of(a).cmp(&degree_of(b));
    degrees.then_with(|| revlex_order(a, b))
}

// By the last variable in which they differ, the smaller exponent being the greater. A `for`, as in `lex_order`.
fn revlex_order(a: &[u16], b: &[u16]) -> Ordering
    requires { length b.now ≡ length a.now }
    ensures { result ≡ order_of (revlex a.now b.now) }
{
    for i in (0..a.len()).rev() {
        if a[i] != b[i] {
            return b[i].cmp(&a[i]);
        }
    }
    Ordering::Equal
}
