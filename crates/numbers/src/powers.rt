// Pure powers: the least one of each variable, and from them the degree bound and the product, with the checks 13 and 11.
ghost use Rattle.std.specs.Prelude.{◌≡◌, ℕ, ◌*◌, ◌<◌, ◌≤◌, ◌≢◌, length, if◌then◌else◌, nat_eq, slice_index};
ghost use Rattle.laws.specs.Dimension.{pure_power, lesser as lesser_of};
ghost use Rattle.laws.specs.Ideal.{listed, unit_in};
ghost use Rattle.numbers.specs.DimensionParts.{BoundOf, bound_answer};
ghost use Rattle.numbers.specs.Wide.{product_answer};

use crate::hf_at::MAX_DEGREE;
use crate::leaf::degree;
use crate::rows::Monomials;
use crate::wide::Wide;
use monomials::refusal::{MAX_WIDTH, Refusal};

// Whether some monomial is the unit.
pub(crate) fn has_unit(list: &Monomials) -> bool
    requires { list.now.n ≤ 255 }
    ensures { result ≡ unit_in (listed list.now.n list.now.count list.now.cells.now) }
{
    for i in 0..list.count {
        if degree(list.row(i)) == 0 {
            return true;
        }
    }
    false
}

// The degree bound, unless there is no dimension or the product of the least powers reaches 2^127.
pub(crate) fn checked_bound(list: &Monomials) -> Result<usize, Refusal>
    requires { list.now.n ≤ 255 }
    ensures { result ≡ bound_answer 65536 list.now.n (listed list.now.n list.now.count list.now.cells.now) }
{
    let mut powers = [0u16; MAX_WIDTH];
    for i in (0..list.count).rev() {
        take_in(list.row(i), &mut powers);
    }
    bound_of(list.n, &powers)
}

// The least power of each variable, 0 where it has none (as `least_power` of laws has it), once the monomial m is in the list too.
fn take_in(m: &[u16], powers: &mut [u16])
    requires { (length m.now ≤ 65536) × (length m.now ≤ length powers.old) }
    ensures { (v : ℕ) → v < length m.now → slice_index powers.new v ≡ lesser_of (pure_power m.now v) (slice_index powers.old v) }
{
    let d = degree(m);
    for v in 0..m.len() {
        powers[v] = lesser(d, m[v], powers[v]);
    }
}

// The lesser of x, where it is the whole degree d, and y; of either 0 is none, as in `least_power`, so that 255 of them are 255 words.
fn lesser(d: usize, x: u16, y: u16) -> u16
    ensures { result ≡ lesser_of (if nat_eq d x then x else 0) y }
{
    if d != x as usize || x == 0 {
        y
    } else if y == 0 {
        x
    } else {
        x.min(y)
    }
}

// The degree bound by the least powers of the n variables; `n` goes with them, since the clause speaks of lists in n variables.
fn bound_of(n: usize, powers: &[u16]) -> Result<usize, Refusal>
    requires { (n ≤ length powers.now) × (n ≤ 65536) }
    ensures { BoundOf 65536 n powers.now result }
{
    let mut d: usize = 0;
    let mut product = Some(Wide::ONE);
    for v in 0..n {
        let x = powers[v];
        if x == 0 {
            return Err(Refusal::Dimension);
        }
        d += (x - 1) as usize;
        product = times(product, x);
    }
    if MAX_DEGREE < d {
        return Err(Refusal::Dimension);
    }
    match product {
        Some(_) => Ok(d),
        None => Err(Refusal::Value),
    }
}

// The product with x, which is not 0: one that passed 2^127 stays so.
fn times(product: Option<Wide>, x: u16) -> Option<Wide>
    requires { x ≢ 0 }
    ensures { (q : ℕ) → product ≡ product_answer q → result ≡ product_answer (x * q) }
{
    match product {
        Some(w) => w.times(x as u64),
        None => None,
    }
}
