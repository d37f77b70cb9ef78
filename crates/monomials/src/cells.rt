// Two monomials of one width, variable by variable: what is asked of their exponents, and what is made of them.
ghost use Rattle.std.specs.Prelude.{◌≡◌, ℕ, ◌<◌, ◌%◌, length, drop, slice_index};
ghost use Rattle.laws.specs.Monomial.{divides, coprime, product};
ghost use Rattle.monomials.specs.Monomial.{at_most};

use crate::refusal::MAX_EXPONENT;

// Whether each exponent of a is at most that of b.
// Eight at a time where there are as many: the first eight, and then eights up to the last one, the first of which may overlap those.
// Inlined but for the eights, so that a test that ends before them needs no call.
#[inline(always)]
pub(crate) fn all_at_most(a: &[u16], b: &[u16]) -> bool
    requires { length b.now ≡ length a.now }
    ensures { result ≡ divides a.now b.now }
{
    let (Some(x), Some(y)) = (a.first_chunk::<8>(), b.first_chunk::<8>()) else {
        return each_at_most(a, b);
    };
    eight_at_most(x, y) && eights_at_most(a, b)
}

// The same, without the exponents in front of the last whole eights, which are fewer than eight.
#[inline(never)]
fn eights_at_most(a: &[u16], b: &[u16]) -> bool
    requires { length b.now ≡ length a.now }
    ensures { result ≡ divides (drop (length a.now % 8) a.now) (drop (length b.now % 8) b.now) }
{
    let (_, xs) = a.as_rchunks::<8>();
    let (_, ys) = b.as_rchunks::<8>();
    xs.iter().zip(ys).all(|(x, y)| eight_at_most(x, y))
}

// The same of eight, with no branch between them: so the compiler compares all of them at once.
fn eight_at_most(a: &[u16; 8], b: &[u16; 8]) -> bool
    ensures { result ≡ divides a.now b.now }
{
    a.iter().zip(b).fold(true, |all, (x, y)| all & (x <= y))
}

// The same, one by one.
// A `for`: by `all` over `zip` a record of 60 monomials in one or two variables takes 1.1 to 1.3 times as long.
fn each_at_most(a: &[u16], b: &[u16]) -> bool
    requires { length b.now ≡ length a.now }
    ensures { result ≡ divides a.now b.now }
{
    for i in 0..a.len() {
        if a[i] > b[i] {
            return false;
        }
    }
    true
}

// Whether one of each variable's exponents is 0.
pub(crate) fn all_apart(a: &[u16], b: &[u16]) -> bool
    ensures { result ≡ coprime a.now b.now }
{
    a.iter().zip(b).all(|(x, y)| *x == 0 || *y == 0)
}

// Whether each sum of exponents fits a cell.
pub(crate) fn all_sums_fit(a: &[u16], b: &[u16]) -> bool
    requires { length b.now ≡ length a.now }
    ensures { result ≡ at_most MAX_EXPONENT (product a.now b.now) }
{
    a.iter()
        .zip(b)
        .all(|(x, y)| u32::from(*x) + u32::from(*y) <= MAX_EXPONENT)
}

// Writes what `op` makes of the exponents of a and b, variable by variable.
pub(crate) fn write_cells<F: Fn(u16, u16) -> u16>(op: F, a: &[u16], b: &[u16], out: &mut [u16])
    requires b_len { length b.now ≡ length a.now }
    requires out_len { length out.old ≡ length a.now }
    requires callable { (k : ℕ) → k < length a.now → F.pre op (slice_index a.now k) (slice_index b.now k) }
    ensures { (k : ℕ) → k < length a.now → F.post op (slice_index a.now k) (slice_index b.now k) (slice_index out.new k) }
{
    for i in 0..a.len() {
        out[i] = op(a[i], b[i]);
    }
}
