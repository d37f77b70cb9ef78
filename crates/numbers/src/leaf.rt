// A leaf: the numerator of a pairwise coprime list, as a product, added to the output at its shift. Sums are modulo 2^64.
ghost use Rattle.std.specs.Prelude.{◌≡◌, ◌*◌, ◌<◌, ◌≤◌, ◌⊎◌, [], length};
ghost use Rattle.laws.specs.Coefficients.{coefficient, shift as shifted};
ghost use Rattle.laws.specs.Monomial.{degree as degree_of};
ghost use Rattle.laws.proofs.Added.{AddedTo, Timed, Zeros};
ghost use Rattle.laws.proofs.Leaf.{by, Past, Product};
ghost use Rattle.laws.proofs.Numerator.{PairwiseCoprime};
ghost use Rattle.laws.proofs.Rows.{rows};
ghost use Rattle.laws.proofs.Seed.{seeded};

use crate::rows::Monomials;
use crate::signed;

// The degree of a.
// In 32 bits, and with no check of the width, unlike `total_degree`.
pub(crate) fn degree(a: &[u16]) -> usize
    requires { length a.now ≤ 65536 }
    ensures { (result ≡ degree_of a.now) × (result ≤ 4294901760) }
{
    let degree: u32 = a.iter().map(|exponent| u32::from(*exponent)).sum();
    degree as usize
}

// c times 1 - t^a, cut at its length.
fn times(c: &mut [i64], a: usize)
    ensures { Timed a c.old c.new }
{
    for k in (a..c.len()).rev() {
        let x = c[k];
        let y = c[k - a];
        c[k] = signed::wrapping_sub(x, y);
    }
}

// t^shift times the seed, added to out or taken off it, cut at its length.
// `neg` is a sign, which the recursion turns round, and no step.
pub(crate) fn add_shifted(out: &mut [i64], shift: usize, seed: &[i64], neg: bool)
    ensures { AddedTo (shifted shift (λ k. by neg (coefficient seed.now k))) out.old out.new }
{
    let end = shift + seed.len().min(out.len().saturating_sub(shift));
    for k in shift..end {
        let x = out[k];
        let y = seed[k - shift];
        let z = if neg {
            signed::wrapping_sub(x, y)
        } else {
            signed::wrapping_add(x, y)
        };
        out[k] = z;
    }
}

// The seed times the product of all 1 - t^degree, in scratch, cut at its length.
fn product(list: &Monomials, seed: &[i64], scratch: &mut [i64])
    requires width { list.now.n ≤ 65536 }
    requires zeros { Zeros scratch.old }
    ensures { Product seed.now list.now.n list.now.count list.now.cells.now (length scratch.old) scratch.new }
{
    add_shifted(scratch, 0, seed, false);
    for i in 0..list.count {
        let d = degree(list.row(i));
        times(scratch, d);
    }
}

// How many coefficients the seed times the product of all 1 - t^degree can have, or cap where those are more.
fn span(list: &Monomials, seed: &[i64], cap: usize) -> usize
    requires { (list.now.n ≤ 65536) × (cap < 1152921504606846976) }
    ensures { (result ≤ cap) × Past seed.now list.now.n list.now.count list.now.cells.now result cap }
{
    let mut w = seed.len().min(cap);
    for i in 0..list.count {
        let d = degree(list.row(i));
        w = (w + d).min(cap);
    }
    w
}

// t^shift times the seed times the numerator of a pairwise coprime list, added to out; scratch is left at zero.
// `out` and `scratch` go apart, since most that adds is lent `out` alone.
pub(crate) fn leaf(
    list: &Monomials,
    shift: usize,
    seed: &[i64],
    out: &mut [i64],
    scratch: &mut [i64],
)
    requires width { list.now.n ≤ 65536 }
    requires pairwise_coprime { PairwiseCoprime (rows list.now.n list.now.count list.now.cells.now) }
    requires scratch_len { (length scratch.old ≡ length out.old) × Zeros scratch.old }
    ensures added_to { AddedTo (shifted shift (seeded (coefficient seed.now) [] (rows list.now.n list.now.count list.now.cells.now))) out.old out.new }
    ensures scratch_len_unchanged { (length scratch.new ≡ length scratch.old) × Zeros scratch.new }
{
    let w = span(list, seed, scratch.len());
    product(list, seed, &mut scratch[..w]);
    add_shifted(out, shift, &scratch[..w], false);
    scratch[..w].fill(0);
}
