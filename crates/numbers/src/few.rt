// Few monomials: N(L, a) = N(L) - t^deg(a) N(L : a), the last monomial first, the quotients written behind the list; three and fewer by their
// degrees alone.
ghost use Rattle.std.specs.Prelude.{◌≡◌, ℕ, ◌+◌, ◌-◌, ◌*◌, ◌^◌, ◌<◌, ◌≤◌, true, [], length, slice_index};
ghost use Rattle.laws.specs.Coefficients.{coefficient, shift as shifted};
ghost use Rattle.laws.specs.Monomial.{quotient};
ghost use Rattle.laws.proofs.Added.{AddedTo};
ghost use Rattle.laws.proofs.Few.{DegreeIs, Quotients, factor, pair};
ghost use Rattle.laws.proofs.Leaf.{by};
ghost use Rattle.laws.proofs.Rows.{Wrote, rows};
ghost use Rattle.laws.proofs.Seed.{seeded};
ghost use Rattle.numbers.specs.FewParts.{DegreesAre};

use crate::leaf::{add_shifted, degree};
use crate::rows::{Monomials, row};

// The quotient of the n cells from `from` by those from `by`, in n cells from `to`; whether it is the unit.
fn divide(room: &mut [u16], from: usize, by: usize, to: usize, n: usize) -> bool
    requires { (from + n ≤ to) × (by + n ≤ to) × (to + n ≤ length room.old) }
    ensures wrote { Wrote room.old (λ j. slice_index room.old (from + j) - slice_index room.old (by + j)) to n room.new }
    ensures unit_left { result ≡ true → (j : ℕ) → j < n → slice_index room.old (from + j) - slice_index room.old (by + j) ≡ 0 }
{
    let mut unit = true;
    for i in 0..n {
        let z = room[from + i].saturating_sub(room[by + i]);
        room[to + i] = z;
        if z > 0 {
            unit = false;
        }
    }
    unit
}

// The quotients of the first k monomials by number k, behind those k + 1, up to the first that is the unit; whether one is.
fn quotients(room: &mut [u16], n: usize, k: usize) -> bool
    requires { (k + 1) * n + k * n ≤ length room.old }
    ensures { Quotients n k room.old k result room.new }
{
    let by = k * n;
    let base = by + n;
    for i in 0..k {
        if divide(room, i * n, by, base + i * n, n) {
            return true;
        }
    }
    false
}

// The degrees of two monomials a and b, and of the quotient a : b.
#[derive(Clone, Copy)]
struct Degrees {
    a: u32,
    b: u32,
    ab: u32,
}

impl Degrees {
    const NONE: Degrees = Degrees { a: 0, b: 0, ab: 0 };

    // The exponents x of a and y of b added.
    fn add(&mut self, x: u16, y: u16)
        requires { (self.old.a + 65535 < 2 ^ 32) × (self.old.b + 65535 < 2 ^ 32) × (self.old.ab + 65535 < 2 ^ 32) }
        ensures { (self.new.a ≡ self.old.a + x) × (self.new.b ≡ self.old.b + y) × (self.new.ab ≡ self.old.ab + (x - y)) }
    {
        self.a += x as u32;
        self.b += y as u32;
        self.ab += x.saturating_sub(y) as u32;
    }
}

// The degrees of three monomials: of the first two, of the third c, and of the quotients a : c and b : c.
#[derive(Clone, Copy)]
struct Three {
    first: Degrees,
    c: u32,
    by_c: Degrees,
}

// The degrees of two monomials, in one pass.
fn pair_degrees(a: &[u16], b: &[u16]) -> Degrees
    requires { (length a.now ≡ length b.now) × (length a.now ≤ 65536) }
    ensures { DegreesAre result a.now b.now }
{
    let mut d = Degrees::NONE;
    for i in 0..a.len() {
        d.add(a[i], b[i]);
    }
    d
}

// The degrees of three monomials, in one pass.
fn triple_degrees(a: &[u16], b: &[u16], c: &[u16]) -> Three
    requires { (length a.now ≡ length b.now) × (length a.now ≡ length c.now) × (length a.now ≤ 65536) }
    ensures listed { DegreesAre result.first a.now b.now × DegreeIs result.c c.now }
    ensures quotients { DegreesAre result.by_c (quotient a.now c.now) (quotient b.now c.now) }
{
    let mut first = Degrees::NONE;
    let mut dc: u32 = 0;
    let mut by_c = Degrees::NONE;
    for i in 0..a.len() {
        let x = a[i];
        let y = b[i];
        let z = c[i];
        let p = x.saturating_sub(z);
        let q = y.saturating_sub(z);
        first.add(x, y);
        dc += z as u32;
        by_c.add(p, q);
    }
    Three { first, c: dc, by_c }
}

// t^shift times 1 - t^d times the seed, added to out or taken off it, cut at its length.
fn add_factor(out: &mut [i64], shift: usize, d: usize, seed: &[i64], neg: bool)
    requires { (shift < 4611686018427387904) × (d ≤ 4294901760) }
    ensures { AddedTo (shifted shift (factor seed.now d neg)) out.old out.new }
{
    add_shifted(out, shift, seed, neg);
    add_shifted(out, shift + d, seed, !neg);
}

// t^shift times the seed times the numerator of a and b by their degrees, 1 - t^a - t^b (1 - t^ab), added to out or taken off it.
fn add_pair(out: &mut [i64], shift: usize, d: Degrees, seed: &[i64], neg: bool)
    requires { (shift < 2305843009213693952 + 4294901760) × (d.a ≤ 4294901760) × (d.b ≤ 4294901760) × (d.ab ≤ 4294901760) }
    ensures { AddedTo (shifted shift (pair seed.now d.a d.b d.ab neg)) out.old out.new }
{
    add_factor(out, shift + d.b as usize, d.ab as usize, seed, !neg);
    add_factor(out, shift, d.a as usize, seed, neg);
}

// At most three monomials, by degrees alone: N(a, b, c) = N(a, b) - t^deg(c) N(a : c, b : c).
fn at_most_three(list: &Monomials, neg: bool, shift: usize, seed: &[i64], out: &mut [i64])
    requires { (list.now.count ≤ 3) × (list.now.n ≤ 65536) × (shift < 2305843009213693952) }
    ensures { AddedTo (shifted shift (λ k. by neg (seeded (coefficient seed.now) [] (rows list.now.n list.now.count list.now.cells.now) k))) out.old out.new }
{
    if list.count == 0 {
        add_shifted(out, shift, seed, neg);
        return;
    }
    let a = list.row(0);
    if list.count == 1 {
        add_factor(out, shift, degree(a), seed, neg);
        return;
    }
    let b = list.row(1);
    if list.count == 2 {
        add_pair(out, shift, pair_degrees(a, b), seed, neg);
        return;
    }
    let d = triple_degrees(a, b, list.row(2));
    add_pair(out, shift + d.c as usize, d.by_c, seed, !neg);
    add_pair(out, shift, d.first, seed, neg);
}

// t^shift times the seed times the numerator, added to out or taken off it, cut at its length.
pub(crate) fn few(
    room: &mut [u16],
    n: usize,
    m: usize,
    neg: bool,
    shift: usize,
    seed: &[i64],
    out: &mut [i64],
)
    requires { (m * m * n ≤ length room.old) × (n ≤ 65536) × (shift < 2305843009213693952) }
    ensures { AddedTo (shifted shift (λ k. by neg (seeded (coefficient seed.now) [] (rows n m room.old) k))) out.old out.new }
{
    if shift >= out.len() {
        return;
    }
    for left in (3..m).rev() {
        let d = degree(row(room, n, left));
        let unit = quotients(room, n, left);
        // A list with the unit has the numerator 0.
        if !unit {
            let behind = left * n + n;
            few(&mut room[behind..], n, left, !neg, shift + d, seed, out);
        }
    }
    let list = Monomials {
        n,
        count: m.min(3),
        cells: room,
    };
    at_most_three(&list, neg, shift, seed, out);
}
