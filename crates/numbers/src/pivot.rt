// The variable to split on, and its exponent. The choice is free: what is asked of it is that two monomials reach the power, and that
// with no such variable the list is pairwise coprime.
ghost use Rattle.std.specs.Prelude.{◌≡◌, ◌+◌, ◌*◌, ◌<◌, ◌≤◌, length, MatchOption};
ghost use Rattle.laws.proofs.Column.{above};
ghost use Rattle.laws.proofs.Numerator.{PairwiseCoprime};
ghost use Rattle.laws.proofs.Rows.{rows};

use crate::rows::Monomials;

// A power of a variable.
#[derive(Clone, Copy)]
pub(crate) struct Power {
    pub(crate) v: usize,
    pub(crate) e: u16,
}

// A variable, and how many monomials have it.
#[derive(Clone, Copy)]
struct Variable {
    v: usize,
    count: usize,
}

// How many of the monomials from number i on have the variable v at least e times.
pub(crate) fn count_above(list: &Monomials, i: usize, v: usize, e: u16) -> usize
    requires { (v < list.now.n) × (i ≤ list.now.count) }
    ensures { above list.now.n v e list.now.cells.now i + result ≡ above list.now.n v e list.now.cells.now list.now.count }
{
    let mut count: usize = 0;
    for j in i..list.count {
        if list.exponent(j, v) >= e {
            count += 1;
        }
    }
    count
}

// The variable v, where two monomials have it.
fn shared_at(list: &Monomials, v: usize) -> Option<Variable>
    requires { v < list.now.n }
    ensures { MatchOption result (above list.now.n v 1 list.now.cells.now list.now.count < 2) (λ s. (s.v ≡ v) × (2 ≤ s.count) × (s.count ≡ above list.now.n v 1 list.now.cells.now list.now.count)) }
{
    let count = count_above(list, 0, v, 1);
    if count < 2 {
        return None;
    }
    Some(Variable { v, count })
}

// The hinted variable where two monomials have it, or the first that two have.
fn shared(list: &Monomials, hint: usize) -> Option<Variable>
    ensures { MatchOption result (PairwiseCoprime (rows list.now.n list.now.count list.now.cells.now)) (λ s. (s.v < list.now.n) × (2 ≤ s.count) × (s.count ≡ above list.now.n s.v 1 list.now.cells.now list.now.count)) }
{
    if hint < list.n {
        if let Some(s) = shared_at(list, hint) {
            return Some(s);
        }
    }
    for v in 0..list.n {
        if let Some(s) = shared_at(list, v) {
            return Some(s);
        }
    }
    None
}

// A variable that two monomials have, and the greatest exponent that two thirds of those reach; nothing where each variable is in one
// monomial at most.
pub(crate) fn choose(list: &Monomials, hint: usize) -> Option<Power>
    ensures { MatchOption result (PairwiseCoprime (rows list.now.n list.now.count list.now.cells.now)) (λ p. (p.v < list.now.n) × (0 < p.e) × (2 ≤ above list.now.n p.v p.e list.now.cells.now list.now.count)) }
{
    let s = shared(list, hint)?;
    let enough = s.count - s.count / 3;
    let mut e: u16 = 1;
    for i in 0..list.count {
        let x = list.exponent(i, s.v);
        if x > e && count_above(list, 0, s.v, x) >= enough {
            e = x;
        }
    }
    Some(Power { v: s.v, e })
}
