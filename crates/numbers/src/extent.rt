// What the asked sizes grow by: the different pairs of a variable and a nonzero exponent, and the degree of the lcm.
ghost use Rattle.std.specs.Prelude.{◌≡◌, ℕ, ◌+◌, ◌*◌, ◌/◌, ◌%◌, ◌<◌, ◌≤◌, length, drop, if◌then◌else◌, slice_index};
ghost use Rattle.laws.specs.Ideal.{listed};
ghost use Rattle.laws.specs.Room.{coefficients_asked, column, distinct as distinct_of, holds, pairs as pairs_of};
ghost use Rattle.laws.proofs.Asked.{Measured, greatest};
ghost use Rattle.laws.proofs.Columns.{Greatest};

use crate::columns::{greatest_of, join_all, used};
use crate::leaf::degree;
use crate::rows::Monomials;

// How many different pairs, and the degree of the lcm.
#[derive(Clone, Copy)]
pub(crate) struct Extent {
    pub(crate) pairs: usize,
    pub(crate) degree: usize,
}

// Two lists in n variables, taken as one: s monomials in the cells xs and, behind them, t in ys.
#[derive(Clone, Copy)]
pub(crate) struct TwoLists<'a> {
    pub(crate) n: usize,
    pub(crate) s: usize,
    pub(crate) xs: &'a [u16],
    pub(crate) t: usize,
    pub(crate) ys: &'a [u16],
    ghost first: { s * n ≤ length xs.now },
    ghost second: { t * n ≤ length ys.now },
    ghost width: { n ≤ 255 },
    ghost count: { s + t ≤ 4096 },
}

impl TwoLists<'_> {
    ghost use Rattle.numbers.specs.BothLists.{all, exponent};

    // The exponent in a cell of the two.
    fn cell(&self, k: usize) -> u16
        requires { k < self.now.s * self.now.n + self.now.t * self.now.n }
        ensures { result ≡ exponent self.now k }
    {
        let a = self.s * self.n;
        if k < a { self.xs[k] } else { self.ys[k - a] }
    }

    // The greatest exponent in the cells from number `from` on that have its variable, or x, if it is one of them.
    fn later(&self, from: usize, x: u16) -> u16
        requires { 0 < self.now.n }
        ensures { result ≡ (if holds x (drop (from / self.now.n) (column (all self.now) (from % self.now.n))) then x else greatest (drop (from / self.now.n) (column (all self.now) (from % self.now.n)))) }
    {
        let end = (self.s + self.t) * self.n;
        let mut best: u16 = 0;
        let mut k = from;
        // Not `step_by`: the test it makes before each step is two fifths more instructions in this innermost loop
        // (10 edges in 30 variables, counted by valgrind).
        while k < end {
            let y = self.cell(k);
            if x == y {
                return x;
            }
            best = best.max(y);
            k += self.n;
        }
        best
    }

    // What the first list adds to the second.
    fn added(&self) -> Extent
        ensures pairs_added { (result.pairs + pairs_of self.now.n (listed self.now.n self.now.t self.now.ys.now) ≡ pairs_of self.now.n (all self.now)) × (result.pairs ≤ 4096 * 4096) }
        ensures degree_added { (result.degree + coefficients_asked (listed self.now.n self.now.t self.now.ys.now) ≡ coefficients_asked (all self.now)) × (result.degree ≤ 4096 * 4096 * 65535) }
    {
        let mut pairs: usize = 0;
        let mut degree: usize = 0;
        for k in 0..self.s * self.n {
            let x = self.xs[k];
            if x != 0 {
                let y = self.later(k + self.n, x);
                if x != y {
                    pairs += 1;
                    degree += x.saturating_sub(y) as usize;
                }
            }
        }
        Extent { pairs, degree }
    }

    // One list, behind the other.
    fn of_two(&self) -> Extent
        ensures { Measured self.now.n (all self.now) result.pairs result.degree }
    {
        let behind = TwoLists {
            n: self.n,
            s: self.t,
            xs: self.ys,
            t: 0,
            ys: self.ys,
        };
        let first = self.added();
        let second = behind.added();
        Extent {
            pairs: first.pairs + second.pairs,
            degree: first.degree + second.degree,
        }
    }

    // How many different exponents other than 0 variable v has.
    fn distinct(&self, v: usize) -> usize
        requires { v < self.now.n }
        ensures { result ≡ distinct_of (column (all self.now) v) }
    {
        let end = (self.s + self.t) * self.n;
        let mut count: usize = 0;
        for k in (v..end).step_by(self.n) {
            let x = self.cell(k);
            if x != 0 && x != self.later(k + self.n, x) {
                count += 1;
            }
        }
        count
    }

    // The different pairs, variable by variable, whose greatest exponents us has.
    fn pairs_by_columns(&self, us: &[u16]) -> usize
        requires { Greatest self.now.n (all self.now) us.now }
        ensures { result ≡ pairs_of self.now.n (all self.now) }
    {
        let mut pairs: usize = 0;
        for (v, u) in us.iter().enumerate() {
            pairs += if *u > 1 {
                self.distinct(v)
            } else {
                *u as usize
            };
        }
        pairs
    }

    // The first list alone, by way of its lcm, which is written to us, zeros before. Where no variable is in two monomials there are as many
    // pairs as it has variables, and where it has no square as many as its degree tells.
    fn by_columns(&self, us: &mut [u16]) -> Extent
        requires alone { self.now.t ≡ 0 }
        requires zeros { (length us.old ≡ self.now.n) × ((v : ℕ) → slice_index us.old v ≡ 0) }
        ensures { Measured self.now.n (all self.now) result.pairs result.degree }
    {
        let list = Monomials {
            n: self.n,
            count: self.s,
            cells: self.xs,
        };
        let common = join_all(us, &list);
        let degree = degree(us);
        let pairs = if common == 0 {
            used(us) as usize
        } else if greatest_of(us) < 2 {
            degree
        } else {
            self.pairs_by_columns(us)
        };
        Extent { pairs, degree }
    }

    // Both lists, or one alone: in few variables a look at each cell takes less than the lcm beforehand.
    pub(crate) fn extent(&self) -> Extent
        ensures { Measured self.now.n (all self.now) result.pairs result.degree }
    {
        if self.t > 0 {
            return self.of_two();
        }
        if self.n <= 32 {
            return self.added();
        }
        let mut us = [0u16; 255];
        self.by_columns(&mut us[..self.n])
    }
}
