// The monomials of a list, told by their places: their comparison, their divisibility, and what these say of the list.
ghost use Rattle.std.specs.Prelude.{◌≡◌, ◌+◌, ◌*◌, ◌≤◌, ◌<◌, length, drop};
ghost use Rattle.laws.specs.Monomial.{divides as divides_of};
ghost use Rattle.laws.specs.Ideal.{multiple};
ghost use Rattle.laws.specs.Order.{degrevlex};
ghost use Rattle.laws.specs.Minimal.{proper, minimal_in};
ghost use Rattle.monomials.specs.Monomial.{order_of};
ghost use Rattle.records.specs.Rows.{row, member, members, above, stands};

use crate::list::MonomialList;
use monomials::monomial::{cmp_degrevlex, divides};
use std::cmp::Ordering;

impl MonomialList<'_> {
    // The exponents of monomial i.
    pub(crate) fn row(&self, i: usize) -> &[u16]
        requires { i < self.now.count }
        ensures row { result.now ≡ member self.now i }
        ensures len { length result.now ≡ self.now.width }
    {
        let from = i * self.width;
        &self.cells[from..from + self.width]
    }

    // Whether each monomial is greater than the next, and divided by no later one.
    pub(crate) fn stand(&self) -> bool
        ensures { result ≡ stands (members self.now) }
    {
        (0..self.count).all(|i| self.is_above_next(i) && !self.is_divided_later(i))
    }

    // Whether monomial i is greater than the next one, if there is one.
    fn is_above_next(&self, i: usize) -> bool
        requires { i < self.now.count }
        ensures { result ≡ above (member self.now i) (drop (i + 1) (members self.now)) }
    {
        i == self.count - 1 || self.compare(i, i + 1) == Ordering::Greater
    }

    // Whether a later monomial divides monomial i.
    fn is_divided_later(&self, i: usize) -> bool
        requires { i < self.now.count }
        ensures { result ≡ multiple (drop (i + 1) (members self.now)) (member self.now i) }
    {
        (i + 1..self.count).any(|j| self.divides(j, i))
    }

    // Whether no monomial is a proper divisor of monomial i.
    pub(crate) fn is_minimal(&self, i: usize) -> bool
        requires { i < self.now.count }
        ensures { result ≡ minimal_in (members self.now) (member self.now i) }
    {
        (0..self.count).all(|j| !self.properly_divides(j, i))
    }

    // Whether monomial i divides monomial j and is not divided by it.
    fn properly_divides(&self, i: usize, j: usize) -> bool
        requires { (i < self.now.count) × (j < self.now.count) }
        ensures { result ≡ proper (member self.now i) (member self.now j) }
    {
        self.divides(i, j) && !self.divides(j, i)
    }

    // How monomial i compares with monomial j by DegRevLex.
    pub(crate) fn compare(&self, i: usize, j: usize) -> Ordering
        requires { (i < self.now.count) × (j < self.now.count) }
        ensures { result ≡ order_of (degrevlex (member self.now i) (member self.now j)) }
    {
        match cmp_degrevlex(self.row(i), self.row(j)) {
            Ok(order) => order,
            Err(_) => Ordering::Equal,
        }
    }

    // Whether monomial i divides monomial j.
    fn divides(&self, i: usize, j: usize) -> bool
        requires { (i < self.now.count) × (j < self.now.count) }
        ensures { result ≡ divides_of (member self.now i) (member self.now j) }
    {
        match divides(self.row(i), self.row(j)) {
            Ok(yes) => yes,
            Err(_) => false,
        }
    }
}
