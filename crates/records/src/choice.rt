// The minimal monomials of a list, each once, DegRevLex greatest first, as places of the list.
ghost use Rattle.std.specs.Prelude.{◌≡◌, [], ◌∷◌, ◌++◌, ◌+◌, ◌≤◌, ◌<◌, List, ℕ, length, take, drop};
ghost use Rattle.laws.specs.Minimal.{insert, minimal};
ghost use Rattle.monomials.specs.declared.refusal.TheConstants.{MAX_COUNT};
ghost use Rattle.records.specs.Rows.{member, members, members_at, seat_of, same_at, Below};

use crate::list::MonomialList;
use monomials::refusal::MAX_COUNT;
use std::cmp::Ordering;
use std::marker::Model;

// Some places of a list, in memory of a fixed size.
#[derive(Drop)]
pub(crate) struct Places {
    places: [usize; MAX_COUNT],
    count: usize,
}

impl Model for Places {
    ghost Value = { List ℕ };

    ghost view = { λ p. take p.count p.places };

    ghost invariant = { λ p. p.count ≤ MAX_COUNT };
}

impl Places {
    pub(crate) fn new() -> Self
        ensures { result ≡ [] }
    {
        Places {
            places: [0; MAX_COUNT],
            count: 0,
        }
    }

    pub(crate) fn as_slice(&self) -> &[usize]
        ensures { result.now ≡ self.now }
    {
        &self.places[..self.count]
    }

    // Puts x at place p, and what stood there and after it one place further.
    fn insert(&mut self, p: usize, x: usize)
        requires { (p ≤ length self.old) × (length self.old < MAX_COUNT) }
        ensures { self.new ≡ take p self.old ++ x ∷ drop p self.old }
    {
        self.places.copy_within(p..self.count, p + 1);
        self.places[p] = x;
        self.count += 1;
    }
}

// Puts the places of the minimal monomials where there are none yet.
// Lent, since as a value they would be copied: a record of one monomial in one variable would take nearly twice as long.
pub(crate) fn choose(list: &MonomialList, places: &mut Places)
    requires { places.old ≡ [] }
    ensures rows { members_at list.now places.new ≡ minimal (members list.now) }
    ensures few { length places.new ≤ list.now.count }
    ensures below { Below list.now.count places.new }
{
    for i in (0..list.count).rev() {
        if list.is_minimal(i) {
            insert_row(list, places, i);
        }
    }
}

// Puts i among the places, whose monomials fall, unless its monomial is there.
// Not inlined: beside the tests of pairs its loops would lack registers, and a record of 60 monomials in 255 variables take a tenth longer.
#[inline(never)]
fn insert_row(list: &MonomialList, places: &mut Places, i: usize)
    requires there { (i < list.now.count) × (length places.old < MAX_COUNT) }
    requires below { Below list.now.count places.old }
    ensures rows { members_at list.now places.new ≡ insert (member list.now i) (members_at list.now places.old) }
    ensures few { length places.new ≤ length places.old + 1 }
    ensures below { Below list.now.count places.new }
{
    let p = seat(list, places.as_slice(), i);
    if !is_there(list, places.as_slice(), i, p) {
        places.insert(p, i);
    }
}

// How many of the places have a monomial greater than that of i, before the first that has not.
fn seat(list: &MonomialList, places: &[usize], i: usize) -> usize
    requires { (i < list.now.count) × Below list.now.count places.now }
    ensures seat { result ≡ seat_of (member list.now i) (members_at list.now places.now) }
    ensures within { result ≤ length places.now }
{
    places
        .iter()
        .position(|p| list.compare(i, *p) != Ordering::Less)
        .unwrap_or(places.len())
}

// Whether place number p has the monomial of i.
fn is_there(list: &MonomialList, places: &[usize], i: usize, p: usize) -> bool
    requires { (i < list.now.count) × Below list.now.count places.now }
    ensures { result ≡ same_at (member list.now i) (drop p (members_at list.now places.now)) }
{
    p < places.len() && list.compare(i, places[p]) == Ordering::Equal
}
