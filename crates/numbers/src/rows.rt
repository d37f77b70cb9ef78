// Monomials that lie flat in lent cells, n exponents each.
ghost use Rattle.std.specs.Prelude.{◌≡◌, ◌+◌, ◌*◌, ◌<◌, ◌≤◌, ◌⊎◌, length, replicate, slice_index};
ghost use Rattle.laws.proofs.Rows.{Wrote, at, axis};
ghost use Rattle.laws.proofs.Pass.{Swapped};
ghost use Rattle.numbers.specs.DimensionParts.{Cells};

// A list that is only read: count monomials, n exponents each, from the first of the cells on. Not for a list that is changed, which shares its
// room with what is written behind it, and of whose room each call takes a part.
#[derive(Clone, Copy)]
pub(crate) struct Monomials<'a> {
    pub(crate) n: usize,
    pub(crate) count: usize,
    pub(crate) cells: &'a [u16],
    ghost in_cells: { count * n ≤ length cells.now },
}

impl Monomials<'_> {
    // Monomial i.
    pub(crate) fn row(&self, i: usize) -> &[u16]
        requires { i < self.now.count }
        ensures { result.now ≡ at self.now.n i self.now.cells.now }
    {
        row(self.cells, self.n, i)
    }

    // The exponent of variable v in monomial i.
    pub(crate) fn exponent(&self, i: usize, v: usize) -> u16
        requires { (i < self.now.count) × (v < self.now.n) }
        ensures { result ≡ slice_index self.now.cells.now (i * self.now.n + v) }
    {
        self.cells[i * self.n + v]
    }
}

// A list within the limits of a call: count monomials, n exponents each, in just as many cells. It says more than `Monomials`, which a part of
// a room is too; `records` has one of its own, since methods stand in the crate of their type.
#[derive(Clone, Copy)]
pub(crate) struct CheckedList<'a> {
    pub(crate) n: usize,
    pub(crate) count: usize,
    pub(crate) cells: &'a [u16],
    ghost checked: { Cells n count cells.now },
}

// Monomial i, as a part of the room.
pub(crate) fn row(room: &[u16], n: usize, i: usize) -> &[u16]
    requires { i * n + n ≤ length room.now }
    ensures { result.now ≡ at n i room.now }
{
    &room[i * n..i * n + n]
}

// Variable v to the e, in n cells from `to`.
pub(crate) fn put_power(room: &mut [u16], to: usize, n: usize, v: usize, e: u16)
    requires { (to + n ≤ length room.old) × (v < n) }
    ensures { Wrote room.old (λ j. slice_index (axis v e) j) to n room.new }
{
    room[to..to + n].fill(0);
    room[to + v] = e;
}

// Monomials i and j, exchanged.
pub(crate) fn swap(room: &mut [u16], n: usize, i: usize, j: usize)
    requires { (i < j) × ((j + 1) * n ≤ length room.old) }
    ensures { Swapped (i * n) (j * n) room.old n room.new }
{
    let a = i * n;
    let (front, back) = room.split_at_mut(j * n);
    front[a..a + n].swap_with_slice(&mut back[..n]);
}
