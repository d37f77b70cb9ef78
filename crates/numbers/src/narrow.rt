// The list written to the room. Of more than 32 variables and three monomials the variables that no monomial has are left out: the numerator is
// the same, and every pass over a monomial is as short as it can be. Three and fewer take one pass, which is shorter than leaving out.
ghost use Rattle.std.specs.Prelude.{◌≡◌, ℕ, ◌+◌, ◌*◌, ◌<◌, ◌≤◌, length, slice_index, EachIndex};
ghost use Rattle.laws.proofs.Narrow.{Placing, Narrowed};
ghost use Rattle.laws.proofs.Rows.{Wrote};

use crate::columns::join_all;
use crate::rows::{CheckedList, Monomials};

// The places at which us is not 0; how many.
fn places(us: &[u16], ps: &mut [usize]) -> usize
    requires { length us.now ≤ length ps.old }
    ensures { (length ps.new ≡ length ps.old) × Placing us.now (length us.now) ps.new result }
{
    let mut w: usize = 0;
    for (v, u) in us.iter().enumerate() {
        ps[w] = v;
        if *u > 0 {
            w += 1;
        }
    }
    w
}

// The exponents of m at the places, from the cell `to` on.
fn pick(room: &mut [u16], to: usize, m: &[u16], ps: &[usize])
    requires { (to + length ps.now ≤ length room.old) × EachIndex ps.now (λ j. slice_index ps.now j < length m.now) }
    ensures { Wrote room.old (λ j. slice_index m.now (slice_index ps.now j)) to (length ps.now) room.new }
{
    for (j, place) in ps.iter().enumerate() {
        room[to + j] = m[*place];
    }
}

// The list without the variables that no monomial has; how many it has then.
fn put_used(room: &mut [u16], list: &Monomials, us: &mut [u16], ps: &mut [usize]) -> usize
    requires fits { (length list.now.cells.now ≡ list.now.count * list.now.n) × (list.now.count * list.now.n ≤ length room.old) }
    requires zeros { (length us.old ≡ list.now.n) × (length ps.old ≡ list.now.n) × ((v : ℕ) → slice_index us.old v ≡ 0) }
    ensures { Narrowed list.now.n list.now.count list.now.cells.now room.old result room.new }
{
    join_all(us, list);
    let w = places(us, ps);
    for i in 0..list.count {
        pick(room, i * w, list.row(i), &ps[..w]);
    }
    w
}

// The cells, at the front of the room.
// A `for`: for `copy_from_slice` an archive for C needs `memmove` from outside.
fn put_cells(room: &mut [u16], cells: &[u16])
    requires { length cells.now ≤ length room.old }
    ensures { Wrote room.old (λ j. slice_index cells.now j) 0 (length cells.now) room.new }
{
    for (i, cell) in cells.iter().enumerate() {
        room[i] = *cell;
    }
}

// A list with the numerator of the given one, at the front of the room; its width.
pub(crate) fn put_list(room: &mut [u16], list: &CheckedList) -> usize
    requires { list.now.count * list.now.n ≤ length room.old }
    ensures { Narrowed list.now.n list.now.count list.now.cells.now room.old result room.new }
{
    let n = list.n;
    if (n <= 32) | (list.count <= 3) {
        put_cells(room, list.cells);
        return n;
    }
    let mut us = [0u16; 255];
    let mut ps = [0usize; 255];
    let rows = Monomials {
        n,
        count: list.count,
        cells: list.cells,
    };
    put_used(room, &rows, &mut us[..n], &mut ps[..n])
}
