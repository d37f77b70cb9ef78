// The quotients of two lists by a monomial, in the room.
ghost use Rattle.std.specs.Prelude.{◌≡◌, ◌+◌, ◌-◌, ◌*◌, ◌%◌, ◌<◌, ◌≤◌, length, slice_index};
ghost use Rattle.laws.specs.Ideal.{colon};
ghost use Rattle.laws.proofs.Rows.{Wrote};
ghost use Rattle.laws.proofs.Grown.{Carries};
ghost use Rattle.numbers.specs.BothLists.{all};

use crate::extent::TwoLists;
use crate::minimal::minimalize;

// The monomials in `cells`, each divided by g, from the cell `to` on.
fn put_quotients(room: &mut [u16], to: usize, cells: &[u16], g: &[u16])
    requires { (to + length cells.now ≤ length room.old) × (0 < length cells.now → 0 < length g.now) }
    ensures { Wrote room.old (λ j. slice_index cells.now j - slice_index g.now (j % length g.now)) to (length cells.now) room.new }
{
    // The variable goes round with the cells: `zip` and `cycle` would be three iterators, one in another.
    let mut v: usize = 0;
    for (i, cell) in cells.iter().enumerate() {
        room[to + i] = cell.saturating_sub(g[v]);
        v += 1;
        if v == g.len() {
            v = 0;
        }
    }
}

// Both lists : g, without those that another one divides; how many.
pub(crate) fn quotients(room: &mut [u16], lists: &TwoLists, g: &[u16]) -> usize
    requires { (length lists.now.xs.now ≡ lists.now.s * lists.now.n) × ((lists.now.s + lists.now.t) * lists.now.n ≤ length room.old) × (length g.now ≡ lists.now.n) }
    ensures { (result ≤ lists.now.s + lists.now.t) × Carries lists.now.n result (colon (all lists.now) g.now) room.old room.new }
{
    let n = lists.n;
    put_quotients(room, 0, lists.xs, g);
    put_quotients(room, lists.xs.len(), &lists.ys[..lists.t * n], g);
    minimalize(room, n, lists.s + lists.t, 0xffff_ffff_ffff_ffff)
}
