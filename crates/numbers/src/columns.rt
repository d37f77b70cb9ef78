// The greatest of exponents: of all in a list of cells, or for each variable.
ghost use Rattle.std.specs.Prelude.{◌≡◌, ℕ, ◌*◌, ◌<◌, ◌≤◌, max, length, slice_index};
ghost use Rattle.laws.proofs.Asked.{greatest};
ghost use Rattle.laws.proofs.Column.{above};
ghost use Rattle.laws.proofs.Columns.{Unshared, Joined, Single};
ghost use Rattle.laws.proofs.Rows.{Wrote};

use crate::rows::Monomials;

// The greatest exponent in the cells.
pub(crate) fn greatest_of(cells: &[u16]) -> u16
    ensures { result ≡ greatest cells.now }
{
    cells.iter().fold(0, |best, cell| best.max(*cell))
}

// How many exponents are not 0, in a word as wide as theirs, which a compiler counts in many at once.
pub(crate) fn used(us: &[u16]) -> u16
    requires { length us.now < 65536 }
    ensures { result ≡ above 1 0 1 us.now (length us.now) }
{
    let mut count: u16 = 0;
    for u in us {
        if *u > 0 {
            count += 1;
        }
    }
    count
}

// The greater exponent of the two, for each variable. The answer is 0 where no variable is in both: no bool, since a compiler takes the
// greatest of many words at once.
fn join(us: &mut [u16], m: &[u16]) -> u16
    requires { length us.old ≤ length m.now }
    ensures wrote { Wrote us.old (λ j. max (slice_index us.old j) (slice_index m.now j)) 0 (length us.old) us.new }
    ensures unshared { result ≡ 0 → Unshared us.old m.now (length us.old) }
{
    let mut common: u16 = 0;
    for v in 0..us.len() {
        let x = us[v];
        let y = m[v];
        common = common.max(x.min(y));
        us[v] = x.max(y);
    }
    common
}

// The first monomial in us, zeros before, if there is one; how many are in it, 0 or 1.
fn put_first(us: &mut [u16], list: &Monomials) -> usize
    requires { (length us.old ≡ list.now.n) × ((v : ℕ) → slice_index us.old v ≡ 0) }
    ensures { (length us.new ≡ list.now.n) × (result ≤ list.now.count) × Joined list.now.n list.now.count list.now.cells.now result us.new × Single list.now.n list.now.count list.now.cells.now result }
{
    if list.count == 0 {
        return 0;
    }
    us.copy_from_slice(list.row(0));
    1
}

// The greatest exponent of each variable in the list, in us, zeros before. The answer is 0 where no variable is in two monomials.
pub(crate) fn join_all(us: &mut [u16], list: &Monomials) -> u16
    requires { (length us.old ≡ list.now.n) × ((v : ℕ) → slice_index us.old v ≡ 0) }
    ensures joined { (length us.new ≡ list.now.n) × Joined list.now.n list.now.count list.now.cells.now list.now.count us.new }
    ensures single { result ≡ 0 → Single list.now.n list.now.count list.now.cells.now list.now.count }
{
    let mut common: u16 = 0;
    let first = put_first(us, list);
    for i in first..list.count {
        common = common.max(join(us, list.row(i)));
    }
    common
}
