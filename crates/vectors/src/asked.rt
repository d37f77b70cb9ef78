// The exponent cells and the coefficients that a list asks for, found another way than the calls find them: by going over the cells as they lie.
ghost use Rattle.std.specs.Prelude.{◌≡◌, ◌*◌, ◌<◌, ◌≤◌, not, ◌==◌, ◌||◌, length};
ghost use Rattle.laws.specs.Room.{holds};
ghost use Rattle.laws.proofs.Asked.{greatest};
ghost use Rattle.vectors.specs.Asked.{spaced, pairs_in, cells_of, above, coefficients_of};

// s·n·(s + e) for s monomials of width n; 0 for more than 65,535 monomials or cells, which no call takes.
pub fn cells_asked(n: usize, s: usize, cells: &[u16]) -> u64
    ensures { result ≡ cells_of n s cells.now }
{
    if 65535 < s || 65535 < cells.len() {
        return 0;
    }
    let e = pairs(n.saturating_sub(1), cells);
    (cells.len() * (s + e)) as u64
}

// 1 + the degree of the lcm of all monomials of width n; 0 for more than 65,535 cells.
pub fn coefficients_asked(n: usize, cells: &[u16]) -> u64
    ensures { result ≡ coefficients_of n cells.now }
{
    if 65535 < cells.len() {
        return 0;
    }
    degree_above(n.saturating_sub(1), cells) + 1
}

// By how much each cell is above all later cells of the same variable, added.
fn degree_above(gap: usize, cells: &[u16]) -> u64
    requires gap_fits { gap < usize.MAX }
    requires small { length cells.now ≤ 65535 }
    ensures { (result ≡ above gap cells.now) × (result ≤ 65535 * length cells.now) }
{
    let mut d: u64 = 0;
    for (i, x) in cells.iter().enumerate() {
        d += u64::from(x.saturating_sub(greatest_in(gap, &cells[i + 1..])));
    }
    d
}

// The greatest of the cells that each come after a gap.
fn greatest_in(gap: usize, cells: &[u16]) -> u16
    requires { gap < usize.MAX }
    ensures { result ≡ greatest (spaced gap gap cells.now) }
{
    let mut most: u16 = 0;
    for i in (gap..cells.len()).step_by(gap + 1) {
        most = most.max(cells[i]);
    }
    most
}

// How many cells are other than 0 and stand in no later cell of the same variable.
fn pairs(gap: usize, cells: &[u16]) -> usize
    requires { gap < usize.MAX }
    ensures { (result ≡ pairs_in gap cells.now) × (result ≤ length cells.now) }
{
    let mut e: usize = 0;
    for (i, x) in cells.iter().enumerate() {
        e += usize::from(is_last(gap, *x, &cells[i + 1..]));
    }
    e
}

// Whether x counts: it is other than 0 and stands in none of the later cells of its variable.
fn is_last(gap: usize, x: u16, later: &[u16]) -> bool
    requires { gap < usize.MAX }
    ensures { result ≡ not (x == 0 || holds x (spaced gap gap later.now)) }
{
    x != 0 && !stands_in(gap, later, x)
}

// Whether x stands in one of the cells that each come after a gap.
fn stands_in(gap: usize, cells: &[u16], x: u16) -> bool
    requires { gap < usize.MAX }
    ensures { result ≡ holds x (spaced gap gap cells.now) }
{
    for i in (gap..cells.len()).step_by(gap + 1) {
        if x == cells[i] {
            return true;
        }
    }
    false
}
