// Lists made smaller with the same multiples, and the quotients by a power.
ghost use Rattle.std.specs.Prelude.{◌≡◌, ◌-◌, ◌*◌, ◌<◌, ◌≤◌, true, ◌≢◌, length, IfSome};
ghost use Rattle.laws.specs.Monomial.{divides as divides_cells};
ghost use Rattle.laws.proofs.Rows.{at};
ghost use Rattle.laws.proofs.Pass.{Thinned, ColonOf};

use crate::rows::Monomials;

// Whether the monomial a divides b.
// Not the call of `monomials`, which checks both widths each time.
pub(crate) fn divides(a: &[u16], b: &[u16]) -> bool
    requires { length a.now ≡ length b.now }
    ensures { result ≡ divides_cells a.now b.now }
{
    for (v, exponent) in a.iter().enumerate() {
        if *exponent > b[v] {
            return false;
        }
    }
    true
}

// Another monomial whose bit is set and that divides number i.
fn divisor(list: &Monomials, i: usize, having: u64) -> Option<usize>
    requires { i < list.now.count }
    ensures { IfSome result (λ k. (k < list.now.count) × (k ≢ i) × (divides_cells (at list.now.n k list.now.cells.now) (at list.now.n i list.now.cells.now) ≡ true)) }
{
    let mut bits = having;
    for k in 0..list.count {
        if bits & 1 == 1 && k != i && divides(list.row(k), list.row(i)) {
            return Some(k);
        }
        bits >>= 1;
    }
    None
}

// The bits with bit `from` put in the place of bit `to`, both modulo 64: what the rows' exchange does to them.
fn moved(bits: u64, from: usize, to: usize) -> u64 {
    let t = to % 64;
    let b = (bits >> (from % 64)) & 1;
    (bits & !(1u64 << t)) | (b << t)
}

// The list without the monomials that another one whose bit is set divides; how many are left.
pub(crate) fn minimalize(room: &mut [u16], n: usize, m: usize, having: u64) -> usize
    requires { m * n ≤ length room.old }
    ensures { Thinned n m room.old result room.new }
{
    let mut left = m;
    let mut i: usize = 0;
    let mut bits = having;
    // Not a `for`: the last monomial takes the place of one that is dropped, and is looked at there next.
    while i < left {
        let list = Monomials {
            n,
            count: left,
            cells: room,
        };
        if divisor(&list, i, bits).is_some() {
            left -= 1;
            room.copy_within(left * n..left * n + n, i * n);
            bits = moved(bits, left, i);
        } else {
            i += 1;
        }
    }
    left
}

// The list : variable v to the e, without those that one whose bit is set divides; how many.
pub(crate) fn colon(room: &mut [u16], n: usize, m: usize, v: usize, e: u16, having: u64) -> usize
    requires { (m * n ≤ length room.old) × (v < n) }
    ensures { ColonOf n m v e room.old result room.new }
{
    for i in 0..m {
        let at = i * n + v;
        room[at] = room[at].saturating_sub(e);
    }
    minimalize(room, n, m, having)
}
