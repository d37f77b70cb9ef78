// The branch I + (p), p a power of one variable.
ghost use Rattle.std.specs.Prelude.{◌+◌, ◌*◌, ◌<◌, ◌≤◌, length};
ghost use Rattle.laws.proofs.Branch.{Branched};
ghost use Rattle.laws.proofs.Column.{above};

use crate::rows::put_power;

// The monomials that variable v to the e does not divide, and that power, behind the list; how many.
pub(crate) fn sum_branch(room: &mut [u16], n: usize, m: usize, v: usize, e: u16) -> usize
    requires { (m * n + m * n ≤ length room.old) × (v < n) × (2 ≤ above n v e room.old m) }
    ensures { Branched n m v e room.old result room.new }
{
    let mut to = m * n;
    let mut k: usize = 0;
    for i in 0..m {
        let at = i * n;
        if room[at + v] < e {
            room.copy_within(at..at + n, to);
            to += n;
            k += 1;
        }
    }
    put_power(room, to, n, v, e);
    k + 1
}
