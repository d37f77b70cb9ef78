// A list in two parts with no variable in common.
ghost use Rattle.std.specs.Prelude.{◌≡◌, ◌-◌, ◌*◌, ◌<◌, ◌≤◌, true, length, drop, IfSome};
ghost use Rattle.laws.proofs.Pass.{Thinned};
ghost use Rattle.laws.proofs.Rows.{rows};
ghost use Rattle.laws.proofs.Seed.{Apart};

use crate::pivot::count_above;
use crate::rows::{Monomials, swap};

// The monomials of the part go last; how many others.
fn gather(room: &mut [u16], n: usize, m: usize, part: u64) -> usize
    requires { m * n ≤ length room.old }
    ensures { (result ≤ m) × Thinned n m room.old m room.new }
{
    let mut bits = part;
    let mut k: usize = 0;
    for i in 0..m {
        if bits % 2 == 0 {
            if k < i {
                swap(room, n, k, i);
            }
            k += 1;
        }
        bits /= 2;
    }
    k
}

// Whether the first b monomials have no variable in common with the others.
fn apart(list: &Monomials, b: usize) -> bool
    requires { b ≤ list.now.count }
    ensures { result ≡ true → Apart (rows list.now.n b list.now.cells.now) (rows list.now.n (list.now.count - b) (drop (b * list.now.n) list.now.cells.now)) }
{
    let front = Monomials {
        n: list.n,
        count: b,
        cells: list.cells,
    };
    for v in 0..list.n {
        if count_above(list, b, v, 1) > 0 && count_above(&front, 0, v, 1) > 0 {
            return false;
        }
    }
    true
}

// The same monomials, a part last that has no variable in common with the rest; how many are in the rest, or nothing for no part.
pub(crate) fn regroup(
    room: &mut [u16],
    n: usize,
    m: usize,
    part: Option<u64>,
    level: usize,
    w: usize,
) -> Option<usize>
    requires { m * n ≤ length room.old }
    ensures same { Thinned n m room.old m room.new }
    ensures found { IfSome result (λ b. (level < 16) × (w ≤ 512) × (b < m) × Apart (rows n b room.new) (rows n (m - b) (drop (b * n) room.new))) }
    ensures some { IfSome result (λ b. 0 < b) }
{
    let part = part?;
    if level >= 16 || w > 512 {
        return None;
    }
    let b = gather(room, n, m, part);
    let list = Monomials {
        n,
        count: m,
        cells: room,
    };
    if 0 < b && b < m && apart(&list, b) {
        return Some(b);
    }
    None
}
