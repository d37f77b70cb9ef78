// The engine: t^shift times the seed times the numerator of a list, added to the output modulo 2^64. The list is split,
// N(I) = N(I + (p)) + t^deg(p) N(I : p): the second branch is done in place, in a loop; the first is copied behind the list and has fewer
// monomials, so the depth is at most their number.
ghost use Rattle.std.specs.Prelude.{◌≡◌, ◌+◌, ◌-◌, ◌*◌, ◌<◌, ◌≤◌, [], length, drop};
ghost use Rattle.laws.specs.Coefficients.{coefficient, shift as shifted};
ghost use Rattle.laws.proofs.Added.{AddedTo, Zeros};
ghost use Rattle.laws.proofs.Rows.{rows};
ghost use Rattle.laws.proofs.Seed.{seeded, Apart};

use crate::branch::sum_branch;
use crate::coefficients::trimmed_length;
use crate::few::few;
use crate::hints::look;
use crate::leaf::leaf;
use crate::minimal::colon;
use crate::parts::regroup;
use crate::pivot::choose;
use crate::rows::Monomials;

// A list of two parts: the seed times the numerator of the last a monomials is the seed of the first b. A function by itself, so that no
// other frame holds the array.
#[cycle(add_numerator_parts)]
fn parts(
    room: &mut [u16],
    n: usize,
    b: usize,
    a: usize,
    shift: usize,
    seed: &[i64],
    level: usize,
    out: &mut [i64],
    scratch: &mut [i64],
)
    requires n_in_bounds { ((a + b) * (a + b) * n ≤ length room.old) × (n ≤ 65536) × (0 < b) × (0 < a) × (level ≤ 16) }
    requires scratch_len { (length scratch.old ≡ length out.old) × Zeros scratch.old × (shift ≤ length out.old) × (length out.old - shift ≤ 512) }
    requires apart { Apart (rows n b room.old) (rows n a (drop (b * n) room.old)) }
    ensures added_to { AddedTo (shifted shift (seeded (coefficient seed.now) [] (rows n (b + a) room.old))) out.old out.new }
    ensures scratch_len_unchanged { (length scratch.new ≡ length scratch.old) × Zeros scratch.new }
{
    let mut q = [0i64; 512];
    let w = out.len() - shift;
    let base = b * n;
    add_numerator(
        &mut room[base..],
        n,
        a,
        0,
        seed,
        level,
        &mut q[..w],
        &mut scratch[..w],
    );
    let r = trimmed_length(&q[..w]);
    add_numerator(room, n, b, shift, &q[..r], level, out, scratch);
}

// t^shift times the seed times the numerator of m monomials, added to out, cut at its length; scratch is left at zero.
#[cycle(add_numerator_parts)]
pub(crate) fn add_numerator(
    room: &mut [u16],
    n: usize,
    m: usize,
    shift: usize,
    seed: &[i64],
    level: usize,
    out: &mut [i64],
    scratch: &mut [i64],
)
    requires n_in_bounds { (m * m * n ≤ length room.old) × (n ≤ 65536) × (level ≤ 16) }
    requires scratch_len { (length scratch.old ≡ length out.old) × Zeros scratch.old }
    ensures added_to { AddedTo (shifted shift (seeded (coefficient seed.now) [] (rows n m room.old))) out.old out.new }
    ensures scratch_len_unchanged { (length scratch.new ≡ length scratch.old) × Zeros scratch.new }
{
    let mut left = m;
    let mut at = shift;
    // Not a `for`: the shift grows by the exponent that each turn chooses.
    while at < out.len() {
        let list = Monomials {
            n,
            count: left,
            cells: room,
        };
        let Some(h) = look(&list, seed.len()) else {
            few(room, n, left, false, at, seed, out);
            return;
        };
        let w = out.len() - at;
        if let Some(b) = regroup(room, n, left, h.part, level, w) {
            parts(room, n, b, left - b, at, seed, level + 1, out, scratch);
            return;
        }
        let list = Monomials {
            n,
            count: left,
            cells: room,
        };
        let Some(p) = choose(&list, h.v) else {
            leaf(&list, at, seed, out, scratch);
            return;
        };
        let k = sum_branch(room, n, left, p.v, p.e);
        let base = left * n;
        add_numerator(&mut room[base..], n, k, at, seed, level, out, scratch);
        left = colon(room, n, left, p.v, p.e, h.having);
        at += p.e as usize;
    }
}
