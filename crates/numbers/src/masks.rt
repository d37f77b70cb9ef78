// The masks of a whole list, by which most divisions are ruled out without a look at the exponents: the first minimal list.
ghost use Rattle.std.specs.Prelude.{◌≡◌, ◌-◌, ◌*◌, ◌<◌, ◌≤◌, [], ◌∷◌, ◌++◌, map, length, take, replicate};
ghost use Rattle.laws.specs.Ideal.{listed};
ghost use Rattle.laws.specs.Mask.{mask as mask_of};
ghost use Rattle.laws.proofs.Asked.{greatest};
ghost use Rattle.laws.proofs.Pass.{Thinned};

use crate::columns::greatest_of;
use crate::minimal::minimalize;
use crate::rows::Monomials;
use monomials::divmask::mask;

// The two words of the mask of a monomial, with thresholds spread up to `most`.
fn two_words(n: usize, most: u16, row: &[u16]) -> [u64; 2]
    requires { n ≤ 255 }
    ensures { result ≡ mask_of n most row.now }
{
    let answer = mask(n, most, row);
    match answer {
        Ok(m) => [m.low, m.high],
        Err(_) => [0, 0],
    }
}

// The masks of the monomials, one after another, and zeros behind them.
fn masks_of(list: &Monomials) -> [[u64; 2]; 60]
    requires { (list.now.count ≤ 60) × (list.now.n ≤ 255) }
    ensures { result ≡ map (mask_of list.now.n (greatest (take (list.now.count * list.now.n) list.now.cells.now))) (listed list.now.n list.now.count list.now.cells.now) ++ replicate (60 - list.now.count) (0 ∷ 0 ∷ []) }
{
    let most = greatest_of(&list.cells[..list.count * list.n]);
    let mut m = [[0u64; 2]; 60];
    for i in 0..list.count {
        m[i] = two_words(list.n, most, list.row(i));
    }
    m
}

// Whether the first `count` masks allow that monomial k divides another one. They are arrays of two words, and so not for `divides_consistent_with`.
fn may_divide(masks: &[[u64; 2]; 60], count: usize, k: usize) -> bool
    requires { (count ≤ 60) × (k < count) }
{
    let a = masks[k];
    masks[..count]
        .iter()
        .enumerate()
        .any(|(i, b)| i != k && (a[0] & !b[0]) | (a[1] & !b[1]) == 0)
}

// The monomials that the masks allow to divide another one, a bit for each. Where they are few, masks cost more than they save.
fn dividing(list: &Monomials) -> u64
    requires { (list.now.count ≤ 60) × (list.now.n ≤ 255) }
{
    if list.count < 16 {
        return 0xffff_ffff_ffff_ffff;
    }
    let masks = masks_of(list);
    let mut bits: u64 = 0;
    for k in (0..list.count).rev() {
        bits = bits << 1 | u64::from(may_divide(&masks, list.count, k));
    }
    bits
}

// The list without the monomials that another one divides; how many are left. Six are sooner counted than compared, and stay as they are.
pub(crate) fn starting_list(room: &mut [u16], n: usize, s: usize) -> usize
    requires { (s * n ≤ length room.old) × (s ≤ 60) × (n ≤ 255) }
    ensures { Thinned n s room.old result room.new }
{
    if s <= 6 {
        return s;
    }
    let having = dividing(&Monomials {
        n,
        count: s,
        cells: room,
    });
    minimalize(room, n, s, having)
}
