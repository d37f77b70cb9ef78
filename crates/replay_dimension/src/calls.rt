// The dimension of one case's list, held against the number, the values and the rooms that the case gives. A case that is larger than the slices
// here is wrong.
ghost use Rattle.std.specs.Prelude.{◌≡◌, Bool, Some};

use monomials::refusal::Refusal;
use numbers::dimension::{Dimension, quotient_dimension};
use vectors::asked::{cells_asked, coefficients_asked};
use vectors::reader::Reader;
use vectors::replay::Calls;
use vectors::rooms::{compare, wiped};
use vectors::told::{done, told_by};

// No list has more cells, and no case lends more.
const CELLS: usize = 15300;

const CELLS_LENT: usize = 1101600;

const COEFFICIENTS_LENT: usize = 65540;

const WORDS_LENT: usize = 131076;

// How much of each room is zero after a call; the two coefficient rooms are alike.
#[derive(Clone, Copy)]
struct Left {
    cells: u64,
    coefficients: u64,
    words: u64,
}

// The call of this program.
pub struct DimensionCalls;

impl Calls for DimensionCalls {
    // Every case is of this program.
    ghost says = { λ code case says. (right : Bool) × (says ≡ Some right) };

    fn compare(code: u64, case: Reader) -> Option<bool> {
        Some(is_right(code, case))
    }
}

// Whether the call with this code does what the case says. The codes are those of the vectors' files, and stand here alone: so no enum of them.
fn is_right(code: u64, mut case: Reader) -> bool {
    if code != 24 {
        return false;
    }
    let n = case.size();
    let s = case.size();
    let mut cells = [0u16; CELLS];
    let m = case.fill(&mut cells);
    are_lent(case) && compared(n, s, &cells[..m], case).unwrap_or(false)
}

// Whether no size of a room that stands here is more than there is: looked at before anything is wiped, which takes longer.
fn are_lent(mut case: Reader) -> bool {
    [CELLS_LENT, COEFFICIENTS_LENT, COEFFICIENTS_LENT, WORDS_LENT]
        .iter()
        .all(|most| case.size() <= *most)
}

// Whether the call, on the rooms that the case lends, does what the case says; none where these are larger than there is here, or the answer is
// another. A case may give a list that no type of a list holds, so its parts go loose.
fn compared(n: usize, s: usize, cells: &[u16], case: Reader) -> Option<bool> {
    let mut room = [0u16; CELLS_LENT];
    let mut first = [0i64; COEFFICIENTS_LENT];
    let mut second = [0i64; COEFFICIENTS_LENT];
    let mut sums = [0u64; WORDS_LENT];
    compared_on(
        n,
        s,
        cells,
        case,
        &mut room,
        &mut first,
        &mut second,
        &mut sums,
    )
}

// The same on rooms for any case. They come as arrays: where they are made, the check would count their elements.
fn compared_on(
    n: usize,
    s: usize,
    cells: &[u16],
    mut case: Reader,
    room: &mut [u16; CELLS_LENT],
    first: &mut [i64; COEFFICIENTS_LENT],
    second: &mut [i64; COEFFICIENTS_LENT],
    sums: &mut [u64; WORDS_LENT],
) -> Option<bool> {
    let i = case.lend(room)?;
    let j = case.lend(first)?;
    let k = case.lend(second)?;
    let l = case.lend(sums)?;
    let answer = quotient_dimension(
        n,
        s,
        cells,
        &mut room[..i],
        &mut first[..j],
        &mut second[..k],
        &mut sums[..l],
    );
    let told = told_by(answer.map(|x| done(4, x.dimension.low, x.dimension.high, x.top)));
    if !case.is_answer(told) {
        return None;
    }
    let left = left_by(answer, n, s, cells);
    let a = compare(case.text, wiped(left.cells), &room[..i]);
    let b = compare(case.text, wiped(left.coefficients), &first[..j]);
    let c = compare(case.text, wiped(left.coefficients), &second[..k]);
    let d = compare(case.text, wiped(left.words), &sums[..l]);
    Some(a.right && b.right && c.right && d.right)
}

// A refusal touches no room, nor does a list with a unit, which alone has the dimension 0, or a list without variables.
fn left_by(answer: Result<Dimension, Refusal>, n: usize, s: usize, cells: &[u16]) -> Left {
    match answer {
        Ok(x) if n != 0 && (x.dimension.low != 0 || x.dimension.high != 0) => Left {
            cells: cells_asked(n, s, cells),
            coefficients: coefficients_asked(n, cells),
            words: words_asked(x.top),
        },
        _ => Left {
            cells: 0,
            coefficients: 0,
            words: 0,
        },
    }
}

// 2·(top + 1); no top degree is above 65,536.
fn words_asked(top: u64) -> u64 {
    if top <= 65536 { 2 * (top + 1) } else { 0 }
}
