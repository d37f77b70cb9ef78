// Each call on the arguments of one case, held against the number, the coefficients and the rooms that the case gives. A case that is larger than
// the slices here is wrong.
ghost use Rattle.std.specs.Prelude.{◌≡◌, Bool, Some};

use monomials::refusal::Refusal;
use numbers::numerator::hilbert_numerator;
use numbers::update::add_generators;
use vectors::asked::cells_asked;
use vectors::reader::Reader;
use vectors::replay::Calls;
use vectors::rooms::{Contents, compare, list_at, wiped};
use vectors::told::{Told, done, output_at, told_by};

// No list has more cells, no numerator more coefficients, and no case lends more.
const CELLS: usize = 15300;

const COEFFICIENTS: usize = 9002;

const CELLS_LENT: usize = 1101600;

const COEFFICIENTS_LENT: usize = 65540;

// What the rooms hold after a call.
#[derive(Clone, Copy)]
struct Held {
    cells: Contents,
    first: Contents,
    second: Contents,
}

// The calls of this program.
pub struct NumeratorCalls;

impl Calls for NumeratorCalls {
    // Every case is of this program.
    ghost says = { λ code case says. (right : Bool) × (says ≡ Some right) };

    fn compare(code: u64, case: Reader) -> Option<bool> {
        Some(is_right(code, case))
    }
}

// Whether the call with this code does what the case says. The codes are those of the vectors' files, and stand here alone: so no enum of them.
fn is_right(code: u64, case: Reader) -> bool {
    match code {
        21 => is_numerator_right(case),
        22 => is_update_right(case),
        _ => false,
    }
}

fn is_numerator_right(mut case: Reader) -> bool {
    let n = case.size();
    let s = case.size();
    let mut cells = [0u16; CELLS];
    let m = case.fill(&mut cells);
    let list = &cells[..m];
    if !are_lent(case) {
        return false;
    }
    let asked = cells_asked(n, s, list);
    compared(case, asked, |room, first, second| {
        hilbert_numerator(n, s, list, room, first, second)
    })
    .unwrap_or(false)
}

// The new list's cells stand behind those of the existing one.
fn is_update_right(mut case: Reader) -> bool {
    let n = case.size();
    let mut coeffs = [0i64; COEFFICIENTS];
    let g = case.fill(&mut coeffs);
    let s = case.size();
    let mut cells = [0u16; CELLS];
    let m = case.fill(&mut cells);
    let t = case.size();
    let all = m + case.fill(&mut cells[m..]);
    let coeffs = &coeffs[..g];
    let existing = &cells[..m];
    let added = &cells[m..all];
    if !are_lent(case) {
        return false;
    }
    let asked = cells_asked(n, s.wrapping_add(t), &cells[..all]);
    compared(case, asked, |room, first, second| {
        add_generators(n, coeffs, s, existing, t, added, room, first, second)
    })
    .unwrap_or(false)
}

// Whether no size of a room that stands here is more than there is: looked at before the cells that are asked for are counted and before anything
// is wiped, which take longer.
fn are_lent(mut case: Reader) -> bool {
    [CELLS_LENT, COEFFICIENTS_LENT, COEFFICIENTS_LENT]
        .iter()
        .all(|most| case.size() <= *most)
}

// Whether the call, on the rooms that the case lends, does what the case says; none where these are larger than there is here, or the number or
// the length is another. The call asks for `asked` cells of its room.
fn compared<F: FnOnce(&mut [u16], &mut [i64], &mut [i64]) -> Result<usize, Refusal>>(
    case: Reader,
    asked: u64,
    call: F,
) -> Option<bool>
    requires { F.IsAlwaysCallable call }
{
    let mut room = [0u16; CELLS_LENT];
    let mut first = [0i64; COEFFICIENTS_LENT];
    let mut second = [0i64; COEFFICIENTS_LENT];
    compared_on(case, asked, call, &mut room, &mut first, &mut second)
}

// The same on rooms for any case. They come as arrays: where they are made, the check would count their elements.
fn compared_on<F: FnOnce(&mut [u16], &mut [i64], &mut [i64]) -> Result<usize, Refusal>>(
    mut case: Reader,
    asked: u64,
    call: F,
    room: &mut [u16; CELLS_LENT],
    first: &mut [i64; COEFFICIENTS_LENT],
    second: &mut [i64; COEFFICIENTS_LENT],
) -> Option<bool>
    requires { F.IsAlwaysCallable call }
{
    let i = case.lend(room)?;
    let j = case.lend(first)?;
    let k = case.lend(second)?;
    let answer = call(&mut room[..i], &mut first[..j], &mut second[..k]);
    let told = told_by(answer.map(|length| done(2, length as u64, 0, 0)));
    let held = held_after(&mut case, told, asked)?;
    let cells = compare(case.text, held.cells, &room[..i]);
    let left = compare(case.text, held.second, &second[..k]);
    let written = case.holds(held.first, &first[..j]);
    Some(cells.right && left.right && written && case.is_line_end())
}

// What the rooms hold after the call, as the case says here.
fn held_after(case: &mut Reader, told: Told, asked: u64) -> Option<Held> {
    if case.word() != told.number {
        return None;
    }
    if told.number != 0 {
        return Some(Held {
            cells: wiped(0),
            first: output_at(case.text, case.at, told.number),
            second: wiped(0),
        });
    }
    let zeros = case.word();
    let list = list_at(case.text, case.at);
    if list.count != told.first {
        return None;
    }
    Some(Held {
        cells: wiped(asked),
        first: Contents { zeros, ..list },
        second: wiped(zeros),
    })
}
