// The dimension of a list's quotient: how many monomials are no multiple of the list. They are counted degree by degree, from the numerator
// by prefix sums modulo 2^128; the count is exact, because it is at most the product of the least powers, which is below 2^127.
ghost use Rattle.std.specs.Prelude.{◌≡◌, length, replicate, pos};
ghost use Rattle.laws.specs.Dimension.{dimension as dimension_of};
ghost use Rattle.laws.specs.Ideal.{listed};
ghost use Rattle.numbers.specs.Dimension.{dimension_answer, dimension_room, dimension_first, dimension_second, dimension_sums};
ghost use Rattle.numbers.specs.DimensionParts.{Bounded, Lent, list_answer};
ghost use Rattle.numbers.specs.Wide.{wide};

use crate::asked::checked_list;
use crate::hf_at::{MAX_DEGREE, Signed, prefix_sum};
use crate::numerator::numerator_in;
use crate::powers::{checked_bound, has_unit};
use crate::rows::{CheckedList, Monomials};
use crate::wide::Wide;
use monomials::refusal::{MAX_COUNT, MAX_WIDTH, Refusal};

// A dimension, and the top degree beside it.
#[derive(Clone, Copy)]
pub struct Dimension {
    pub dimension: Wide,
    pub top: u64,
}

// How many monomials in n variables are no multiple of the s monomials in `cells`. With a unit it is 0, and without variables 1: these ask no
// room. Otherwise every room is left at zero in its asked part.
pub fn quotient_dimension(
    n: usize,
    s: usize,
    cells: &[u16],
    room: &mut [u16],
    first: &mut [i64],
    second: &mut [i64],
    sums: &mut [u64],
) -> Result<Dimension, Refusal>
    ensures value { result ≡ dimension_answer MAX_WIDTH MAX_COUNT MAX_DEGREE n s cells.now room.old first.old second.old sums.old }
    ensures room_after { room.new ≡ dimension_room MAX_WIDTH MAX_COUNT MAX_DEGREE n s cells.now room.old first.old second.old sums.old }
    ensures first_after { first.new ≡ dimension_first MAX_WIDTH MAX_COUNT MAX_DEGREE n s cells.now room.old first.old second.old sums.old }
    ensures second_after { second.new ≡ dimension_second MAX_WIDTH MAX_COUNT MAX_DEGREE n s cells.now room.old first.old second.old sums.old }
    ensures sums_after { sums.new ≡ dimension_sums MAX_WIDTH MAX_COUNT MAX_DEGREE n s cells.now room.old first.old second.old sums.old }
{
    let decision = decided(n, s, cells)?;
    let d = match decision {
        Decision::Known(dimension) => return Ok(Dimension { dimension, top: 0 }),
        Decision::Bound(d) => d,
    };
    let asked = checked_list(n, s, cells, room.len(), first.len(), second.len())?;
    let c = asked.cells;
    let k = asked.coefficients;
    let w = 2 * (d + 1);
    if sums.len() < w {
        return Err(Refusal::SumRoom);
    }
    let list = CheckedList { n, count: s, cells };
    let dimension = dimension_in(
        &list,
        d,
        &mut room[..c],
        &mut first[..k],
        &mut second[..k],
        &mut sums[..w],
    );
    Ok(Dimension {
        dimension,
        top: d as u64,
    })
}

// What the list alone decides: a dimension that is known at once, or else the degree bound.
#[derive(Clone, Copy)]
enum Decision {
    Known(Wide),
    Bound(usize),
}

// What the list alone decides. Not of `CheckedList`, which says that the list has passed these checks.
fn decided(n: usize, s: usize, cells: &[u16]) -> Result<Decision, Refusal>
    ensures { result ≡ list_answer 255 60 65536 n s cells.now }
{
    if MAX_WIDTH < n {
        return Err(Refusal::Width);
    }
    if MAX_COUNT < s {
        return Err(Refusal::Count);
    }
    if cells.len() != s * n {
        return Err(Refusal::Cells);
    }
    let list = Monomials { n, count: s, cells };
    if has_unit(&list) {
        return Ok(Decision::Known(Wide::ZERO));
    }
    if n == 0 {
        return Ok(Decision::Known(Wide::ONE));
    }
    Ok(Decision::Bound(checked_bound(&list)?))
}

// The dimension; every room, of its asked size, is left at zero.
fn dimension_in(
    list: &CheckedList,
    d: usize,
    room: &mut [u16],
    first: &mut [i64],
    second: &mut [i64],
    sums: &mut [u64],
) -> Wide
    requires bounded { Bounded list.now.n (listed list.now.n list.now.count list.now.cells.now) d }
    requires lent { Lent list.now.n (listed list.now.n list.now.count list.now.cells.now) d room.old first.old second.old sums.old }
    ensures value { result ≡ wide (dimension_of list.now.n (listed list.now.n list.now.count list.now.cells.now)) }
    ensures room_after { room.new ≡ replicate (length room.old) 0 }
    ensures first_after { first.new ≡ replicate (length first.old) (pos 0) }
    ensures second_after { second.new ≡ replicate (length second.old) (pos 0) }
    ensures sums_after { sums.new ≡ replicate (length sums.old) 0 }
{
    numerator_in(list, room, first, second);
    let r = prefix_sum::<Signed>(list.n + 1, first, d, sums);
    first.fill(0);
    r
}
