// The numerator of a list. The rooms' asked sizes are those of the list as given; after a refusal every cell holds what it held.
ghost use Rattle.std.specs.Prelude.{◌≡◌, ◌-◌, ◌*◌, ◌≤◌, ◌++◌, length, replicate, pos};
ghost use Rattle.laws.specs.Ideal.{listed};
ghost use Rattle.laws.specs.Numerator.{numerator};
ghost use Rattle.laws.specs.Room.{coefficients_asked};
ghost use Rattle.numbers.specs.Numerator.{numerator_answer, numerator_room, numerator_first, numerator_second};

use crate::asked::checked_list;
use crate::coefficients::trimmed_length;
use crate::engine::add_numerator;
use crate::masks::starting_list;
use crate::narrow::put_list;
use crate::rows::CheckedList;
use monomials::refusal::{MAX_COUNT, MAX_WIDTH, Refusal};

// The numerator of the s monomials in `cells`, in `first`; the answer is its trimmed length. `room` and `second` are left at zero in their
// asked part.
pub fn hilbert_numerator(
    n: usize,
    s: usize,
    cells: &[u16],
    room: &mut [u16],
    first: &mut [i64],
    second: &mut [i64],
) -> Result<usize, Refusal>
    ensures value { result ≡ numerator_answer MAX_WIDTH MAX_COUNT n s cells.now room.old first.old second.old }
    ensures room_after { room.new ≡ numerator_room MAX_WIDTH MAX_COUNT n s cells.now room.old first.old second.old }
    ensures first_after { first.new ≡ numerator_first MAX_WIDTH MAX_COUNT n s cells.now room.old first.old second.old }
    ensures second_after { second.new ≡ numerator_second MAX_WIDTH MAX_COUNT n s cells.now room.old first.old second.old }
{
    let asked = checked_list(n, s, cells, room.len(), first.len(), second.len())?;
    let c = asked.cells;
    let k = asked.coefficients;
    let list = CheckedList { n, count: s, cells };
    let length = numerator_in(&list, &mut room[..c], &mut first[..k], &mut second[..k]);
    Ok(length)
}

// The numerator in `first`, of its asked size, and its trimmed length; `room` and `second` are left at zero.
pub(crate) fn numerator_in(
    list: &CheckedList,
    room: &mut [u16],
    first: &mut [i64],
    second: &mut [i64],
) -> usize
    requires room_len { list.now.count * list.now.count * list.now.n ≤ length room.old }
    requires first_len { (length first.old ≡ coefficients_asked (listed list.now.n list.now.count list.now.cells.now)) × (length second.old ≡ length first.old) }
    ensures value { (result ≡ length (numerator (listed list.now.n list.now.count list.now.cells.now))) × (room.new ≡ replicate (length room.old) 0) }
    ensures first_after { first.new ≡ numerator (listed list.now.n list.now.count list.now.cells.now) ++ replicate (length first.old - length (numerator (listed list.now.n list.now.count list.now.cells.now))) (pos 0) }
    ensures second_after { second.new ≡ replicate (length second.old) (pos 0) }
{
    let w = put_list(room, list);
    let m = starting_list(room, w, list.count);
    first.fill(0);
    second.fill(0);
    add_numerator(room, w, m, 0, &[1], 0, first, second);
    room.fill(0);
    trimmed_length(first)
}
