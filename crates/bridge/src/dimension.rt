// The dimension of a list.
ghost use Rattle.std.specs.Prelude.{◌≡◌};
ghost use Rattle.numbers.specs.Dimension.{dimension_answer, dimension_room, dimension_first, dimension_second, dimension_sums};
ghost use Rattle.bridge.specs.Told.{number_in, values_in};
ghost use Rattle.bridge.specs.Numbers.{of_dimension};

use crate::told::tell;
use monomials::refusal::{MAX_COUNT, MAX_WIDTH};
use numbers::hf_at::MAX_DEGREE;

// The low word and the high word of the dimension of the s monomials in `cells`, and the top degree.
pub fn pt_dimension(
    n: u64,
    s: u64,
    cells: &[u16],
    room: &mut [u16],
    first: &mut [i64],
    second: &mut [i64],
    sums: &mut [u64],
    values: &mut [u64; 4],
) -> u8
    ensures value { result ≡ number_in (of_dimension (dimension_answer MAX_WIDTH MAX_COUNT MAX_DEGREE n s cells.now room.old first.old second.old sums.old)) }
    ensures room_after { room.new ≡ dimension_room MAX_WIDTH MAX_COUNT MAX_DEGREE n s cells.now room.old first.old second.old sums.old }
    ensures first_after { first.new ≡ dimension_first MAX_WIDTH MAX_COUNT MAX_DEGREE n s cells.now room.old first.old second.old sums.old }
    ensures second_after { second.new ≡ dimension_second MAX_WIDTH MAX_COUNT MAX_DEGREE n s cells.now room.old first.old second.old sums.old }
    ensures sums_after { sums.new ≡ dimension_sums MAX_WIDTH MAX_COUNT MAX_DEGREE n s cells.now room.old first.old second.old sums.old }
    ensures values_after { values.new ≡ values_in (of_dimension (dimension_answer MAX_WIDTH MAX_COUNT MAX_DEGREE n s cells.now room.old first.old second.old sums.old)) values.old }
{
    tell(
        numbers::dimension::quotient_dimension(
            n as usize, s as usize, cells, room, first, second, sums,
        ),
        values,
    )
}
