// The numerator of a list, and its update.
ghost use Rattle.std.specs.Prelude.{◌≡◌};
ghost use Rattle.numbers.specs.Numerator.{numerator_answer, numerator_room, numerator_first, numerator_second};
ghost use Rattle.numbers.specs.Update.{update_answer, update_room, update_first, update_second};
ghost use Rattle.bridge.specs.Told.{number_in, values_in};
ghost use Rattle.bridge.specs.Numbers.{of_length};

use crate::told::tell;
use monomials::refusal::{MAX_COUNT, MAX_WIDTH};
use numbers::update::MAX_COEFFICIENT;

// The trimmed length of the numerator of the s monomials in `cells`, whose coefficients stand in `first`.
pub fn pt_numerator(
    n: u64,
    s: u64,
    cells: &[u16],
    room: &mut [u16],
    first: &mut [i64],
    second: &mut [i64],
    values: &mut [u64; 4],
) -> u8
    ensures value { result ≡ number_in (of_length (numerator_answer MAX_WIDTH MAX_COUNT n s cells.now room.old first.old second.old)) }
    ensures room_after { room.new ≡ numerator_room MAX_WIDTH MAX_COUNT n s cells.now room.old first.old second.old }
    ensures first_after { first.new ≡ numerator_first MAX_WIDTH MAX_COUNT n s cells.now room.old first.old second.old }
    ensures second_after { second.new ≡ numerator_second MAX_WIDTH MAX_COUNT n s cells.now room.old first.old second.old }
    ensures values_after { values.new ≡ values_in (of_length (numerator_answer MAX_WIDTH MAX_COUNT n s cells.now room.old first.old second.old)) values.old }
{
    tell(
        numbers::numerator::hilbert_numerator(n as usize, s as usize, cells, room, first, second),
        values,
    )
}

// The trimmed length of g + N(existing and added) - N(existing), whose coefficients stand in `first`.
pub fn pt_update(
    n: u64,
    g: &[i64],
    s0: u64,
    existing: &[u16],
    s1: u64,
    added: &[u16],
    room: &mut [u16],
    first: &mut [i64],
    second: &mut [i64],
    values: &mut [u64; 4],
) -> u8
    ensures value { result ≡ number_in (of_length (update_answer MAX_WIDTH MAX_COUNT MAX_COEFFICIENT n g.now s0 existing.now s1 added.now room.old first.old second.old)) }
    ensures room_after { room.new ≡ update_room MAX_WIDTH MAX_COUNT MAX_COEFFICIENT n g.now s0 existing.now s1 added.now room.old first.old second.old }
    ensures first_after { first.new ≡ update_first MAX_WIDTH MAX_COUNT MAX_COEFFICIENT n g.now s0 existing.now s1 added.now room.old first.old second.old }
    ensures second_after { second.new ≡ update_second MAX_WIDTH MAX_COUNT MAX_COEFFICIENT n g.now s0 existing.now s1 added.now room.old first.old second.old }
    ensures values_after { values.new ≡ values_in (of_length (update_answer MAX_WIDTH MAX_COUNT MAX_COEFFICIENT n g.now s0 existing.now s1 added.now room.old first.old second.old)) values.old }
{
    tell(
        numbers::update::add_generators(
            n as usize,
            g,
            s0 as usize,
            existing,
            s1 as usize,
            added,
            room,
            first,
            second,
        ),
        values,
    )
}
