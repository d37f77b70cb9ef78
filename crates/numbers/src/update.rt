// The update of given coefficients by new monomials: G + N(existing and new) - N(existing). The rooms' asked sizes are those of both lists
// as given, and of G; after a refusal every cell holds what it held.
ghost use Rattle.std.specs.Prelude.{◌≡◌, ℕ, ◌+◌, ◌-◌, ◌*◌, ◌^◌, ◌<◌, ◌≤◌, ◌++◌, length, replicate, pos, unsigned_abs};
ghost use Rattle.laws.specs.Coefficients.{coefficient};
ghost use Rattle.laws.specs.Ideal.{listed};
ghost use Rattle.laws.specs.Numerator.{update};
ghost use Rattle.laws.specs.Room.{update_asked};
ghost use Rattle.laws.proofs.Added.{AddedTo, Zeros};
ghost use Rattle.laws.proofs.Grown.{grown};
ghost use Rattle.numbers.specs.BothLists.{all};
ghost use Rattle.numbers.specs.Update.{beyond as beyond_of, update_answer, update_room, update_first, update_second};

use crate::asked::checked;
use crate::coefficients::trimmed_length;
use crate::engine::add_numerator;
use crate::extent::TwoLists;
use crate::leaf::{add_shifted, degree};
use crate::quotients::quotients;
use crate::rows::row;
use monomials::refusal::{MAX_COUNT, MAX_WIDTH, Refusal};

// The greatest magnitude of a given coefficient: 2^61.
pub const MAX_COEFFICIENT: u64 = 2305843009213693952;

// Given the coefficients G of `given`, the s0 monomials in `existing` and the s1 new ones in `added`: G + N(existing and new) - N(existing), in
// `first`; the answer is its trimmed length. `room` and `second` are left at zero in their asked part.
pub fn add_generators(
    n: usize,
    given: &[i64],
    s0: usize,
    existing: &[u16],
    s1: usize,
    added: &[u16],
    room: &mut [u16],
    first: &mut [i64],
    second: &mut [i64],
) -> Result<usize, Refusal>
    ensures value { result ≡ update_answer MAX_WIDTH MAX_COUNT MAX_COEFFICIENT n given.now s0 existing.now s1 added.now room.old first.old second.old }
    ensures room_after { room.new ≡ update_room MAX_WIDTH MAX_COUNT MAX_COEFFICIENT n given.now s0 existing.now s1 added.now room.old first.old second.old }
    ensures first_after { first.new ≡ update_first MAX_WIDTH MAX_COUNT MAX_COEFFICIENT n given.now s0 existing.now s1 added.now room.old first.old second.old }
    ensures second_after { second.new ≡ update_second MAX_WIDTH MAX_COUNT MAX_COEFFICIENT n given.now s0 existing.now s1 added.now room.old first.old second.old }
{
    let asked = checked(
        n,
        s0,
        existing,
        s1,
        added,
        beyond(given),
        given.len(),
        room.len(),
        first.len(),
        second.len(),
    )?;
    let c = asked.cells;
    let k = asked.coefficients;
    let lists = TwoLists {
        n,
        s: s0,
        xs: existing,
        t: s1,
        ys: added,
    };
    let length = update_in(
        &lists,
        given,
        &mut room[..c],
        &mut first[..k],
        &mut second[..k],
    );
    Ok(length)
}

// Whether a given coefficient is greater than MAX_COEFFICIENT in magnitude.
fn beyond(given: &[i64]) -> bool
    ensures { result ≡ beyond_of MAX_COEFFICIENT given.now }
{
    given.iter().any(|x| MAX_COEFFICIENT < x.unsigned_abs())
}

// The monomials of the second list, one after another: for each, t^deg times the numerator of the earlier ones' quotients by it is taken off.
fn add_each(lists: &TwoLists, room: &mut [u16], first: &mut [i64], second: &mut [i64])
    requires xs_len { length lists.now.xs.now ≡ lists.now.s * lists.now.n }
    requires room_len { (lists.now.s + lists.now.t) * (lists.now.s + lists.now.t) * lists.now.n ≤ length room.old }
    requires second_len { (length second.old ≡ length first.old) × Zeros second.old }
    ensures added_to { AddedTo (grown (listed lists.now.n lists.now.s lists.now.xs.now) (listed lists.now.n lists.now.t lists.now.ys.now)) first.old first.new }
    ensures second_len_unchanged { (length second.new ≡ length second.old) × Zeros second.new }
{
    let n = lists.n;
    for i in 0..lists.t {
        let earlier = TwoLists {
            n,
            s: lists.s,
            xs: lists.xs,
            t: i,
            ys: lists.ys,
        };
        let g = row(lists.ys, n, i);
        let m = quotients(room, &earlier, g);
        add_numerator(room, n, m, degree(g), &[-1], 0, first, second);
    }
}

// The update in `first`, of its asked size, and its trimmed length; `room` and `second` are left at zero.
fn update_in(
    lists: &TwoLists,
    given: &[i64],
    room: &mut [u16],
    first: &mut [i64],
    second: &mut [i64],
) -> usize
    requires existing_len { (length lists.now.xs.now ≡ lists.now.s * lists.now.n) × (lists.now.s + lists.now.t ≤ 60) }
    requires room_len { (lists.now.s + lists.now.t) * (lists.now.s + lists.now.t) * lists.now.n ≤ length room.old }
    requires first_len { (length first.old ≡ update_asked given.now (all lists.now)) × (length second.old ≡ length first.old) × ((k : ℕ) → unsigned_abs (coefficient given.now k) ≤ 2 ^ 61) }
    ensures value { (result ≡ length (update given.now (listed lists.now.n lists.now.s lists.now.xs.now) (listed lists.now.n lists.now.t lists.now.ys.now))) × (room.new ≡ replicate (length room.old) 0) }
    ensures first_after { first.new ≡ update given.now (listed lists.now.n lists.now.s lists.now.xs.now) (listed lists.now.n lists.now.t lists.now.ys.now) ++ replicate (length first.old - length (update given.now (listed lists.now.n lists.now.s lists.now.xs.now) (listed lists.now.n lists.now.t lists.now.ys.now))) (pos 0) }
    ensures second_after { second.new ≡ replicate (length second.old) (pos 0) }
{
    first.fill(0);
    second.fill(0);
    add_shifted(first, 0, given, false);
    add_each(lists, room, first, second);
    room.fill(0);
    trimmed_length(first)
}
