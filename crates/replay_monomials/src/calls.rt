// Each call on the arguments of one case, held against the number, the values and the output that the case gives.
ghost use Rattle.std.specs.Prelude.{◌≡◌, ◌≤◌, Bool, Some, length};

use monomials::divmask::{DivMask, divides_consistent_with, mask};
use monomials::monomial::{
    cmp_degrevlex, cmp_lex, divides, exponent, gcd, is_coprime, lcm, power, product, quotient,
    total_degree,
};
use monomials::refusal::Refusal;
use std::cmp::Ordering;
use vectors::reader::Reader;
use vectors::replay::Calls;
use vectors::rooms::{Element, at_most, put, wiped};
use vectors::told::{Told, done, told_by};

// No case gives a longer list, or lends a larger room; of one that does the rest is left out.
const CELLS: usize = 300;

// The calls of this program.
pub struct MonomialCalls;

impl Calls for MonomialCalls {
    // Every case is of this program.
    ghost says = { λ code case says. (right : Bool) × (says ≡ Some right) };

    fn compare(code: u64, case: Reader) -> Option<bool> {
        Some(is_right(code, case))
    }
}

// Whether the call with this code does what the case says. The codes are those of the vectors' files, and stand here alone: so no enum of them.
fn is_right(code: u64, case: Reader) -> bool {
    match code {
        1 => is_degree_right(case),
        2 => is_exponent_right(case),
        3 => is_power_right(case),
        4 => is_pair_written(case, |a, b, out| product(a, b, out)),
        5 => is_pair_written(case, |a, b, out| quotient(a, b, out)),
        6 => is_pair_written(case, |a, b, out| lcm(a, b, out)),
        7 => is_pair_written(case, |a, b, out| gcd(a, b, out)),
        8 => is_pair_told(case, |a, b| told_by(divides(a, b).map(test_words))),
        9 => is_pair_told(case, |a, b| told_by(is_coprime(a, b).map(test_words))),
        10 => is_pair_told(case, |a, b| told_by(cmp_lex(a, b).map(order_words))),
        11 => is_pair_told(case, |a, b| told_by(cmp_degrevlex(a, b).map(order_words))),
        12 => is_mask_right(case),
        13 => is_consistency_right(case),
        _ => false,
    }
}

fn is_degree_right(mut case: Reader) -> bool {
    let mut a = [0u16; CELLS];
    let n = case.fill(&mut a);
    case.is_answer(told_by(total_degree(&a[..n]).map(|x| done(2, x, 0, 0))))
}

fn is_exponent_right(mut case: Reader) -> bool {
    let mut a = [0u16; CELLS];
    let n = case.fill(&mut a);
    let v = case.size();
    case.is_answer(told_by(exponent(&a[..n], v).map(|x| done(2, x, 0, 0))))
}

fn is_power_right(mut case: Reader) -> bool {
    let n = case.size();
    let v = case.size();
    let x = u16::of_bits(case.word());
    let mut room = [0u16; CELLS];
    let k = lend_cells(&mut case, &mut room);
    let told = told_by(power(n, v, x, &mut room[..k]).map(|()| done(1, 0, 0, 0)));
    case.is_written(told, &room[..k])
}

// A call that answers of two lists.
fn is_pair_told<F: Fn(&[u16], &[u16]) -> Told>(mut case: Reader, call: F) -> bool
    requires { F.IsAlwaysCallable call }
{
    let mut a = [0u16; CELLS];
    let n = case.fill(&mut a);
    let mut b = [0u16; CELLS];
    let m = case.fill(&mut b);
    case.is_answer(call(&a[..n], &b[..m]))
}

// A call that writes what it makes of two lists.
fn is_pair_written<F: Fn(&[u16], &[u16], &mut [u16]) -> Result<(), Refusal>>(
    mut case: Reader,
    call: F,
) -> bool
    requires { F.IsAlwaysCallable call }
{
    let mut a = [0u16; CELLS];
    let n = case.fill(&mut a);
    let mut b = [0u16; CELLS];
    let m = case.fill(&mut b);
    let mut room = [0u16; CELLS];
    let k = lend_cells(&mut case, &mut room);
    let told = told_by(call(&a[..n], &b[..m], &mut room[..k]).map(|()| done(1, 0, 0, 0)));
    case.is_written(told, &room[..k])
}

// The cells that the case lends, whose size stands here; no more than there are here.
fn lend_cells(case: &mut Reader, room: &mut [u16]) -> usize
    ensures { result ≤ length room.new }
{
    let size = case.word();
    put(case.text, wiped(0), room);
    at_most(size, room.len())
}

fn is_mask_right(mut case: Reader) -> bool {
    let n = case.size();
    let most = u16::of_bits(case.word());
    let mut exps = [0u16; CELLS];
    let k = case.fill(&mut exps);
    case.is_answer(told_by(mask(n, most, &exps[..k]).map(|m| done(3, m.low, m.high, 0))))
}

fn is_consistency_right(mut case: Reader) -> bool {
    let first = mask_in(&mut case);
    let second = mask_in(&mut case);
    let test = divides_consistent_with(first, second);
    case.is_answer(done(2, u64::from(test), 0, 0))
}

fn mask_in(case: &mut Reader) -> DivMask {
    let low = case.word();
    let high = case.word();
    DivMask { low, high }
}

fn test_words(yes: bool) -> Told {
    done(2, u64::from(yes), 0, 0)
}

fn order_words(order: Ordering) -> Told {
    let word = match order {
        Ordering::Less => 0,
        Ordering::Equal => 1,
        Ordering::Greater => 2,
    };
    done(2, word, 0, 0)
}
