// Each call on the arguments of one case, held against the number, the values and the room that the case gives.
ghost use Rattle.std.specs.Prelude.{◌≡◌, Bool, Some};

use monomials::refusal::Refusal;
use numbers::coefficients::{coeff, degree, is_zero};
use numbers::hf_at::hf_at;
use numbers::signed::to_bits;
use numbers::wide::Wide;
use vectors::reader::Reader;
use vectors::replay::Calls;
use vectors::rooms::{compare, wiped};
use vectors::told::{Told, done, told_by};

// No case gives more coefficients.
const COEFFICIENTS: usize = 300;

// The calls of this program.
pub struct HilbertCalls;

impl Calls for HilbertCalls {
    // Every case is of this program.
    ghost says = { λ code case says. (right : Bool) × (says ≡ Some right) };

    fn compare(code: u64, case: Reader) -> Option<bool> {
        Some(is_right(code, case))
    }
}

// Whether the call with this code does what the case says. The codes are those of the vectors' files, and stand here alone: so no enum of them.
fn is_right(code: u64, case: Reader) -> bool {
    match code {
        23 => is_value_right(case),
        25 => is_list_right(case, |coeffs| done(2, u64::from(is_zero(coeffs)), 0, 0)),
        26 => is_list_right(case, |coeffs| degree_told(degree(coeffs))),
        27 => is_coefficient_right(case),
        _ => false,
    }
}

// A room larger than there is here is wrong.
fn is_value_right(mut case: Reader) -> bool {
    let n = case.size();
    let mut coeffs = [0i64; COEFFICIENTS];
    let m = case.fill(&mut coeffs);
    let d = case.size();
    let mut room = [0u64; 262152];
    let Some(k) = case.lend(&mut room) else {
        return false;
    };
    is_value_told(n, &coeffs[..m], d, &mut room[..k], case)
}

fn is_value_told(n: usize, coeffs: &[i64], d: usize, sums: &mut [u64], case: Reader) -> bool {
    let answer = hf_at(n, coeffs, d, sums);
    let left = compare(case.text, wiped(words_left(answer, d)), sums);
    let told = told_by(answer.map(|w| done(3, w.low, w.high, 0)));
    left.right && case.is_answer(told)
}

// How many words of the room are 0 after the call: those that it asks for, unless it refuses before it uses them.
fn words_left(answer: Result<Wide, Refusal>, d: usize) -> u64 {
    let used = match answer {
        Ok(_) | Err(Refusal::Value) => true,
        Err(_) => false,
    };
    if used && d <= 65536 {
        4 * (d as u64 + 1)
    } else {
        0
    }
}

// A call on the list alone.
fn is_list_right<F: Fn(&[i64]) -> Told>(mut case: Reader, call: F) -> bool
    requires { F.IsAlwaysCallable call }
{
    let mut coeffs = [0i64; COEFFICIENTS];
    let m = case.fill(&mut coeffs);
    case.is_answer(call(&coeffs[..m]))
}

fn is_coefficient_right(mut case: Reader) -> bool {
    let mut coeffs = [0i64; COEFFICIENTS];
    let m = case.fill(&mut coeffs);
    let d = case.size();
    case.is_answer(done(2, to_bits(coeff(&coeffs[..m], d)), 0, 0))
}

fn degree_told(degree: Option<u64>) -> Told {
    match degree {
        Some(k) => done(3, 1, k, 0),
        None => done(3, 0, 0, 0),
    }
}
