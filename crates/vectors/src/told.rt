// What a call tells, held against a case: the number, after 0 the values, and then the output.
ghost use Rattle.std.specs.Prelude.{◌≡◌};
ghost use Rattle.vectors.specs.Rooms.{compared};
ghost use Rattle.vectors.specs.Told.{refused_by, told_of, done_with, told_at, told_words, answered, output_at};

use crate::is_line_end;
use crate::rooms::{Compared, Contents, at_most, compare, list_at};
use monomials::refusal::{Refusal, number_of};

// The first `count` of the number and three values. A refusal is told by its number, which is compared as a value is: so no Result.
#[derive(Clone, Copy)]
pub struct Told {
    pub count: u64,
    pub number: u64,
    pub first: u64,
    pub second: u64,
    pub third: u64,
}

// A refusal, with no value.
pub fn refused(number: u8) -> Told
    ensures { result ≡ refused_by number }
{
    Told {
        count: 1,
        number: u64::from(number),
        first: 0,
        second: 0,
        third: 0,
    }
}

// What a call answers: the words of its value, or its refusal.
pub fn told_by(answer: Result<Told, Refusal>) -> Told
    ensures { result ≡ told_of answer }
{
    match answer {
        Ok(told) => told,
        Err(refusal) => refused(number_of(refusal)),
    }
}

// 0, and the first of the values, `count` with the number.
pub fn done(count: u64, first: u64, second: u64, third: u64) -> Told
    ensures { result ≡ done_with count first second third }
{
    Told {
        count,
        number: 0,
        first,
        second,
        third,
    }
}

// Whether the integers at `at` are those told.
pub fn is_told(text: &[u8], at: usize, told: Told) -> Compared
    ensures { result ≡ compared text.now (told_at at told) (told_words told) }
{
    let words = [told.number, told.first, told.second, told.third];
    let k = at_most(told.count, 4);
    let contents = Contents {
        at,
        count: k as u64,
        zeros: 0,
    };
    compare(text, contents, &words[..k])
}

// Whether the integers from `at` to the end of the line are those told.
pub fn is_answer(text: &[u8], at: usize, told: Told) -> bool
    ensures { result ≡ answered text.now at told }
{
    let answer = is_told(text, at, told);
    answer.right && is_line_end(text, answer.next)
}

// The output that follows at `at`: after 0 it is listed, and else it holds what it held.
pub fn output_at(text: &[u8], at: usize, number: u64) -> Contents
    ensures { result ≡ output_at text.now at number }
{
    if number == 0 {
        list_at(text, at)
    } else {
        Contents {
            at,
            count: 0,
            zeros: 0,
        }
    }
}
