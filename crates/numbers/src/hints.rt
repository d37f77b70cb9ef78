// Hints for the engine: a word of bits for each variable, bit i set where monomial i has it. Nothing is promised of the bits: what they
// suggest is tested where it is used.
ghost use Rattle.std.specs.Prelude.{◌≤◌, length};

use crate::rows::Monomials;

// What the bits suggest for a list that is not few: a part with no variable in common with the rest, the most frequent variable, and the
// monomials that have it.
#[derive(Clone, Copy)]
pub(crate) struct Hint {
    pub(crate) part: Option<u64>,
    pub(crate) v: usize,
    pub(crate) having: u64,
}

// The most frequent variable of those in two monomials or more, the monomials that have it, and how many these are, 1 for no variable; and
// how many variables are in just two.
#[derive(Clone, Copy)]
struct Frequent {
    v: usize,
    having: u64,
    count: u32,
    pairs: usize,
}

// The bit set for each variable of the row.
fn mark(s: &mut [u64], row: &[u16], bit: u64)
    requires { length s.old ≤ length row.now }
{
    // Not a `zip`, which finds the shorter length anew for each row: 5 in 100 more instructions in `look`, counted by valgrind.
    for v in 0..s.len() {
        s[v] |= if row[v] > 0 { bit } else { 0 };
    }
}

// The bits of the monomials; all those that are set.
fn marks(s: &mut [u64], list: &Monomials) -> u64
    requires { length s.old ≤ list.now.n }
{
    let mut bit: u64 = 1;
    for i in 0..list.count {
        mark(s, list.row(i), bit);
        bit = bit.wrapping_add(bit);
    }
    bit.wrapping_sub(1)
}

// The most frequent variable.
fn most(s: &[u64]) -> Frequent {
    let mut h = Frequent {
        v: 0,
        having: 0,
        count: 1,
        pairs: 0,
    };
    for (v, bits) in s.iter().enumerate() {
        let c = bits.count_ones();
        if c == 2 {
            h.pairs += 1;
        }
        if c > h.count {
            h.count = c;
            h.v = v;
            h.having = *bits;
        }
    }
    h
}

// a and the monomials that share a variable with one of it, in one pass.
fn grown(s: &[u64], a: u64) -> u64 {
    let mut r = a;
    // Not a `fold`: `look` as a whole takes a sixth longer with it, by a sampling profile.
    for bits in s {
        if *bits & r != 0 {
            r |= *bits;
        }
    }
    r
}

// What is connected to a, unless that is all or nothing.
fn part(s: &[u64], a: u64, all: u64) -> Option<u64> {
    if a == 0 {
        return None;
    }
    let mut r = a;
    for _ in 0..64 {
        let b = grown(s, r);
        if b == all {
            return None;
        }
        if b == r {
            return Some(r);
        }
        r = b;
    }
    None
}

// What the bits of a list suggest, those of W variables at most, for a seed of so many coefficients. Nothing where they are few: at most 14
// monomials of one part and 4 coefficients, and no variable is in three of the monomials, but so many are in two: twice the monomials less 8.
fn suggested<const W: usize>(list: &Monomials, len: usize) -> Option<Hint>
    requires { W ≤ 256 }
{
    let mut words = [0u64; W];
    let w = list.n.min(W);
    let s = &mut words[..w];
    let all = marks(s, list);
    let h = most(s);
    let part = part(s, h.having, all);
    let few = (h.count == 2) & (h.pairs / 2 + 4 >= list.count) & (len <= 4) & (list.count <= 14);
    if few & part.is_none() {
        return None;
    }
    Some(Hint {
        part,
        v: h.v,
        having: h.having,
    })
}

// What one pass over the list suggests, for a seed of so many coefficients; nothing where they are few. For at most 32 variables fewer
// words are cleared.
pub(crate) fn look(list: &Monomials, len: usize) -> Option<Hint> {
    let few = if len <= 4 {
        6
    } else if len <= 16 {
        5
    } else {
        4
    };
    if list.count <= few {
        return None;
    }
    if list.n <= 32 {
        suggested::<32>(list, len)
    } else {
        suggested::<256>(list, len)
    }
}
