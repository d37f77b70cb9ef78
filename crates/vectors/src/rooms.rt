// Slices of cells, coefficients, words and bytes that a case gives or lends: filled before a call, and compared after it.
ghost use Rattle.std.specs.Prelude.{◌≡◌, ℕ, ◌+◌, ◌%◌, min, map, length, if◌then◌else◌, nat_lt};
ghost use Rattle.std.proofs.Common.{of_z, to_z};
ghost use Rattle.std.specs.Int.{w64};
ghost use Rattle.vectors.specs.Rooms.{bits_of, byte_of, cell_of, place_in, wanted, list_of, list_at, wiped as wiped_by, compared};

use crate::{Integer, integer_at};
use numbers::signed::{from_bits, to_bits};

// An element of a slice, and the 64 bits that stand for it in a text.
pub trait Element: Copy {
    ghost of_bits: { ℕ → Self };

    ghost bits: { Self → ℕ };

    // The element with these bits; a narrow one keeps the low ones.
    fn of_bits(x: u64) -> Self
        ensures { result ≡ of_bits x };

    fn bits(self) -> u64
        ensures { result ≡ bits self };
}

impl Element for u8 {
    ghost of_bits = { byte_of };

    ghost bits = { λ x. x };

    fn of_bits(x: u64) -> u8 {
        (x % 256) as u8
    }

    fn bits(self) -> u64 {
        u64::from(self)
    }
}

impl Element for u16 {
    ghost of_bits = { cell_of };

    ghost bits = { λ x. x };

    fn of_bits(x: u64) -> u16 {
        (x % 65536) as u16
    }

    fn bits(self) -> u64 {
        u64::from(self)
    }
}

impl Element for u64 {
    ghost of_bits = { λ b. b };

    ghost bits = { λ x. x };

    fn of_bits(x: u64) -> u64 {
        x
    }

    fn bits(self) -> u64 {
        self
    }
}

impl Element for i64 {
    ghost of_bits = { to_z w64 };

    ghost bits = { of_z w64 };

    fn of_bits(x: u64) -> i64 {
        from_bits(x)
    }

    fn bits(self) -> u64 {
        to_bits(self)
    }
}

// What a slice holds: `count` integers that stand at `at` in the text, then zeros up to element `zeros`, and then, in element j, 7 + j % 5.
#[derive(Clone, Copy)]
pub struct Contents {
    pub at: usize,
    pub count: u64,
    pub zeros: u64,
}

// Whether a slice has all the integers and holds what it should, and the place after them, which a wrong slice has too: so no Option.
#[derive(Clone, Copy)]
pub struct Compared {
    pub right: bool,
    pub next: usize,
}

// An element of the contents, and the place of the next integer.
#[derive(Clone, Copy)]
struct Wanted {
    bits: u64,
    next: usize,
}

// The list at `at`: its length, then its elements.
pub fn list_at(text: &[u8], at: usize) -> Contents
    ensures { result ≡ list_at text.now at }
{
    let size = integer_at(text, at);
    Contents {
        at: size.next,
        count: size.magnitude,
        zeros: 0,
    }
}

// Zeros, and after them what a lent element holds before a call.
pub fn wiped(zeros: u64) -> Contents
    ensures { result ≡ wiped_by zeros }
{
    Contents {
        at: 0,
        count: 0,
        zeros,
    }
}

// x, and never above `most`.
pub fn at_most(x: u64, most: usize) -> usize
    ensures { result ≡ min x most }
{
    x.min(most as u64) as usize
}

// Fills the room, and answers the place after the integers.
pub fn put<T: Element>(text: &[u8], contents: Contents, room: &mut [T]) -> usize
    ensures value { result ≡ place_in text.now contents (length room.old) }
    ensures room_after { room.new ≡ list_of (length room.old) (λ j. T.of_bits (wanted text.now contents j)) }
{
    let mut next = contents.at;
    for j in 0..room.len() {
        let want = wanted_at(text, contents, next, j);
        room[j] = T::of_bits(want.bits);
        next = want.next;
    }
    next
}

// Whether the room is what the contents say. One integer more than there are elements is wrong too.
pub fn compare<T: Element>(text: &[u8], contents: Contents, room: &[T]) -> Compared
    ensures { result ≡ compared text.now contents (map T.bits room.now) }
{
    let mut right = true;
    let mut next = contents.at;
    for j in 0..room.len() {
        let want = wanted_at(text, contents, next, j);
        right &= room[j].bits() == want.bits;
        next = want.next;
    }
    Compared {
        right: right && contents.count <= room.len() as u64,
        next,
    }
}

// Element j of the contents, whose next integer stands at `at`.
fn wanted_at(text: &[u8], contents: Contents, at: usize, j: usize) -> Wanted
    requires { at ≡ place_in text.now contents j }
    ensures { (result.bits ≡ wanted text.now contents j) × (result.next ≡ place_in text.now contents (j + 1)) }
{
    if contents.count <= j as u64 {
        return Wanted {
            bits: left(j, contents.zeros),
            next: at,
        };
    }
    let x = integer_at(text, at);
    Wanted {
        bits: bits_of(x),
        next: x.next,
    }
}

// What stands after the integers.
fn left(j: usize, zeros: u64) -> u64
    ensures { result ≡ (if nat_lt j zeros then 0 else 7 + j % 5) }
{
    if (j as u64) < zeros {
        return 0;
    }
    7 + (j % 5) as u64
}

fn bits_of(x: Integer) -> u64
    ensures { result ≡ bits_of x }
{
    if x.negative {
        x.magnitude.wrapping_neg()
    } else {
        x.magnitude
    }
}
