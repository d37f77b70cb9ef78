// Lines of decimal integers, as the test vectors have them, read at a place. Every place is taken: past the end of the text there is nothing.
#![tactic(auto)]

pub mod asked;
pub mod comparison;
pub mod counts;
pub mod reader;
pub mod replay;
pub mod rooms;
pub mod told;

ghost use Rattle.std.specs.Prelude.{◌≡◌, ◌+◌, ◌<◌, length, drop};
ghost use Rattle.vectors.specs.Text.{is_minus, magnitude_of, end_of, integer_at, line_after, line_ended};

// An integer as the text has it: no word holds every sign and magnitude.
#[derive(Clone, Copy)]
pub struct Integer {
    pub negative: bool,
    pub magnitude: u64,
    pub next: usize,
}

// The integer at `at`: its sign, its magnitude, which is the largest word where it is larger still, and the place after the byte that ends it.
pub fn integer_at(text: &[u8], at: usize) -> Integer
    ensures { result ≡ integer_at text.now at }
{
    let negative = is_minus(text, at);
    let start = if negative { at + 1 } else { at };
    let digits = digits_at(text, start);
    Integer {
        negative,
        magnitude: digits.magnitude,
        next: digits.next,
    }
}

// Where the line after the one at `at` starts: past `at`, unless the text is at its end.
pub fn line_after(text: &[u8], at: usize) -> usize
    ensures { (result ≡ line_after text.now at) × (at < length text.now → at < result) }
{
    for i in at..text.len() {
        if text[i] == b'\n' {
            return i + 1;
        }
    }
    at.max(text.len())
}

// Whether the byte before `at` ends a line: a case whose last integer ends there has no more.
pub fn is_line_end(text: &[u8], at: usize) -> bool
    ensures { result ≡ line_ended text.now at }
{
    at != 0 && at <= text.len() && text[at - 1] == b'\n'
}

fn is_minus(text: &[u8], at: usize) -> bool
    ensures { result ≡ is_minus text.now at }
{
    at < text.len() && text[at] == b'-'
}

// A number without a sign.
#[derive(Clone, Copy)]
struct Digits {
    magnitude: u64,
    next: usize,
}

// The digits at `at`, and the place after the byte that ends them. The number is never above the largest word.
fn digits_at(text: &[u8], at: usize) -> Digits
    ensures { (result.magnitude ≡ magnitude_of (drop at text.now)) × (result.next ≡ end_of text.now at) }
{
    let mut magnitude: u64 = 0;
    for i in at..text.len() {
        let byte = text[i];
        if byte < b'0' || b'9' < byte {
            return Digits {
                magnitude,
                next: i + 1,
            };
        }
        magnitude = magnitude
            .saturating_mul(10)
            .saturating_add(u64::from(byte - b'0'));
    }
    Digits {
        magnitude,
        next: at.max(text.len()),
    }
}
