// A text of cases, replayed line by line as in the module `replay`, by a value that compares. It may hold what is known only as the program runs,
// which no type with `Calls` can. A closure is not taken as it is, since these functions would have to ask, by a `requires`, that it may be called.
// The tests hand one on inside such a value, whose type says so.
ghost use Rattle.std.specs.Prelude.{◌≡◌, ◌<◌, ◌≤◌, Bool, List, ℕ, Option, length, take, IfOk};
ghost use Rattle.std.specs.List.{FoldsTo};
ghost use Rattle.std.specs.Io.KnownBytes.{Consumes, IsAtEnd};
ghost use Rattle.vectors.specs.Replay.{AreLines, ReadFrom, Replays};
ghost use Rattle.vectors.specs.declared.reader.Reader.{Reader};

use crate::counts::{say_counts, tally};
use crate::reader::Reader;
use crate::{integer_at, line_after};
use std::io;
use std::io::{Read, Write};
use streams::read_full;

// What compares a case with the calls.
pub trait Comparison {
    // What the value may say of a code and of the arguments from a place on.
    ghost says: { Self → ℕ → Reader → Option Bool → Type 0 };

    // Whether the call with this code does what the case says; none where the case is none of the caller's.
    fn compare(&self, code: u64, case: Reader<'_>) -> Option<bool>
        ensures { says self.now code case.entry result };
}

// Counts each case, as `by` says of its code and of its arguments: right, wrong, or none of the caller's. How many were none of the caller's. A
// comment has no code.
pub fn replay<C: Comparison>(text: &[u8], counts: &mut [u64], by: &C) -> u64
    ensures { (lines : _) × AreLines text.now 0 lines × FoldsTo (Replays text.now (ReadFrom text.now (C.says by.now))) (counts.old, 0) lines (counts.new, result) }
{
    let mut apart: u64 = 0;
    let mut at: usize = 0;
    // Not a `for`: a step is a line, however long it is.
    while at < text.len() {
        let code = integer_at(text, at);
        if code.magnitude != 0 {
            let case = Reader {
                text,
                at: code.next,
            };
            match by.compare(code.magnitude, case) {
                Some(right) => tally(counts, code.magnitude, right),
                None => apart = apart.wrapping_add(1),
            }
        }
        at = line_after(text, at);
    }
    apart
}

// Replays as much of the input as the room takes, and writes the counts, on top of which the cases are counted; how many cases were none of the
// caller's. After an error of the input or the output nothing is said of the counts.
pub fn replay_input<R: Read, W: Write, C: Comparison>(
    input: &mut R,
    out: &mut W,
    room: &mut [u8],
    counts: &mut [u64],
    by: &C,
) -> io::Result<u64>
    ensures size { length room.new ≡ length room.old }
    ensures replayed { IfOk result (λ apart. (text : List ℕ) × (length text ≤ length room.new) × (take (length text) room.new ≡ text) × Consumes (R.remaining input.old) (R.remaining input.new) text × (length text < length room.new → IsAtEnd (R.remaining input.new)) × ((lines : _) × AreLines text 0 lines × FoldsTo (Replays text (ReadFrom text (C.says by.now))) (counts.old, 0) lines (counts.new, apart))) }
{
    let size = read_full(input, room)?;
    let apart = replay(&room[..size], counts, by);
    say_counts(counts, out)?;
    Ok(apart)
}

#[cfg(test)]
mod tests;
