// A text of cases, replayed line by line.
ghost use Rattle.std.specs.Prelude.{◌≡◌, ◌<◌, ◌≤◌, Bool, List, ℕ, Option, length, take, IfOk};
ghost use Rattle.std.specs.List.{FoldsTo};
ghost use Rattle.std.specs.Io.KnownBytes.{Consumes, IsAtEnd};
ghost use Rattle.vectors.specs.Replay.{AreLines, ReadFrom, Replays};
ghost use Rattle.vectors.specs.declared.reader.Reader.{Reader};

use crate::counts::{say_counts, tally};
use crate::reader::Reader;
use crate::{integer_at, line_after};
use std::io;
use std::io::{Read, Write};
use streams::read_full;

// The calls that a program replays, by their codes.
pub trait Calls {
    // What `compare` may say of a code and of the arguments from a place on.
    ghost says: { ℕ → Reader → Option Bool → Type 0 };

    // Whether the call with this code does what the case says; none where the case is none of the program's.
    fn compare(code: u64, case: Reader<'_>) -> Option<bool>
        ensures { says code case.entry result };
}

// Counts each case, as `C` says of its code and of its arguments: right, wrong, or none of this program's. How many were none of this
// program's. A comment has no code.
pub fn replay<C: Calls>(text: &[u8], counts: &mut [u64]) -> u64
    ensures { (lines : _) × AreLines text.now 0 lines × FoldsTo (Replays text.now (ReadFrom text.now C.says)) (counts.old, 0) lines (counts.new, result) }
{
    let mut apart: u64 = 0;
    let mut at: usize = 0;
    // Not a `for`: a step is a line, however long it is.
    while at < text.len() {
        let code = integer_at(text, at);
        if code.magnitude != 0 {
            let case = Reader {
                text,
                at: code.next,
            };
            match C::compare(code.magnitude, case) {
                Some(right) => tally(counts, code.magnitude, right),
                None => apart = apart.wrapping_add(1),
            }
        }
        at = line_after(text, at);
    }
    apart
}

// Replays as much of the input as the room takes, and writes the counts, on top of which the cases are counted; how many cases were none of this
// program's.
pub fn replay_input<C: Calls, R: Read, W: Write>(
    input: &mut R,
    out: &mut W,
    room: &mut [u8],
    counts: &mut [u64],
) -> io::Result<u64>
    ensures size { length room.new ≡ length room.old }
    ensures replayed { IfOk result (λ apart. (text : List ℕ) × (length text ≤ length room.new) × (take (length text) room.new ≡ text) × Consumes (R.remaining input.old) (R.remaining input.new) text × (length text < length room.new → IsAtEnd (R.remaining input.new)) × ((lines : _) × AreLines text 0 lines × FoldsTo (Replays text (ReadFrom text C.says)) (counts.old, 0) lines (counts.new, apart))) }
{
    let size = read_full(input, room)?;
    let apart = replay::<C>(&room[..size], counts);
    say_counts(counts, out)?;
    Ok(apart)
}
