// Each call on the arguments of one case, held against the number, the values and the output that the case gives. A case that is larger than
// the slices here is wrong.
ghost use Rattle.std.specs.Prelude.{◌≡◌, None};

use records::ideal::{check_place, copy_record, place, write_record};
use vectors::reader::Reader;
use vectors::replay::Calls;
use vectors::rooms::{Contents, at_most, list_at, put, wiped};
use vectors::told::{done, told_by};

// No list has more cells, and no record more bytes.
const CELLS: usize = 15300;

const BYTES: usize = 30720;

// The calls of this program.
pub struct RecordCalls;

impl Calls for RecordCalls {
    // Only a part of a record can be of the bridge alone.
    ghost says = { λ code case says. says ≡ None → code ≡ 33 };

    // The codes are those of the vectors' files, and stand here alone: so no enum of them.
    fn compare(code: u64, case: Reader) -> Option<bool> {
        match code {
            31 => Some(is_write_right(case)),
            32 => Some(is_check_right(case)),
            33 => compared_place(case),
            34 => Some(is_copy_right(case)),
            _ => Some(false),
        }
    }
}

fn is_write_right(mut case: Reader) -> bool {
    let n = case.size();
    let s = case.size();
    let mut cells = [0u16; CELLS];
    let m = case.fill(&mut cells);
    let mut room = [0u8; BYTES];
    let Some(k) = case.lend(&mut room) else {
        return false;
    };
    let answer = write_record(n, s, &cells[..m], &mut room[..k]);
    let told = told_by(answer.map(|size| done(2, size as u64, 0, 0)));
    case.is_written(told, &room[..k])
}

fn is_check_right(mut case: Reader) -> bool {
    let mut bytes = [0u8; BYTES];
    let m = case.fill(&mut bytes);
    let k = case.size();
    case.is_answer(told_by(check_place(&bytes[..m], k).map(|()| done(1, 0, 0, 0))))
}

// An output too small for any part is the bridge's alone.
fn compared_place(mut case: Reader) -> Option<bool> {
    let mut bytes = [0u8; BYTES];
    let m = case.fill(&mut bytes);
    let k = case.size();
    let size = case.word();
    if size < 510 {
        return None;
    }
    Some(is_place_right(&bytes[..m], k, size, case))
}

// The part, held against the front of an output of `size` bytes, and the number that goes with it.
fn is_place_right(rec: &[u8], k: usize, size: u64, mut case: Reader) -> bool {
    let part = place(rec, k);
    let check = check_place(rec, k);
    if check.is_err() {
        return part.is_empty() && case.is_answer(told_by(check.map(|()| done(1, 0, 0, 0))));
    }
    case.is_told(done(2, part.len() as u64, 0, 0)) && is_part_right(part, size, case)
}

// Whether the list here is the part and then, up to its size, what an output held.
fn is_part_right(part: &[u8], size: u64, mut case: Reader) -> bool {
    let list = list_at(case.text, case.at);
    let front = Contents {
        count: part.len() as u64,
        ..list
    };
    let first = case.holds(front, part);
    let mut room = [0u8; 1024];
    put(case.text, wiped(0), &mut room);
    let from = at_most(part.len() as u64, 1024);
    let to = at_most(size, 1024);
    list.count == size && first && is_rest_right(&room, from, to, case)
}

fn is_rest_right(room: &[u8], from: usize, to: usize, mut case: Reader) -> bool {
    let Some(rest) = room.get(from..to) else {
        return false;
    };
    let contents = Contents {
        at: case.at,
        count: rest.len() as u64,
        zeros: 0,
    };
    case.holds(contents, rest) && case.is_line_end()
}

fn is_copy_right(mut case: Reader) -> bool {
    let mut bytes = [0u8; BYTES];
    let m = case.fill(&mut bytes);
    is_copied(&bytes[..m], case)
}

fn is_copied(rec: &[u8], mut case: Reader) -> bool {
    let mut room = [0u16; 300];
    let Some(k) = case.lend(&mut room) else {
        return false;
    };
    let out = &mut room[..k];
    let answer = copy_record(rec, out);
    let told = told_by(answer.map(|shape| done(3, shape.n as u64, shape.m as u64, 0)));
    case.is_written(told, out)
}
