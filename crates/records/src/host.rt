// The call behind the program `dim` and the host in C: an ideal record's bytes in, an answer record out. The list and the rooms are the
// call's own, so it takes the stack that they need.
ghost use Rattle.std.specs.Prelude.{◌≡◌, ◌++◌, ◌^◌, ◌<◌, ◌≤◌, pos, length, drop, replicate, IfOk};
ghost use Rattle.numbers.specs.Dimension.{dimension_answer};
ghost use Rattle.records.specs.Host.{own_cells, own_coefficients, own_words, host_answer, host_number, host_bytes};
ghost use Rattle.records.specs.HostParts.{record_answer, told, told_bytes};
ghost use Rattle.records.specs.Rows.{Ample};

use crate::answer::{ANSWER_SIZE, put_answer};
use crate::ideal::{FEW_CELLS, MAX_CELLS, SHORT_RECORD, read_record};
use crate::list::MonomialList;
use monomials::refusal::{MAX_COUNT, MAX_WIDTH, Refusal, number_of};
use numbers::dimension::{Dimension, quotient_dimension};
use numbers::hf_at::MAX_DEGREE;
use numbers::wide::Wide;

// The exponent cells of the call's own room.
const CELL_ROOM: usize = 16384;

// The coefficients of each of its two coefficient rooms.
const COEFFICIENT_ROOM: usize = 4096;

// The words of its sum room.
const SUM_ROOM: usize = 4096;

// Writes the answer record of an ideal record: the dimension and the top degree of what it lists, or the number of what is refused. Past it
// the output is kept, and an output with too few bytes is left as it is.
pub fn answer_record(rec: &[u8], out: &mut [u8]) -> Result<(), Refusal>
    ensures value { result ≡ host_answer MAX_WIDTH MAX_COUNT MAX_DEGREE ANSWER_SIZE rec.now out.old }
    ensures out_after { out.new ≡ host_bytes MAX_WIDTH MAX_COUNT MAX_DEGREE ANSWER_SIZE rec.now out.old }
{
    if out.len() < ANSWER_SIZE {
        return Err(Refusal::Output);
    }
    tell(dimension_of(rec), out)
}

// The same for a host in C, which is told the number.
pub fn purlthicket_dim(rec: &[u8], out: &mut [u8]) -> u8
    ensures value { result ≡ host_number MAX_WIDTH MAX_COUNT MAX_DEGREE ANSWER_SIZE rec.now out.old }
    ensures out_after { out.new ≡ host_bytes MAX_WIDTH MAX_COUNT MAX_DEGREE ANSWER_SIZE rec.now out.old }
{
    match answer_record(rec, out) {
        Ok(()) => 0,
        Err(refusal) => number_of(refusal),
    }
}

// The dimension of what the record lists, or what is refused; a short record has fewer cells, as in `is_record`: an array of
// either size is made where it is lent.
fn dimension_of(rec: &[u8]) -> Result<Dimension, Refusal>
    ensures { result ≡ record_answer MAX_WIDTH MAX_COUNT MAX_DEGREE rec.now }
{
    if rec.len() <= SHORT_RECORD {
        let mut cells = [0u16; FEW_CELLS];
        return dimension_in(rec, &mut cells);
    }
    let mut cells = [0u16; MAX_CELLS];
    dimension_in(rec, &mut cells)
}

// The same, the exponents copied into `cells`.
fn dimension_in(rec: &[u8], cells: &mut [u16]) -> Result<Dimension, Refusal>
    requires { Ample rec.now cells.old }
    ensures { result ≡ record_answer MAX_WIDTH MAX_COUNT MAX_DEGREE rec.now }
{
    let shape = read_record(rec, cells)?;
    let end = shape.m * shape.n;
    let list = MonomialList {
        width: shape.n,
        count: shape.m,
        cells: &cells[..end],
    };
    in_own_rooms(&list)
}

// The dimension of a list, in rooms of this call's own. Large rooms take longer to clear than the count of a short list, so
// smaller ones are tried before, and for few exponents tiny ones before these.
fn in_own_rooms(list: &MonomialList) -> Result<Dimension, Refusal>
    ensures { result ≡ dimension_answer MAX_WIDTH MAX_COUNT MAX_DEGREE list.now.width list.now.count list.now.cells.now own_cells own_coefficients own_coefficients own_words }
{
    if 16 < list.cells.len() {
        return in_small_or_large_rooms(list);
    }
    match in_rooms::<256, 16, 32>(list) {
        Ok(counted) => Ok(counted),
        Err(_) => in_small_or_large_rooms(list),
    }
}

// The same, the small rooms tried first.
fn in_small_or_large_rooms(list: &MonomialList) -> Result<Dimension, Refusal>
    ensures { result ≡ dimension_answer MAX_WIDTH MAX_COUNT MAX_DEGREE list.now.width list.now.count list.now.cells.now own_cells own_coefficients own_coefficients own_words }
{
    match in_rooms::<2048, 128, 128>(list) {
        Ok(counted) => Ok(counted),
        Err(_) => in_rooms::<CELL_ROOM, COEFFICIENT_ROOM, SUM_ROOM>(list),
    }
}

// The same in rooms of these sizes.
fn in_rooms<const CELLS: usize, const COEFFICIENTS: usize, const WORDS: usize>(
    list: &MonomialList,
) -> Result<Dimension, Refusal>
    requires { (CELLS ≤ 16384) × (COEFFICIENTS ≤ 4096) × (WORDS ≤ 4096) }
    ensures { result ≡ dimension_answer MAX_WIDTH MAX_COUNT MAX_DEGREE list.now.width list.now.count list.now.cells.now (replicate CELLS 0) (replicate COEFFICIENTS (pos 0)) (replicate COEFFICIENTS (pos 0)) (replicate WORDS 0) }
{
    let mut room = [0u16; CELLS];
    let mut first = [0i64; COEFFICIENTS];
    let mut second = [0i64; COEFFICIENTS];
    let mut sums = [0u64; WORDS];
    quotient_dimension(
        list.width,
        list.count,
        list.cells,
        &mut room,
        &mut first,
        &mut second,
        &mut sums,
    )
}

// Writes the answer record of an answer.
fn tell(answer: Result<Dimension, Refusal>, out: &mut [u8]) -> Result<(), Refusal>
    requires top_fits { IfOk answer (λ counted. counted.top < 2 ^ 32) }
    requires out_len { ANSWER_SIZE ≤ length out.old }
    ensures value { result ≡ told answer }
    ensures out_after { out.new ≡ told_bytes answer ++ drop ANSWER_SIZE out.old }
{
    match answer {
        Ok(counted) => {
            put_answer(0, counted.dimension, counted.top as u32, out);
            Ok(())
        }
        Err(refusal) => {
            put_answer(number_of(refusal), Wide::ZERO, 0, out);
            Err(refusal)
        }
    }
}
