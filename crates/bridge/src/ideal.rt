// Ideal records: written, one monomial's part copied out, all exponents copied out.
ghost use Rattle.std.specs.Prelude.{◌≡◌, ◌++◌, ◌≤◌, length, drop};
ghost use Rattle.records.specs.Ideal.{write_answer, write_bytes, place_answer, copy_answer, copy_cells};
ghost use Rattle.bridge.specs.Told.{number_in, values_in};
ghost use Rattle.bridge.specs.Records.{of_size, of_check, of_copy, place_told, place_bytes};

use crate::told::{number_in, tell};
use monomials::refusal::{MAX_COUNT, MAX_WIDTH, Refusal, number_of};

// The exponent bytes of a monomial of the greatest width.
pub const MAX_PART: usize = 2 * MAX_WIDTH;

// The size of the record of the s monomials in `cells`, which stands at the front of `out`.
pub fn pt_write_record(n: u64, s: u64, cells: &[u16], out: &mut [u8], values: &mut [u64; 4]) -> u8
    ensures value { result ≡ number_in (of_size (write_answer MAX_WIDTH MAX_COUNT n s cells.now out.old)) }
    ensures out_after { out.new ≡ write_bytes MAX_WIDTH MAX_COUNT n s cells.now out.old }
    ensures values_after { values.new ≡ values_in (of_size (write_answer MAX_WIDTH MAX_COUNT n s cells.now out.old)) values.old }
{
    tell(
        records::ideal::write_record(n as usize, s as usize, cells, out),
        values,
    )
}

// Whether the bytes are a record that has a monomial at place k.
pub fn pt_check_place(rec: &[u8], k: u64) -> u8
    ensures { result ≡ number_in (of_check (place_answer MAX_COUNT rec.now k) 0) }
{
    number_in(records::ideal::check_place(rec, k as usize))
}

// The length of the part that holds the monomial at place k, whose bytes stand at the front of `out`.
pub fn pt_place(rec: &[u8], k: u64, out: &mut [u8], values: &mut [u64; 4]) -> u8
    ensures value { result ≡ number_in (place_told MAX_PART MAX_COUNT rec.now k out.old) }
    ensures out_after { out.new ≡ place_bytes MAX_PART MAX_COUNT rec.now k out.old }
    ensures values_after { values.new ≡ values_in (place_told MAX_PART MAX_COUNT rec.now k out.old) values.old }
{
    if out.len() < MAX_PART {
        return number_of(Refusal::Output);
    }
    let part = records::ideal::place(rec, k as usize);
    copy_front(part, out);
    tell(
        records::ideal::check_place(rec, k as usize).and(Ok(part.len())),
        values,
    )
}

// The width and the count of the record, whose exponents stand in the first cells.
pub fn pt_copy_record(rec: &[u8], cells: &mut [u16], values: &mut [u64; 4]) -> u8
    ensures value { result ≡ number_in (of_copy (copy_answer MAX_COUNT rec.now cells.old)) }
    ensures cells_after { cells.new ≡ copy_cells MAX_COUNT rec.now cells.old }
    ensures values_after { values.new ≡ values_in (of_copy (copy_answer MAX_COUNT rec.now cells.old)) values.old }
{
    tell(records::ideal::copy_record(rec, cells), values)
}

// Copies the part to the front of the output.
// A `for`: for `copy_from_slice` an archive for C needs `memmove` from outside.
fn copy_front(part: &[u8], out: &mut [u8])
    requires { length part.now ≤ length out.old }
    ensures { out.new ≡ part.now ++ drop (length part.now) out.old }
{
    for (i, byte) in part.iter().enumerate() {
        out[i] = *byte;
    }
}
