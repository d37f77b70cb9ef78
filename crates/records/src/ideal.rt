// The ideal record: version, length, width and count, then the minimal monomials of a list, each once, DegRevLex greatest first. One list of
// multiples has one record, and bytes that are no record are refused whole.
ghost use Rattle.std.specs.Prelude.{true, ◌≡◌, [], ◌∷◌, ◌++◌, ◌+◌, ◌*◌, ◌≤◌, ◌<◌, length, take, drop};
ghost use Rattle.std.proofs.lemmas.List.Edits.{sets};
ghost use Rattle.laws.specs.Record.{big_endian, exponent_bytes, is_record, width_in, count_in, exponents_in};
ghost use Rattle.records.specs.Rows.{members_at, Below, header_stands, Ample};
ghost use Rattle.records.specs.Ideal.{write_answer, write_bytes, place_answer, place_part, copy_answer, copy_cells};

use crate::bytes::{copy_cells, field_of, put_bytes, put_cells};
use crate::choice::{Places, choose};
use crate::list::MonomialList;
use monomials::refusal::{MAX_COUNT, MAX_WIDTH, Refusal};

// The exponents of a record with the greatest width and count.
pub(crate) const MAX_CELLS: usize = MAX_WIDTH * MAX_COUNT;

// The bytes of that record.
pub const MAX_RECORD: usize = 7 + 2 * MAX_CELLS;

// The cells of a short record: those of the longest take longer to clear than a short one to read.
pub(crate) const FEW_CELLS: usize = 256;

// The bytes of a record with so many exponents.
pub(crate) const SHORT_RECORD: usize = 7 + 2 * FEW_CELLS;

// The width and the count of a list: bytes 5 and 6 of a record, which are read where one of them is needed.
#[derive(Clone, Copy)]
pub struct Shape {
    pub n: usize,
    pub m: usize,
}

// Writes the record of the list of s monomials of width n that lies in the cells, and tells its size; past it the output is kept.
pub fn write_record(n: usize, s: usize, cells: &[u16], out: &mut [u8]) -> Result<usize, Refusal>
    ensures value { result ≡ write_answer MAX_WIDTH MAX_COUNT n s cells.now out.old }
    ensures out_after { out.new ≡ write_bytes MAX_WIDTH MAX_COUNT n s cells.now out.old }
{
    // The checks of the calls of `numbers` on a list, none of which makes them alone.
    if MAX_WIDTH < n {
        return Err(Refusal::Width);
    }
    if MAX_COUNT < s {
        return Err(Refusal::Count);
    }
    if cells.len() != s * n {
        return Err(Refusal::Cells);
    }
    let list = MonomialList {
        width: n,
        count: s,
        cells,
    };
    let mut places = Places::new();
    choose(&list, &mut places);
    let chosen = places.as_slice();
    let m = chosen.len();
    let size = 7 + 2 * (m * n);
    if out.len() < size {
        return Err(Refusal::Output);
    }
    put_header(out, n, m);
    put_rows(out, &list, chosen);
    Ok(size)
}

// Whether the bytes are a record that has a monomial at place k.
pub fn check_place(rec: &[u8], k: usize) -> Result<(), Refusal>
    ensures { result ≡ place_answer MAX_COUNT rec.now k }
{
    if !is_record(rec) {
        return Err(Refusal::Record);
    }
    if usize::from(rec[6]) <= k {
        return Err(Refusal::Place);
    }
    Ok(())
}

// The exponent bytes of the monomial at place k, as a part of the record; the empty part where `check_place` refuses.
pub fn place(rec: &[u8], k: usize) -> &[u8]
    ensures { result.now ≡ place_part MAX_COUNT rec.now k }
{
    if !is_record(rec) {
        return &rec[0..0];
    }
    let m = usize::from(rec[6]);
    if m <= k {
        return &rec[0..0];
    }
    let n = usize::from(rec[5]);
    let from = 7 + 2 * n * k;
    let to = from + 2 * n;
    &rec[from..to]
}

// Copies all exponents of a record into the first cells, and tells its width and its count; past them the cells are kept.
pub fn copy_record(rec: &[u8], cells: &mut [u16]) -> Result<Shape, Refusal>
    ensures value { result ≡ copy_answer MAX_COUNT rec.now cells.old }
    ensures cells_after { cells.new ≡ copy_cells MAX_COUNT rec.now cells.old }
{
    if !is_record(rec) {
        return Err(Refusal::Record);
    }
    let n = usize::from(rec[5]);
    let m = usize::from(rec[6]);
    let count = m * n;
    if cells.len() < count {
        return Err(Refusal::Output);
    }
    copy_cells(rec, count, cells);
    Ok(Shape { n, m })
}

// The same into cells that are enough, where the exponents are checked too: after a refusal the cells may be changed.
pub(crate) fn read_record(rec: &[u8], cells: &mut [u16]) -> Result<Shape, Refusal>
    requires { Ample rec.now cells.old }
    ensures value { result ≡ copy_answer MAX_COUNT rec.now cells.old }
    ensures cells_after { is_record MAX_COUNT rec.now ≡ true → cells.new ≡ copy_cells MAX_COUNT rec.now cells.old }
{
    if !header_stands(rec) {
        return Err(Refusal::Record);
    }
    if !list_stands(rec, cells) {
        return Err(Refusal::Record);
    }
    Ok(Shape {
        n: usize::from(rec[5]),
        m: usize::from(rec[6]),
    })
}

// Whether the bytes are a record of at most MAX_COUNT monomials.
pub(crate) fn is_record(rec: &[u8]) -> bool
    ensures { result ≡ is_record MAX_COUNT rec.now }
{
    if !header_stands(rec) {
        return false;
    }
    if rec.len() <= SHORT_RECORD {
        let mut few = [0u16; FEW_CELLS];
        return list_stands(rec, &mut few);
    }
    let mut cells = [0u16; MAX_CELLS];
    list_stands(rec, &mut cells)
}

// The same for bytes whose header stands, the exponents copied into `cells`.
fn list_stands(rec: &[u8], cells: &mut [u16]) -> bool
    requires { (header_stands 60 rec.now ≡ true) × Ample rec.now cells.old }
    ensures value { result ≡ is_record 60 rec.now }
    ensures cells_after { cells.new ≡ exponents_in rec.now ++ drop (count_in rec.now * width_in rec.now) cells.old }
{
    let n = usize::from(rec[5]);
    let m = usize::from(rec[6]);
    let count = m * n;
    copy_cells(rec, count, cells);
    let list = MonomialList {
        width: n,
        count: m,
        cells: &cells[..count],
    };
    list.stand()
}

// Whether version, length field, count and size are right.
fn header_stands(rec: &[u8]) -> bool
    ensures { result ≡ header_stands MAX_COUNT rec.now }
{
    if rec.len() < 7 {
        return false;
    }
    if rec[0] != 1 {
        return false;
    }
    if field_of(rec) != rec.len() - 5 {
        return false;
    }
    let m = usize::from(rec[6]);
    if MAX_COUNT < m {
        return false;
    }
    rec.len() == 7 + 2 * (m * usize::from(rec[5]))
}

// Writes what stands before the exponents of m monomials of width n.
fn put_header(out: &mut [u8], n: usize, m: usize)
    requires n_le_max_width { (n ≤ MAX_WIDTH) × (m ≤ MAX_COUNT) }
    requires in_bounds { 7 ≤ length out.old }
    ensures { out.new ≡ sets out.old 0 (1 ∷ big_endian 4 (2 + 2 * (m * n)) ++ n ∷ m ∷ []) }
{
    out[0] = 1;
    put_bytes(out, 1, &((2 + 2 * (m * n)) as u32).to_be_bytes());
    out[5] = n as u8;
    out[6] = m as u8;
}

// Writes the exponents of the monomials at the places, one after another, behind the header.
fn put_rows(out: &mut [u8], list: &MonomialList, places: &[usize])
    requires below { Below list.now.count places.now }
    requires in_bounds { 7 + 2 * (length places.now * list.now.width) ≤ length out.old }
    ensures { out.new ≡ sets out.old 7 (exponent_bytes (members_at list.now places.now)) }
{
    for (k, place) in places.iter().enumerate() {
        put_cells(out, 7 + 2 * (k * list.width), list.row(*place));
    }
}
