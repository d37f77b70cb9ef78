// Numbers as bytes, the greatest first, and the exponents of a record, two bytes each.
ghost use Rattle.std.specs.Prelude.{◌≡◌, ◌++◌, ◌+◌, ◌*◌, ◌≤◌, ◌<◌, length, get_or, take, drop};
ghost use Rattle.std.proofs.lemmas.List.Edits.{sets};
ghost use Rattle.laws.specs.Record.{big_endian, value, monomial_bytes, exponents_in};

// Writes the bytes from place `at` on.
pub(crate) fn put_bytes(out: &mut [u8], at: usize, bytes: &[u8])
    requires { at + length bytes.now ≤ length out.old }
    ensures { out.new ≡ sets out.old at bytes.now }
{
    out[at..at + bytes.len()].copy_from_slice(bytes);
}

// Writes the exponents of one monomial from place `at` on.
pub(crate) fn put_cells(out: &mut [u8], at: usize, cells: &[u16])
    requires { at + 2 * length cells.now ≤ length out.old }
    ensures { out.new ≡ sets out.old at (monomial_bytes cells.now) }
{
    for (i, cell) in cells.iter().enumerate() {
        put_bytes(out, at + 2 * i, &cell.to_be_bytes());
    }
}

// The number of two bytes at place `at`.
pub(crate) fn cell_at(bytes: &[u8], at: usize) -> u16
    requires { at + 1 < length bytes.now }
    ensures { result ≡ 256 * get_or bytes.now at 0 + get_or bytes.now (at + 1) 0 }
{
    u16::from_be_bytes([bytes[at], bytes[at + 1]])
}

// The number of four bytes at place 1: the length field.
pub(crate) fn field_of(rec: &[u8]) -> usize
    requires { 5 ≤ length rec.now }
    ensures { result ≡ value (take 4 (drop 1 rec.now)) }
{
    u32::from_be_bytes([rec[1], rec[2], rec[3], rec[4]]) as usize
}

// Copies the exponents of a record, which is all that follows its header. Both callers may have more cells than it has exponents, and keep the rest.
pub(crate) fn copy_cells(rec: &[u8], count: usize, cells: &mut [u16])
    requires { (length rec.now ≡ 7 + 2 * count) × (count ≤ length cells.old) }
    ensures { cells.new ≡ exponents_in rec.now ++ drop count cells.old }
{
    for (i, cell) in cells[..count].iter_mut().enumerate() {
        *cell = cell_at(rec, 7 + 2 * i);
    }
}
