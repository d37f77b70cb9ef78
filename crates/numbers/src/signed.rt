// Signed 64-bit words: sums and differences that wrap, and magnitudes, that of −2^63 too. Public calls, whose clauses state std's in the words
// of `laws`.
ghost use Rattle.std.specs.Prelude.{◌≡◌, ◌^◌, ◌+ℤ◌, ◌-ℤ◌, unsigned_abs};
ghost use Rattle.std.specs.Int.{w64};
ghost use Rattle.std.proofs.Common.{of_z, to_z};
ghost use Rattle.laws.specs.Word.{wrap};

// The magnitude of a.
pub fn magnitude(a: i64) -> u64
    ensures { result ≡ unsigned_abs a }
{
    a.unsigned_abs()
}

// a + b modulo 2^64.
pub fn wrapping_add(a: i64, b: i64) -> i64
    ensures { result ≡ wrap (2 ^ 64) (a +ℤ b) }
{
    a.wrapping_add(b)
}

// a - b modulo 2^64.
pub fn wrapping_sub(a: i64, b: i64) -> i64
    ensures { result ≡ wrap (2 ^ 64) (a -ℤ b) }
{
    a.wrapping_sub(b)
}

// The 64 bits of a.
pub fn to_bits(a: i64) -> u64
    ensures { result ≡ of_z w64 a }
{
    a.cast_unsigned()
}

// The signed word that has the bits x.
pub fn from_bits(x: u64) -> i64
    ensures { result ≡ to_z w64 x }
{
    x.cast_signed()
}
