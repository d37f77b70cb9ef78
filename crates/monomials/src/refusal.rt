// The numbered refusals of the whole project, and the limits that they speak of.
ghost use Rattle.std.specs.Prelude.{◌≡◌, [], ◌∷◌};
ghost use Rattle.monomials.specs.Refusal.{number, refusal, answer, too_wide};

// The greatest width of a list or a monomial.
pub const MAX_WIDTH: usize = 255;

// The greatest count of listed monomials.
pub const MAX_COUNT: usize = 60;

// The greatest exponent that a cell holds.
pub const MAX_EXPONENT: u32 = 65535;

// Why a call refuses, and the number by which that is told.
#[derive(Clone, Copy, Debug, PartialEq, Eq, Hash)]
pub enum Refusal {
    // The width is above MAX_WIDTH.
    Width = 1,
    // More than MAX_COUNT monomials.
    Count = 2,
    // The cells are not count times width, or two monomials or an output differ in width.
    Cells = 3,
    // The variable is not below the width, or the place not below the count.
    Place = 4,
    // A product's exponent is above MAX_EXPONENT.
    Exponent = 5,
    // The divisor does not divide.
    Division = 6,
    // Too few exponent cells lent.
    CellRoom = 7,
    // Either coefficient room is too short.
    CoefficientRoom = 8,
    // The sum room is too short.
    SumRoom = 9,
    // The degree asked for is too large.
    Degree = 10,
    // The value may not fit.
    Value = 11,
    // The bytes are no ideal record.
    Record = 12,
    // No dimension.
    Dimension = 13,
    // Output bytes or cells too few.
    Output = 14,
    // A given coefficient is too large.
    Coefficient = 15,
}

// The number by which a refusal is told: a public call, and the number for C, so no `From`.
pub fn number_of(refusal: Refusal) -> u8
    ensures { result ≡ number refusal }
{
    refusal as u8
}

// Whether a width is allowed.
pub(crate) fn check_width(n: usize) -> Result<(), Refusal>
    ensures { result ≡ answer (refusal (too_wide MAX_WIDTH n ∷ [])) tt }
{
    if MAX_WIDTH < n {
        return Err(Refusal::Width);
    }
    Ok(())
}
