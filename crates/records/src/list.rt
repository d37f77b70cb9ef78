// A list of monomials, as the private functions take it.
ghost use Rattle.std.specs.Prelude.{◌≡◌, ◌*◌, ◌≤◌, length};
ghost use Rattle.monomials.specs.declared.refusal.TheConstants.{MAX_COUNT, MAX_WIDTH};

// Monomials of one width, whose exponents lie in cells, one monomial after another.
#[derive(Clone, Copy)]
pub(crate) struct MonomialList<'a> {
    pub(crate) width: usize,
    pub(crate) count: usize,
    pub(crate) cells: &'a [u16],
    ghost narrow: { width ≤ MAX_WIDTH },
    ghost few: { count ≤ MAX_COUNT },
    ghost filled: { length cells.now ≡ count * width },
}
